//! Trials: the library on the edges of its limits, and on records that are damaged. What is expected is written out by hand.
#![tactic(auto)]

#[cfg(test)]
mod calibrators;
#[cfg(test)]
mod evaluations;
#[cfg(test)]
mod helpers;
#[cfg(test)]
mod openings;
#[cfg(test)]
mod refusals;
#[cfg(test)]
mod rules;
#[cfg(test)]
mod samples;
#[cfg(test)]
mod scales;
#[cfg(test)]
mod sources;
#[cfg(test)]
mod watches;
