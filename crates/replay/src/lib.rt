//! Replaying a list of calls on a watch. The contract of `replay` has the law of every run.
#![tactic(auto)]

mod runs;
mod serve;

pub use runs::replay;
