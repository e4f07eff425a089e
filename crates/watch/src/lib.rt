//! The watch: it tests one rule on every sample that it draws from a source, in memory that the caller lends.
#![tactic(auto)]

mod armed;
mod before;
mod places;
mod stopped;
mod watch;

/// The most places of a sample strip that a watch is armed with.
pub const MOST_PLACES: usize = 4096;

pub use stopped::{Stopped, Tally};
pub use watch::Watch;
