//! The reading of rules: the two ends of every node at every position of a window, in lent memory, on any test scale.
#![tactic(auto)]

mod call;
mod connectives;
mod ends;
mod memory;
mod nodes;
mod pass;
mod ring;
mod view;

pub use call::evaluate;
pub use memory::Cell;
