//! Rules: formulas of bounded metric temporal logic, held as a table of nodes in which operands stand before their users.
#![tactic(auto)]

mod horizon;
mod node;
mod rule;

pub use node::{Node, NodeRow};
pub use rule::Rule;
