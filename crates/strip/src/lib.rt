//! A strip: a ring of stamped records over memory that the caller lends. First in is first out, and freed places are used again.
#![tactic(auto)]

mod reading;
mod stamped;
mod strip;

pub use reading::ReadingRow;
pub use stamped::Stamped;
pub use strip::{Strip, Tray};
