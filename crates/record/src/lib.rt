//! Records: a rule and the samples of a capture, as bytes.
#![tactic(auto)]

mod c_calls;
mod format;
mod opening;
mod source;

pub use c_calls::{comriep_record_number, comriep_record_place};
pub use opening::{Opened, open};
pub use source::RecordSource;
