//! Samples, the sources that they come from, and a source for testing a setup.
#![tactic(auto)]

mod calibrator;
mod ending;
mod pattern;
mod row;
mod sample;
mod source;

pub use calibrator::Calibrator;
pub use ending::Ending;
pub use pattern::Pattern;
pub use row::SampleRow;
pub use sample::Sample;
pub use source::Source;
