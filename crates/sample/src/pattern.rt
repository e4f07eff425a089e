/// A square wave to test a setup with: `count` samples, one for each tick from `first` on. Channel 0 starts high and changes level every
/// `half_period` samples; the other channels stay 0.
#[derive(Clone, Copy, PartialEq, Eq, Debug)]
pub struct Pattern {
    /// The stamp of sample 0, below `Sample::STAMP_LIMIT`; that of the last sample is below it too.
    pub first: u64,
    /// How many samples, 0 to `Calibrator::MOST_SAMPLES`.
    pub count: u32,
    /// How many samples stay on one code, 1 to `Calibrator::LONGEST_HALF`.
    pub half_period: u32,
    /// The code of the even halves, at most `Code::LARGEST`; it may be below the low code.
    pub high: u16,
    /// The code of the odd halves, at most `Code::LARGEST`.
    pub low: u16,
}
