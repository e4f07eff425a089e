/// The plain row of a sample, as it lies in memory that was lent: a stamp and four codes, with no promise of their range.
#[derive(Clone, Copy, PartialEq, Eq, Debug)]
pub struct SampleRow {
    pub stamp: u64,
    pub codes: [u16; 4],
}
