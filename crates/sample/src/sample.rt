ghost use Rattle.std.specs.Prelude.{◌≡◌, ℕ, ◌<◌, ◌≤◌, length, slice_index};
ghost use Rattle.sample.specs.Limits.{stamp_limit};
ghost use Rattle.scale.specs.Limits.{largest_code};

use crate::row::SampleRow;
use refusal::Refusal;
use scale::Code;

/// One sample of a capture: its time in ticks, below 2^40, and the code of each of four channels. The type admits no figure that is out
/// of range.
#[derive(Clone, Copy, PartialEq, Eq, Debug)]
pub struct Sample {
    row: SampleRow,
    ghost four: { length row.codes ≡ 4 },
    ghost early: { row.stamp < stamp_limit },
    ghost within: { (k : ℕ) → slice_index row.codes k ≤ largest_code },
}

impl Sample {
    ghost use Rattle.std.specs.Prelude.{◌-◌, min, MatchOption, MatchResult};
    ghost use Rattle.refusal.specs.declared.Refusal.TheVariants.{Range};
    ghost use Rattle.sample.specs.Rows.{Fits, clamped};
    ghost use Rattle.sample.specs.declared.sample.Sample.{Sample as Checked};

    /// The first stamp that is too late for a sample. The code has the limit only here; specs/Limits.antt has it for the contracts.
    pub const STAMP_LIMIT: u64 = 1 << 40;

    /// The sample of a stamp and four codes, refused as out of range where the stamp is not below the limit or a code is above the largest.
    pub fn new(stamp: u64, codes: [u16; 4]) -> Result<Sample, Refusal>
        ensures { MatchResult result (λ sample. sample.row ≡ record { stamp = stamp; codes = codes }) (λ why. (why ≡ Range) × (Fits (record { stamp = stamp; codes = codes }) → ⊥)) }
    {
        if stamp >= Sample::STAMP_LIMIT || codes.iter().any(|&code| code > Code::LARGEST) {
            return Err(Refusal::Range);
        }
        Ok(Sample {
            row: SampleRow { stamp, codes },
        })
    }

    /// The stamp nearest to a number: a number that is too late counts as the last stamp that is not.
    pub fn nearest_stamp(stamp: u64) -> u64
        ensures { result ≡ min stamp (stamp_limit - 1) }
    {
        stamp.min(Sample::STAMP_LIMIT - 1)
    }

    /// Reads a row back, with each figure that is too large cut down to its limit. A row that was a sample's gives that sample again.
    pub fn from_row(row: SampleRow) -> Sample
        ensures clamps { result.row ≡ clamped row }
        ensures again { (sample : Checked) → row ≡ sample.row → result ≡ sample }
    {
        Sample {
            row: SampleRow {
                stamp: Sample::nearest_stamp(row.stamp),
                codes: row.codes.map(|code| Code::nearest(code).value()),
            },
        }
    }

    /// The plain row, to be kept in lent memory.
    pub fn row(&self) -> SampleRow
        ensures { result ≡ self.now.row }
    {
        SampleRow::from(*self)
    }

    /// The stamp, in ticks.
    pub fn stamp(&self) -> u64
        ensures { result ≡ self.now.row.stamp }
    {
        self.row.stamp
    }

    /// The codes of channels 0 to 3.
    pub fn codes(&self) -> [u16; 4]
        ensures { result ≡ self.now.row.codes }
    {
        self.row.codes
    }

    /// The code of a channel; there is none past channel 3.
    pub fn code(&self, channel: usize) -> Option<Code>
        ensures { MatchOption result (3 < channel) (λ code. (channel ≤ 3) × (code.value ≡ slice_index self.now.row.codes channel)) }
    {
        self.codes().get(channel).copied().map(Code::nearest)
    }
}

impl From<Sample> for SampleRow {
    ghost from_gives = { λ sample row. row ≡ sample.row };

    fn from(sample: Sample) -> SampleRow {
        sample.row
    }
}
