ghost use Rattle.std.specs.Prelude.{◌+◌, ◌<◌, ◌≤◌};
ghost use Rattle.scale.specs.Limits.{largest_code};
ghost use Rattle.sample.specs.Limits.{stamp_limit};

use crate::ending::Ending;
use crate::pattern::Pattern;
use crate::row::SampleRow;
use crate::sample::Sample;
use crate::source::Source;
use refusal::Refusal;
use scale::Code;

/// A source that makes a square wave, for testing a setup. It ends dry.
#[derive(Debug, Drop)]
pub struct Calibrator {
    pattern: Pattern,
    /// How many samples were taken.
    taken: u32,
    ghost begun: { taken ≤ pattern.count },
    ghost half: { 0 < pattern.half_period },
    ghost high: { pattern.high ≤ largest_code },
    ghost low: { pattern.low ≤ largest_code },
    ghost early: { pattern.first + pattern.count ≤ stamp_limit },
}

impl Calibrator {
    ghost use Rattle.std.specs.Prelude.{◌≡◌, MatchResult};
    ghost use Rattle.refusal.specs.declared.Refusal.TheVariants.{Pattern as BadPattern};
    ghost use Rattle.sample.specs.Patterns.{Fitting};
    ghost use Rattle.sample.specs.Waves.{wave, wave_left};

    /// The most samples of a pattern.
    pub const MOST_SAMPLES: u32 = 1_000_000;

    /// The longest half period, in samples.
    pub const LONGEST_HALF: u32 = 1000;

    /// The source of a pattern, at its first sample; refused where a figure is out of range or `first` + `count` exceeds the limit of stamps.
    pub fn new(pattern: Pattern) -> Result<Calibrator, Refusal>
        ensures { MatchResult result (λ made. Fitting pattern × (wave_left made ≡ wave pattern)) (λ why. (why ≡ BadPattern) × (Fitting pattern → ⊥)) }
    {
        if pattern.first >= Sample::STAMP_LIMIT
            || pattern.count > Calibrator::MOST_SAMPLES
            || pattern.half_period == 0
            || pattern.half_period > Calibrator::LONGEST_HALF
            || pattern.high > Code::LARGEST
            || pattern.low > Code::LARGEST
            || pattern.first + u64::from(pattern.count) > Sample::STAMP_LIMIT
        {
            return Err(Refusal::Pattern);
        }
        Ok(Calibrator { pattern, taken: 0 })
    }
}

impl Source for Calibrator {
    ghost use Rattle.sample.specs.Waves.{wave_left};

    ghost meaning = { wave_left };

    fn peek(&mut self) -> Result<Sample, Ending> {
        let Pattern {
            first,
            count,
            half_period,
            high,
            low,
        } = self.pattern;
        if self.taken == count {
            return Err(Ending::Dry);
        }
        let half = self.taken / half_period;
        let code = if half % 2 == 0 { high } else { low };
        Ok(Sample::from_row(SampleRow {
            stamp: first + u64::from(self.taken),
            codes: [code, 0, 0, 0],
        }))
    }

    fn step(&mut self) {
        if self.taken < self.pattern.count {
            self.taken += 1;
        }
    }
}
