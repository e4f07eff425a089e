ghost use Rattle.std.specs.Prelude.{◌≡◌, ◌%◌, ◌≤◌, unsigned_abs};
ghost use Rattle.scale.specs.Limits.{best_margin};

use crate::{Code, Scale, TestScale};

/// A margin: by how much a value passes or fails, in half codes. An odd number, so never 0, from −`Margin::BEST` to `Margin::BEST`. No
/// margin can hold anything else.
#[derive(Clone, Copy, PartialEq, Eq, PartialOrd, Ord, Debug)]
pub struct Margin {
    value: i32,
    ghost odd: { unsigned_abs value % 2 ≡ 1 },
    ghost near: { unsigned_abs value ≤ best_margin },
}

impl Margin {
    /// The best margin: the next odd number above what the largest code reads as against the level 0. The worst is its negative.
    pub const BEST: i32 = 2 * Code::LARGEST as i32 + 3;

    /// The number.
    pub fn value(self) -> i32
        ensures { result ≡ self.value }
    {
        self.value
    }
}

impl From<Margin> for i32 {
    ghost from_gives = { λ margin value. value ≡ margin.value };

    fn from(margin: Margin) -> i32 {
        margin.value()
    }
}

/// Join and meet are maximum and minimum, turning over negates, and positive margins pass. A margin is stored as its number; a number
/// that no margin has gives the worst.
impl Scale for Margin {
    ghost use Rattle.scale.specs.Margins.{margins};
    ghost use Rattle.scale.specs.ValuesLemmas.{same_value};
    ghost use Rattle.std.proofs.Common.{rules};
    ghost use Rattle.std.proofs.lemmas.Int.{ints, clamps};

    ghost ops = { margins };

    ghost lawful = { Prim.search (rules, ints, clamps, same_value) };

    fn or(self, other: Margin) -> Margin {
        self.max(other)
    }

    fn and(self, other: Margin) -> Margin {
        self.min(other)
    }

    fn turn_over(self) -> Margin {
        Margin { value: -self.value }
    }

    // Worst and best differ by the sign alone; one function that is told the sign would be no plainer.
    fn worst() -> Margin {
        Margin {
            value: -Margin::BEST,
        }
    }

    fn best() -> Margin {
        Margin {
            value: Margin::BEST,
        }
    }

    fn same(self, other: Margin) -> bool {
        self == other
    }

    fn passes(self) -> bool {
        0 < self.value
    }

    fn kept(self) -> i64 {
        i64::from(self.value)
    }

    fn restored(number: i64) -> Margin {
        let size = number.unsigned_abs();
        if size <= Margin::BEST as u64 && size % 2 == 1 {
            Margin {
                value: number as i32,
            }
        } else {
            Margin::worst()
        }
    }
}

/// Twice the distance of the code from the level, and one more, so that the level itself passes.
impl TestScale for Margin {
    ghost use Rattle.scale.specs.Margins.{margin_reading};

    ghost reading = { margin_reading };

    fn read(code: Code, level: Code) -> Margin {
        Margin {
            value: 2 * (i32::from(code.value()) - i32::from(level.value())) + 1,
        }
    }
}
