ghost use Rattle.scale.specs.PassFails.{pass_fail, pass_fail_reading, verdict_of};
ghost use Rattle.std.proofs.Common.{rules};
ghost use Rattle.std.specs.Prelude.{◌≡◌};

use crate::{Code, Scale, TestScale};

/// The scale of the two verdicts.
#[derive(Clone, Copy, PartialEq, Eq, PartialOrd, Ord, Debug)]
pub enum PassFail {
    Fail,
    Pass,
}

/// The verdict of a test: pass where it is true.
impl From<bool> for PassFail {
    ghost from_gives = { λ passed verdict. verdict ≡ verdict_of passed };

    fn from(passed: bool) -> PassFail {
        if passed {
            PassFail::Pass
        } else {
            PassFail::Fail
        }
    }
}

/// The logical operations. Pass is kept as 1 and fail as 0; any number but 1 restores fail.
impl Scale for PassFail {
    ghost ops = { pass_fail };

    ghost lawful = { Prim.search rules };

    fn or(self, other: PassFail) -> PassFail {
        self.max(other)
    }

    fn and(self, other: PassFail) -> PassFail {
        self.min(other)
    }

    fn turn_over(self) -> PassFail {
        match self {
            PassFail::Fail => PassFail::Pass,
            PassFail::Pass => PassFail::Fail,
        }
    }

    fn worst() -> PassFail {
        Self::Fail
    }

    fn best() -> PassFail {
        Self::Pass
    }

    fn same(self, other: PassFail) -> bool {
        self == other
    }

    fn passes(self) -> bool {
        self == PassFail::Pass
    }

    // The stored form is a number on every scale, since it lies in lent memory.
    fn kept(self) -> i64 {
        match self {
            PassFail::Fail => 0,
            PassFail::Pass => 1,
        }
    }

    fn restored(number: i64) -> PassFail {
        PassFail::from(number == 1)
    }
}

/// A code passes unless it is below the level.
impl TestScale for PassFail {
    ghost reading = { pass_fail_reading };

    fn read(code: Code, level: Code) -> PassFail {
        PassFail::from(code >= level)
    }
}
