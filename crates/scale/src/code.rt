ghost use Rattle.std.specs.Prelude.{◌≤◌};
ghost use Rattle.scale.specs.Limits.{largest_code};

use refusal::Refusal;
use std::fmt;

/// A code: what the converter gives for a channel, 0 to `Code::LARGEST`. No code can hold anything else.
#[derive(Clone, Copy, PartialEq, Eq, PartialOrd, Ord, Debug)]
pub struct Code {
    value: u16,
    ghost within: { value ≤ largest_code },
}

impl Code {
    ghost use Rattle.std.specs.Prelude.{◌≡◌, min};
    ghost use Rattle.scale.specs.Codes.{CodeOf};

    /// The largest code, and the largest level. The code has the limit only here; specs/Limits.antt has it for the contracts.
    pub const LARGEST: u16 = 4095;

    /// The code of a number, refused as out of range where the number is above the largest code.
    pub fn new(value: u16) -> Result<Code, Refusal>
        ensures { CodeOf value result }
    {
        if value <= Code::LARGEST {
            Ok(Code { value })
        } else {
            Err(Refusal::Range)
        }
    }

    /// The code nearest to a number: a number above the largest code counts as the largest.
    pub fn nearest(value: u16) -> Code
        ensures { result.value ≡ min value largest_code }
    {
        Code {
            value: value.min(Code::LARGEST),
        }
    }

    /// The number.
    pub fn value(self) -> u16
        ensures { result ≡ self.value }
    {
        self.value
    }
}

impl TryFrom<u16> for Code {
    ghost use Rattle.scale.specs.Codes.{CodeOf};

    type Error = Refusal;

    ghost try_from_gives = { CodeOf };

    fn try_from(value: u16) -> Result<Code, Refusal> {
        Code::new(value)
    }
}

impl From<Code> for u16 {
    ghost use Rattle.std.specs.Prelude.{◌≡◌};

    ghost from_gives = { λ code value. value ≡ code.value };

    fn from(code: Code) -> u16 {
        code.value()
    }
}

impl fmt::Display for Code {
    ghost use Rattle.std.specs.Prelude.{decimal, Some};

    ghost output = { λ code. Some (decimal code.value) };

    fn fmt<W: fmt::Write>(&self, f: &mut fmt::Formatter<W>) -> fmt::Result {
        let Code { value } = *self;
        write!(f, "{value}")
    }
}
