ghost use Rattle.std.specs.Prelude.{◌≡◌};
ghost use Rattle.world.specs.Tests.{ending_refuses, watch_refuses};

use refusal::Refusal;
use sample::Ending;

/// Who refused a call.
#[derive(Clone, Copy, PartialEq, Eq, Debug)]
pub enum By {
    Watch,
    Source,
}

/// A refusal, and whose it is: a source refuses a draw when it has ended, all else is the watch's. Whoever asks for the number, the word
/// or the place of a refusal does so in one way, `why.refusal`, whosever it is; so this is one struct, and not an enum of two.
#[derive(Clone, Copy, PartialEq, Eq, Debug)]
pub struct Refused {
    pub by: By,
    pub refusal: Refusal,
}

/// A refusal that is not a source's is the watch's.
impl From<Refusal> for Refused {
    ghost from_gives = { λ why refused. refused ≡ watch_refuses why };

    fn from(refusal: Refusal) -> Refused {
        Refused {
            by: By::Watch,
            refusal,
        }
    }
}

/// A source's ending refuses a draw.
impl From<Ending> for Refused {
    ghost from_gives = { λ ending refused. refused ≡ ending_refuses ending };

    fn from(ending: Ending) -> Refused {
        Refused {
            by: By::Source,
            refusal: ending.refusal(),
        }
    }
}
