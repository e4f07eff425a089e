ghost use Rattle.std.specs.Prelude.{◌≡◌};
ghost use Rattle.sample.specs.Endings.{refusal_of};

use refusal::{Fault, Refusal};

/// Why no sample comes any more: the source is dry, or it failed. An enum of its own, and no `Option<Fault>`, in which `None` would have to
/// be read as dry.
#[derive(Clone, Copy, PartialEq, Eq, Debug)]
pub enum Ending {
    Dry,
    Fault(Fault),
}

impl Ending {
    /// The refusal that tells of the ending.
    pub fn refusal(self) -> Refusal
        ensures { result ≡ refusal_of self }
    {
        match self {
            Ending::Dry => Refusal::Dry,
            Ending::Fault(fault) => Refusal::Fault(fault),
        }
    }
}

impl From<Ending> for Refusal {
    ghost from_gives = { λ ending refusal. refusal ≡ refusal_of ending };

    fn from(ending: Ending) -> Refusal {
        ending.refusal()
    }
}
