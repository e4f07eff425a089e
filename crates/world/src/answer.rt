ghost use Rattle.std.specs.Prelude.{◌≡◌};
ghost use Rattle.world.specs.Answers.{number_of, place_of, refusal_in};

use crate::reading::Reading;
use crate::refused::Refused;
use refusal::Refusal;

/// What a draw answers: the position of the new sample, and how many untaken positions it settled.
#[derive(Clone, Copy, PartialEq, Eq, Debug)]
pub struct Drawn {
    pub position: u64,
    pub settled: u64,
}

/// What look answers: the two ends between which the rule's true value lies.
#[derive(Clone, Copy, PartialEq, Eq, Debug)]
pub struct Shown<S> {
    pub low: S,
    pub high: S,
}

/// The whole answer to a call. One enum with a case for a refusal, and no `Result`: a list of answers is read case by case, as the model's.
#[derive(Clone, Copy, PartialEq, Eq, Debug)]
pub enum Answer<S> {
    Armed,
    Drew(Drawn),
    Showed(Shown<S>),
    /// The first untaken position whose upper bound fails, with its stamp, if there is one.
    Alarmed(Option<(u64, u64)>),
    /// The position that was taken.
    Took(u64),
    Pulled(Reading<S>),
    Refused(Refused),
}

impl<S: Copy> Answer<S> {
    /// The refusal, where the call was refused.
    fn refusal(self) -> Option<Refusal>
        ensures { result ≡ refusal_in self }
    {
        match self {
            Answer::Refused(refused) => Some(refused.refusal),
            _ => None,
        }
    }

    /// The number of the refusal, and 0 for a call that was accepted. A source may number its fault as it likes, also 0: the case tells.
    pub fn number(self) -> u32
        ensures { result ≡ number_of self }
    {
        self.refusal().map_or(0, Refusal::number)
    }

    /// The byte place of a source's fault, and 0 for every other answer.
    pub fn place(self) -> u64
        ensures { result ≡ place_of self }
    {
        self.refusal().map_or(0, Refusal::place)
    }
}
