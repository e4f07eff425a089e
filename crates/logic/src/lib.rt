//! The logic of rules: bounded metric temporal logic over sampled signals, with two ends while samples may still come. The
//! definitions are in specs/; each function here carries one theorem about them in its contract, and does nothing else.
#![tactic(auto)]

ghost use Rattle.logic.specs.Examples.{WorkedExamples};
ghost use Rattle.logic.specs.Theorems.{Settles, Narrows, Encloses, Ordered, StaysSettled, Forgets, CanContinue};

use scale::Scale;

/// Once the newest stamp is at least a position's stamp plus the wait, both ends there are the plain value.
pub fn settles<S: Scale>()
    ensures { Settles S.Scale.ops }
{}

/// With more samples low ends rise or stay, and high ends fall or stay.
pub fn narrows<S: Scale>()
    ensures { Narrows S.Scale.ops }
{}

/// The ends enclose the true value of every lawful continuation that runs the wait beyond.
pub fn encloses<S: Scale>()
    ensures { Encloses S.Scale.ops }
{}

/// Such a continuation always exists.
pub fn can_continue()
    ensures { CanContinue }
{}

/// The low end is at most the high end.
pub fn ordered<S: Scale>()
    ensures { Ordered S.Scale.ops }
{}

/// The ends of a settled position never change again.
pub fn stays_settled<S: Scale>()
    ensures { StaysSettled S.Scale.ops }
{}

/// Samples that are more than the reach older than a position may be dropped: its ends stay equal.
pub fn forgets<S: Scale>()
    ensures { Forgets S.Scale.ops }
{}

/// The worked examples, on pass/fail and on margins.
pub fn worked_examples()
    ensures { WorkedExamples }
{}
