//! Every refusal of the product: its number, its word, and the place that it may speak of.
#![tactic(auto)]

ghost use Rattle.std.specs.Prelude.{◌≡◌, Some};
ghost use Rattle.refusal.specs.Table.{number_of, word_of, place_of, misfit_text};
ghost use Rattle.refusal.specs.declared.Refusal.TheVariants.{Fault as OfFault};

use std::error::Error;
use std::fmt;

/// What ended a source before its time: the source's own number and a byte place. Each source numbers its faults as it likes, so the number
/// is of no enum.
#[derive(Clone, Copy, PartialEq, Eq, Debug)]
pub struct Fault {
    pub number: u32,
    pub place: u64,
}

/// Why a call is refused. The table of numbers and words stands in specs/Table.antt.
#[derive(Clone, Copy, PartialEq, Eq, Debug)]
pub enum Refusal {
    /// The bytes of a record stop in the middle of a count or a section.
    Cut,
    /// There are bytes after the last sample of a record.
    Surplus,
    /// A rule has not 1 to 32 nodes, or a record has more than 1,000,000 samples.
    Count,
    /// No node could have this row at its place.
    Node,
    /// A rule looks further than 4095 ticks, ahead and back together.
    Span,
    /// A stamp or a code is too large.
    Range,
    /// The watch is armed already.
    Armed,
    /// Lent memory has a length that does not fit, arm met a strip that has taken a record, or the strip's counts are not the watch's.
    Memory,
    /// The watch is not armed.
    Idle,
    /// No place is left for another sample.
    Full,
    /// The source has nothing more to give.
    Dry,
    /// The stamp does not come after the last one taken.
    Backward,
    /// No draw has come to the position yet.
    Unseen,
    /// The watch has let the position go.
    Gone,
    /// The oldest position still to be taken is unsettled.
    Open,
    /// There is no position to take.
    Bare,
    /// There is no room on the tray.
    TrayFull,
    /// There is nothing on the tray.
    TrayEmpty,
    /// A figure of the calibrator is out of range.
    Pattern,
    /// A source failed: its fault keeps its own number and place.
    Fault(Fault),
}

/// A refusal of something long, and the place in it: a row of a rule, a byte of a record.
#[derive(Clone, Copy, PartialEq, Eq, Debug)]
pub struct Misfit {
    pub refusal: Refusal,
    pub place: u64,
}

impl Refusal {
    /// The refusal at a place.
    pub fn at(self, place: u64) -> Misfit
        ensures { result ≡ record { refusal = self; place = place } }
    {
        Misfit {
            refusal: self,
            place,
        }
    }

    /// The number and the word of the refusal, the table in the code. Numbers and words are the product's format: a program in C and a line
    /// of output have them.
    fn entry(self) -> (u32, &'static str)
        ensures number { result.0 ≡ number_of self }
        ensures word { result.1.now ≡ word_of self }
    {
        match self {
            Refusal::Cut => (1, "cut"),
            Refusal::Surplus => (2, "surplus"),
            Refusal::Count => (3, "count"),
            Refusal::Node => (4, "node"),
            Refusal::Span => (5, "span"),
            Refusal::Range => (6, "range"),
            Refusal::Armed => (7, "armed"),
            Refusal::Memory => (8, "memory"),
            Refusal::Idle => (9, "idle"),
            Refusal::Full => (10, "full"),
            Refusal::Dry => (11, "dry"),
            Refusal::Backward => (12, "backward"),
            Refusal::Unseen => (13, "unseen"),
            Refusal::Gone => (14, "gone"),
            Refusal::Open => (15, "open"),
            Refusal::Bare => (16, "bare"),
            Refusal::TrayFull => (17, "tray full"),
            Refusal::TrayEmpty => (18, "tray empty"),
            Refusal::Pattern => (19, "pattern"),
            Refusal::Fault(fault) => (fault.number, "fault"),
        }
    }

    /// The number of the refusal. A source's fault has its own.
    pub fn number(self) -> u32
        ensures { result ≡ number_of self }
    {
        self.entry().0
    }

    /// The byte place of a source's fault, and 0 for every other refusal.
    pub fn place(self) -> u64
        ensures { result ≡ place_of self }
    {
        match self {
            Refusal::Fault(fault) => fault.place,
            _ => 0,
        }
    }

    /// The word of the refusal. A source's fault, whose number is its own, is a fault.
    pub fn word(self) -> &'static str
        ensures { result.now ≡ word_of self }
    {
        self.entry().1
    }
}

impl From<Fault> for Refusal {
    ghost from_gives = { λ fault refusal. refusal ≡ OfFault fault };

    fn from(fault: Fault) -> Refusal {
        Self::Fault(fault)
    }
}

impl fmt::Display for Refusal {
    ghost output = { λ r. Some (word_of r) };

    fn fmt<W: fmt::Write>(&self, f: &mut fmt::Formatter<W>) -> fmt::Result {
        f.pad(self.word())
    }
}

impl Error for Refusal {}

/// One line: the number of the refusal, its place and its word.
impl fmt::Display for Misfit {
    ghost output = { λ m. Some (misfit_text m) };

    fn fmt<W: fmt::Write>(&self, f: &mut fmt::Formatter<W>) -> fmt::Result {
        let Misfit { refusal, place } = *self;
        let number = refusal.number();
        write!(f, "refused {number} at {place}: {refusal}")
    }
}

impl Error for Misfit {}
