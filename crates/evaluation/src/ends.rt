// The two ends of a node at one position, as values of the scale.
ghost use Rattle.std.specs.Prelude.{◌≡◌, if◌then◌else◌};
ghost use Rattle.evaluation.specs.Memory.{kept_ends};
ghost use Rattle.evaluation.specs.Told.{told};

use crate::memory::Cell;
use scale::Scale;

/// The two ends between which a node's value lies at one position, while samples may still come.
#[derive(Clone, Copy)]
pub(crate) struct Ends<S> {
    pub low: S,
    pub high: S,
}

impl<S: Scale> From<Cell> for Ends<S> {
    ghost from_gives = { λ cell ends. ends ≡ record { low = S.ops.restored cell.low; high = S.ops.restored cell.high } };

    fn from(cell: Cell) -> Ends<S> {
        Ends {
            low: S::restored(cell.low),
            high: S::restored(cell.high),
        }
    }
}

impl<S: Scale> From<Ends<S>> for Cell {
    ghost from_gives = { λ ends cell. cell ≡ kept_ends S.ops (told ends) };

    fn from(ends: Ends<S>) -> Cell {
        Cell {
            low: ends.low.kept(),
            high: ends.high.kept(),
        }
    }
}

impl<S: Scale> Ends<S> {
    /// Ends of a value that is known.
    pub(crate) fn both(value: S) -> Ends<S>
        ensures { result ≡ record { low = value; high = value } }
    {
        Ends {
            low: value,
            high: value,
        }
    }

    /// Each end's or with the other's. `and` is written out beside it: a function that takes the operation would be no shorter, and its calls
    /// longer.
    pub(crate) fn or(self, other: Ends<S>) -> Ends<S>
        ensures { result ≡ record { low = S.ops.or self.low other.low; high = S.ops.or self.high other.high } }
    {
        Ends {
            low: self.low.or(other.low),
            high: self.high.or(other.high),
        }
    }

    /// Each end's and with the other's.
    pub(crate) fn and(self, other: Ends<S>) -> Ends<S>
        ensures { result ≡ record { low = S.ops.and self.low other.low; high = S.ops.and self.high other.high } }
    {
        Ends {
            low: self.low.and(other.low),
            high: self.high.and(other.high),
        }
    }

    /// The ends of the opposite value: the opposites, the other way round.
    pub(crate) fn turn_over(self) -> Ends<S>
        ensures { result ≡ record { low = S.ops.turned self.high; high = S.ops.turned self.low } }
    {
        Ends {
            low: self.high.turn_over(),
            high: self.low.turn_over(),
        }
    }

    /// These ends where the test holds, else worst.
    pub(crate) fn only_if(self, test: bool) -> Ends<S>
        ensures { result ≡ record { low = (if test then self.low else S.ops.worst); high = (if test then self.high else S.ops.worst) } }
    {
        if test { self } else { Ends::both(S::worst()) }
    }
}
