// Searches over positions by their cells.
ghost use Rattle.std.specs.Prelude.{◌≡◌, ◌+◌, ◌-◌};
ghost use Rattle.world.specs.Steps.{many};
ghost use Rattle.watch.specs.Cells.{cell_in, ends_of, same_ends, fails, lowest};

use crate::places::Places;
use evaluation::Cell;
use scale::Scale;
use world::Shown;

/// The two ends that a cell keeps. No `From`: both types are of other crates, and the world knows no cells.
pub(crate) fn ends<S: Scale>(cell: Cell) -> Shown<S>
    ensures { result ≡ ends_of S.ops cell }
{
    Shown {
        low: S::restored(cell.low),
        high: S::restored(cell.high),
    }
}

/// Whether the two ends in a cell are the same.
pub(crate) fn is_settled<S: Scale>(cell: Cell) -> bool
    ensures { result ≡ same_ends S.ops cell }
{
    let Shown { low, high } = ends::<S>(cell);
    low.same(high)
}

/// Whether the high end in a cell does not pass.
fn is_failing<S: Scale>(cell: Cell) -> bool
    ensures { result ≡ fails S.ops cell }
{
    !ends::<S>(cell).high.passes()
}

// A search is given `low` and `high`, as its definition has them; a `Range` would be taken apart again in each contract.
impl Places<'_, Cell> {
    /// How many of the positions from `low` on, and below `high`, are settled.
    pub(crate) fn count_settled<S: Scale>(&self, low: u64, high: u64) -> u64
        ensures { result ≡ many (λ k. same_ends S.ops (cell_in self.now.lent.now (low + k))) (high - low) }
    {
        (low..high)
            .filter(|&position| is_settled::<S>(self.at(position)))
            .count() as u64
    }

    /// The lowest position from `low` on, and below `high`, whose high end does not pass.
    pub(crate) fn first_failing<S: Scale>(&self, low: u64, high: u64) -> Option<u64>
        ensures { result ≡ lowest (λ p. fails S.ops (cell_in self.now.lent.now p)) low (high - low) }
    {
        (low..high).find(|&position| is_failing::<S>(self.at(position)))
    }
}
