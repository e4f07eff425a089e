// A search over positions by their stamps.
ghost use Rattle.std.specs.Prelude.{◌≡◌, ◌+◌, ◌<◌, ◌≤◌, length};
ghost use Rattle.evaluation.specs.Memory.{row_at};
ghost use Rattle.rule.specs.Limits.{largest_span};
ghost use Rattle.watch.specs.Cells.{FirstLater};

use crate::places::Places;
use sample::SampleRow;
use strip::Stamped;

/// The stamp at a position of a strip. A function, since a closure that borrows a `Places` of its own function has no
/// contract that is inferred.
pub(crate) fn stamp_at(rows: &[SampleRow], position: u64) -> u64
    requires { 0 < length rows.now }
    ensures { result ≡ (row_at rows.now position).stamp }
{
    Places::over(rows).stamp(position)
}

impl Places<'_, SampleRow> {
    /// The stamp at a position; one above the limit counts as the limit.
    pub(crate) fn stamp(&self, position: u64) -> u64
        ensures { result ≡ (row_at self.now.lent.now position).stamp }
    {
        self.at(position).stamp()
    }

    /// The first position from `low` on, and below `high`, whose stamp and `by` more is after the stamp `moment`; `high` if there is
    /// none.
    pub(crate) fn first_later(&self, low: u64, high: u64, moment: u64, by: u64) -> u64
        requires order { low ≤ high }
        requires near { by ≤ largest_span }
        ensures { FirstLater self.now.lent.now low high moment by result }
    {
        (low..high)
            .find(|&position| moment < self.stamp(position) + by)
            .unwrap_or(high)
    }
}
