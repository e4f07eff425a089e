// The ends of a node that looks at other positions, from the rings of its operands.
ghost use Rattle.std.specs.Prelude.{◌≡◌, ◌<◌};
ghost use Rattle.evaluation.specs.Connectives.{until_ends, since_ends, next_ends, yesterday_ends};
ghost use Rattle.evaluation.specs.Memory.{Climbs};
ghost use Rattle.evaluation.specs.Passes.{ends_near};
ghost use Rattle.evaluation.specs.Told.{told};
ghost use Rattle.evaluation.specs.Views.{trace_in, ends_at};

use crate::ends::Ends;
use crate::pass::{Bounds, Seen};
use crate::ring::Ring;
use scale::Scale;

// Each call asks for a position of the view, as a read of a slice asks for an index: a position and its view as one value would be no
// plainer, since each also reads at other positions. Bounds are the node's and j the loop's. Two rings of one view stand in no struct: it
// would serve until and since alone.
impl Ring<'_> {
    /// The ends at position k where it is within the bounds of position j, else worst.
    fn ends_near<S: Scale>(&self, bounds: Bounds, j: usize, k: usize) -> Ends<S>
        requires j { j < self.now.view.count }
        requires k { k < self.now.view.count }
        ensures { told result ≡ ends_near S.ops self.now bounds.low bounds.high j k }
    {
        let test = bounds.contain(self.view.gap(j, k));
        self.at::<S>(k).only_if(test)
    }

    /// Next: the ends at the position after j; after the newest one, unknown where the high bound leaves room for a sample to come.
    pub(crate) fn next<S: Scale>(&self, bounds: Bounds, j: usize) -> Ends<S>
        requires { j < self.now.view.count }
        ensures { Climbs (trace_in self.now.view) → told result ≡ next_ends S.ops (trace_in self.now.view) bounds.low bounds.high (ends_at S.ops self.now) j }
    {
        if j + 1 < self.view.count {
            return self.ends_near(bounds, j, j + 1);
        }
        let unknown: Ends<S> = Ends {
            low: S::worst(),
            high: S::best(),
        };
        unknown.only_if(1 <= bounds.high)
    }

    /// Yesterday: the ends at the position before j.
    pub(crate) fn yesterday<S: Scale>(&self, bounds: Bounds, j: usize) -> Ends<S>
        requires { j < self.now.view.count }
        ensures { Climbs (trace_in self.now.view) → told result ≡ yesterday_ends S.ops (trace_in self.now.view) bounds.low bounds.high (ends_at S.ops self.now) j }
    {
        if j == 0 {
            return Ends::both(S::worst());
        }
        self.ends_near(bounds, j, j - 1)
    }

    /// Until, with this node on the left. While samples to come can be within the bounds, the high end is also what the left one holds so
    /// far.
    pub(crate) fn until<S: Scale>(&self, right: &Ring, bounds: Bounds, j: usize) -> Ends<S>
        requires same { right.now.view ≡ self.now.view }
        requires j { j < self.now.view.count }
        ensures { Climbs (trace_in self.now.view) → told result ≡ until_ends S.ops (trace_in self.now.view) bounds.low bounds.high (ends_at S.ops self.now) (ends_at S.ops right.now) j }
    {
        let Seen { found, so_far } = self.pass::<S, _>(right, bounds, j, j..self.view.count);
        if self.view.gap(j, self.view.count - 1) < u64::from(bounds.high) {
            let high = found.high.or(so_far.high);
            return Ends { high, ..found };
        }
        found
    }

    /// Since, with this node on the left.
    pub(crate) fn since<S: Scale>(&self, right: &Ring, bounds: Bounds, j: usize) -> Ends<S>
        requires same { right.now.view ≡ self.now.view }
        requires j { j < self.now.view.count }
        ensures { Climbs (trace_in self.now.view) → told result ≡ since_ends S.ops (trace_in self.now.view) bounds.low bounds.high (ends_at S.ops self.now) (ends_at S.ops right.now) j }
    {
        // Half open: an inclusive range also tests at each step whether it is exhausted.
        let back = (0..j + 1).rev();
        self.pass::<S, _>(right, bounds, j, back).found
    }
}
