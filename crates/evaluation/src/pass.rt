// One pass over positions for an until and a since, which carries both ends.
ghost use Rattle.std.specs.Prelude.{◌≡◌, ℕ, ◌<◌, List};
ghost use Rattle.std.specs.Iterator.{IsFinite};
ghost use Rattle.evaluation.specs.Pass.{step};
ghost use Rattle.evaluation.specs.Told.{lows, highs};
ghost use Rattle.evaluation.specs.Passes.{near, Along, Passed};

use crate::ends::Ends;
use crate::ring::Ring;
use scale::Scale;

/// The bounds of a node, in ticks.
#[derive(Clone, Copy)]
pub(crate) struct Bounds {
    pub low: u16,
    pub high: u16,
}

impl Bounds {
    /// Whether positions that are so many ticks apart are within the bounds.
    pub(crate) fn contain(self, gap: u64) -> bool
        ensures { result ≡ near self.low self.high gap }
    {
        (u64::from(self.low)..=u64::from(self.high)).contains(&gap)
    }
}

/// What a pass has seen so far.
#[derive(Clone, Copy)]
pub(crate) struct Seen<S> {
    /// The or, over the positions within the bounds, of the right operand with the left one at the positions before in the pass.
    pub found: Ends<S>,
    /// The and of the left operand.
    pub so_far: Ends<S>,
}

impl Ring<'_> {
    /// Passes over positions in turn, from position j on or back, up to the first that is further from it than the high bound.
    pub(crate) fn pass<S: Scale, I: Iterator<Item = usize> + Drop>(
        &self,
        right: &Ring,
        bounds: Bounds,
        j: usize,
        positions: I,
    ) -> Seen<S>
        ghost ks: { List ℕ }
        requires can { I.can_next positions }
        requires ends { IsFinite (I.remaining positions) }
        requires along { Along I.next_gives positions self.now.view.count ks }
        requires same { right.now.view ≡ self.now.view }
        requires j { j < self.now.view.count }
        ensures { Passed S.ops self.now right.now bounds.low bounds.high j ks result }
    {
        // `View::gap` written out, so that the stamp at j is read once.
        let here = self.view.stamp(j);
        let mut found = Ends::both(S::worst());
        let mut so_far = Ends::both(S::best());
        for k in positions {
            let gap = here.abs_diff(self.view.stamp(k));
            if gap > u64::from(bounds.high) {
                break;
            }
            let there = right.at(k);
            found = found.or(so_far.and(there).only_if(bounds.contain(gap)));
            so_far = so_far.and(self.at(k));
        }
        Seen { found, so_far }
    }
}
