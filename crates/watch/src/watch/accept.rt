// Accepting a sample, once nothing but its stamp can refuse it.
ghost use Rattle.std.specs.Prelude.{◌≡◌, true, false, length, Some, MatchResult, ◌==◌};
ghost use Rattle.refusal.specs.declared.Refusal.TheVariants.{Backward};
ghost use Rattle.strip.specs.Ring.{ring_of};
ghost use Rattle.watch.specs.Memory.{takes_later, watch_fits};
ghost use Rattle.watch.specs.Refreshed.{Accepting};

use crate::armed::Arming;
use crate::before::Before;
use crate::watch::Watch;
use evaluation::Cell;
use refusal::Refusal;
use sample::{Sample, SampleRow};
use scale::{Scale, TestScale};
use strip::Strip;

impl<S: TestScale> Watch<S> {
    /// Takes the sample into the strip, evaluates the rule anew, and answers how many positions it settled. Refused, with nothing
    /// changed, if its stamp is not later than the last.
    pub(super) fn accept(
        &self,
        arming: &Arming,
        strip: &mut Strip<'_, SampleRow>,
        cells: &mut [Cell],
        sample: Sample,
    ) -> Result<u64, Refusal>
        requires armed { self.now.arming ≡ Some arming.now }
        requires fits { watch_fits self.now (ring_of strip.old) (length cells.old) ≡ true }
        requires room { (self.now.held == arming.now.places) ≡ false }
        ensures same { strip.new.rows.ghost_name ≡ strip.old.rows.ghost_name }
        ensures answer { MatchResult result (Accepting S.Scale.ops S.TestScale.reading self.now arming.now (ring_of strip.old) (ring_of strip.new) cells.old cells.new sample.row) (λ why. (why ≡ Backward) × (takes_later (ring_of strip.old) sample.row.stamp ≡ false) × (ring_of strip.new ≡ ring_of strip.old) × (cells.new ≡ cells.old)) }
    {
        let before = Before {
            oldest: self.oldest(),
            accepted: self.accepted,
            taken: self.taken,
            newest: strip.last(),
        };
        strip.push(sample.row())?;
        Ok(arming.refresh::<S>(strip.rows(), cells, before))
    }
}
