ghost use Rattle.std.specs.Prelude.{◌≡◌, true, length, Some, MatchResult};
ghost use Rattle.sample.specs.Coming.{Coming};
ghost use Rattle.strip.specs.Ring.{Ring, ring_of};
ghost use Rattle.strip.specs.declared.reading.ReadingRow.{ReadingRow as AnyReading};
ghost use Rattle.world.specs.Tests.{call_refusal, watch_refuses};
ghost use Rattle.world.specs.declared.call.Call.TheVariants.{Take};
ghost use Rattle.watch.specs.Calls.{Promise, take_said, taken_row};
ghost use Rattle.watch.specs.Memory.{memory, facts_of, watch_fits};
ghost use Rattle.watch.specs.Refreshed.{Takable};

use crate::armed::Arming;
use crate::places::{is_settled, stamp_at};
use crate::watch::Watch;
use evaluation::Cell;
use refusal::Refusal;
use sample::SampleRow;
use scale::{Scale, TestScale};
use strip::{ReadingRow, Strip, Tray};

impl<S: TestScale> Watch<S> {
    /// The row that a take would put on the tray, if nothing but the tray refuses it.
    fn next_reading(
        &self,
        arming: &Arming,
        strip: &Strip<'_, SampleRow>,
        cells: &[Cell],
    ) -> Result<ReadingRow, Refusal>
        requires armed { self.now.arming ≡ Some arming.now }
        requires fits { watch_fits self.now (ring_of strip.now) (length cells.now) ≡ true }
        ensures { MatchResult result (λ row. Takable S.Scale.ops self.now cells.now × ((tray : Ring AnyReading) (coming : Coming) → row ≡ taken_row S.Scale.ops (memory self.now (ring_of strip.now) cells.now tray coming))) (λ why. (tray : Ring AnyReading) (coming : Coming) → call_refusal Take (facts_of S.Scale.ops Take (memory self.now (ring_of strip.now) cells.now tray coming)) ≡ Some (watch_refuses why)) }
    {
        if self.taken == self.accepted {
            return Err(Refusal::Bare);
        }
        let cell = arming.cell(cells, self.taken);
        if !is_settled::<S>(cell) {
            return Err(Refusal::Open);
        }
        Ok(ReadingRow {
            position: self.taken,
            stamp: stamp_at(strip.rows(), self.taken),
            value: S::restored(cell.low).kept(),
        })
    }

    /// Finishes the oldest untaken position: its reading goes on the tray, its number is the answer.
    pub fn take(
        &mut self,
        strip: &mut Strip<'_, SampleRow>,
        cells: &[Cell],
        tray: &mut Tray<'_>,
    ) -> Result<u64, Refusal>
        ensures strip_same { strip.new.rows.ghost_name ≡ strip.old.rows.ghost_name }
        ensures tray_same { tray.new.rows.ghost_name ≡ tray.old.rows.ghost_name }
        ensures call { (coming : Coming) → Promise S.Scale.ops S.TestScale.reading Take (memory self.old (ring_of strip.old) cells.now (ring_of tray.old) coming) (memory self.new (ring_of strip.new) cells.now (ring_of tray.new) coming) (take_said result) }
    {
        let arming = self.ready(strip, cells)?;
        let row = self.next_reading(arming, strip, cells)?;
        let span = arming.rule.span();
        tray.push(row)?;
        let position = self.taken;
        self.taken += 1;
        self.let_go(strip, span);
        Ok(position)
    }
}
