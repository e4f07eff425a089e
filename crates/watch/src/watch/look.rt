// What changes nothing: look and alarm; and pull, which changes the tray alone.
ghost use Rattle.std.specs.Prelude.{◌≡◌, List, length};
ghost use Rattle.evaluation.specs.declared.memory.Cell.{Cell as AnyCell};
ghost use Rattle.sample.specs.Coming.{Coming};
ghost use Rattle.sample.specs.declared.row.SampleRow.{SampleRow as AnyRow};
ghost use Rattle.strip.specs.Ring.{Ring, ring_of};
ghost use Rattle.strip.specs.declared.reading.ReadingRow.{ReadingRow as AnyReading};
ghost use Rattle.world.specs.declared.call.Call.TheVariants.{Look, Alarm, Pull};
ghost use Rattle.watch.specs.Calls.{Promise, look_said, alarm_said, pull_said};
ghost use Rattle.watch.specs.Memory.{memory};

use crate::places::{ends, stamp_at};
use crate::watch::Watch;
use evaluation::Cell;
use refusal::Refusal;
use sample::SampleRow;
use scale::{Scale, TestScale};
use strip::{Stamped, Strip, Tray};
use world::{Reading, Shown};

impl<S: TestScale> Watch<S> {
    /// The two ends at a held position: the bounds between which the rule's true value is known to lie.
    pub fn look(
        &self,
        strip: &Strip<'_, SampleRow>,
        cells: &[Cell],
        position: u64,
    ) -> Result<Shown<S>, Refusal>
        ensures { (tray : Ring AnyReading) (coming : Coming) → Promise S.Scale.ops S.TestScale.reading (Look position) (memory self.now (ring_of strip.now) cells.now tray coming) (memory self.now (ring_of strip.now) cells.now tray coming) (look_said result) }
    {
        let arming = self.ready(strip, cells)?;
        if position >= self.accepted {
            return Err(Refusal::Unseen);
        }
        if position < self.oldest() {
            return Err(Refusal::Gone);
        }
        Ok(ends(arming.cell(cells, position)))
    }

    /// The first untaken position whose upper bound fails, with its stamp; `None` if there is none.
    pub fn alarm(
        &self,
        strip: &Strip<'_, SampleRow>,
        cells: &[Cell],
    ) -> Result<Option<(u64, u64)>, Refusal>
        ensures { (tray : Ring AnyReading) (coming : Coming) → Promise S.Scale.ops S.TestScale.reading Alarm (memory self.now (ring_of strip.now) cells.now tray coming) (memory self.now (ring_of strip.now) cells.now tray coming) (alarm_said result) }
    {
        let arming = self.ready(strip, cells)?;
        let last_cells = arming.last_cells(cells);
        let failing = last_cells.first_failing::<S>(self.taken, self.accepted);
        let rows = strip.rows();
        Ok(failing.map(|position| (position, stamp_at(rows, position))))
    }

    /// Hands over the oldest reading on the tray, which then is gone from there.
    pub fn pull(&self, tray: &mut Tray<'_>) -> Result<Reading<S>, Refusal>
        ensures same { tray.new.rows.ghost_name ≡ tray.old.rows.ghost_name }
        ensures call { (strip : Ring AnyRow) (cells : List AnyCell) (coming : Coming) → Promise S.Scale.ops S.TestScale.reading Pull (memory self.now strip cells (ring_of tray.old) coming) (memory self.now strip cells (ring_of tray.new) coming) (pull_said result) }
    {
        let row = tray.remove()?;
        Ok(Reading {
            position: row.position,
            stamp: row.stamp(),
            value: S::restored(row.value),
        })
    }
}
