// A new watch, arming it, and stopping it.
ghost use Rattle.std.specs.Prelude.{◌≡◌, ◌-◌, List, length};
ghost use Rattle.rule.specs.Made.{nodes_of};
ghost use Rattle.evaluation.specs.declared.memory.Cell.{Cell as AnyCell};
ghost use Rattle.sample.specs.Coming.{Coming};
ghost use Rattle.sample.specs.declared.row.SampleRow.{SampleRow as AnyRow};
ghost use Rattle.strip.specs.Ring.{Ring, ring_of};
ghost use Rattle.strip.specs.declared.reading.ReadingRow.{ReadingRow};
ghost use Rattle.world.specs.Steps.{accepted};
ghost use Rattle.world.specs.Tests.{arm_fits};
ghost use Rattle.world.specs.World.{World};
ghost use Rattle.world.specs.declared.call.Call.TheVariants.{Arm};
ghost use Rattle.watch.specs.Calls.{Promise, arm_said};
ghost use Rattle.watch.specs.Memory.{memory};
ghost use Rattle.watch.specs.Stands.{Stands, Unused};

use crate::armed::Arming;
use crate::armed::memory::can_arm;
use crate::stopped::{Stopped, Tally};
use crate::watch::Watch;
use evaluation::Cell;
use refusal::Refusal;
use rule::Rule;
use sample::SampleRow;
use scale::{Scale, TestScale};
use std::marker::PhantomData;
use strip::Strip;

impl<S: TestScale> Watch<S> {
    /// A watch that was never armed.
    pub fn new() -> Watch<S>
        ensures { (strip : Ring AnyRow) (cells : List AnyCell) (tray : Ring ReadingRow) (coming : Coming) → strip.taken ≡ 0 → tray.taken ≡ 0 → Unused (memory result strip cells tray coming) }
    {
        Watch {
            arming: None,
            accepted: 0,
            taken: 0,
            held: 0,
            scale: PhantomData,
        }
    }

    /// Gives the watch its rule, and C, the places of the strip. Strip and cells stay as they are.
    pub fn arm(
        &mut self,
        rule: &Rule,
        strip: &Strip<'_, SampleRow>,
        cells: &[Cell],
    ) -> Result<(), Refusal>
        ensures { (tray : Ring ReadingRow) (coming : Coming) → Promise S.Scale.ops S.TestScale.reading (Arm rule.now) (memory self.old (ring_of strip.now) cells.now tray coming) (memory self.new (ring_of strip.now) cells.now tray coming) (arm_said result) }
    {
        if self.arming.is_some() {
            return Err(Refusal::Armed);
        }
        if !can_arm(rule, strip, cells) {
            return Err(Refusal::Memory);
        }
        self.arming = Some(Arming {
            rule: *rule,
            places: strip.places(),
        });
        Ok(())
    }

    /// Stops the watch, and gives its tally: in every world that the watch stands for, how many samples were accepted, and how many
    /// positions were taken and not.
    pub fn stop(self) -> Stopped
        ensures tally { result.tally ≡ record { accepted = self.accepted; taken = self.taken; untaken = self.accepted - self.taken } }
        ensures standing { (strip : Ring AnyRow) (cells : List AnyCell) (tray : Ring ReadingRow) (coming : Coming) (w : World S) → Stands S.Scale.ops S.TestScale.reading w (memory self strip cells tray coming) → result.tally ≡ record { accepted = accepted w; taken = w.taken; untaken = accepted w - w.taken } }
    {
        Stopped {
            tally: Tally {
                accepted: self.accepted,
                taken: self.taken,
                untaken: self.accepted - self.taken,
            },
        }
    }
}
