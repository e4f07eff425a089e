ghost use Rattle.std.specs.Prelude.{◌≡◌, false, Some, Ok, MatchResult, ◌==◌};
ghost use Rattle.sample.specs.Coming.{first};
ghost use Rattle.strip.specs.Ring.{Ring, ring_of};
ghost use Rattle.strip.specs.declared.reading.ReadingRow.{ReadingRow};
ghost use Rattle.world.specs.declared.call.Call.TheVariants.{Draw};
ghost use Rattle.watch.specs.Calls.{Promise, draw_said};
ghost use Rattle.watch.specs.Memory.{memory};
ghost use Rattle.watch.specs.Refreshed.{sample_refusal};

use crate::armed::Arming;
use crate::watch::Watch;
use evaluation::Cell;
use refusal::Refusal;
use sample::{Sample, SampleRow, Source};
use scale::{Scale, TestScale};
use strip::Strip;
use world::{Drawn, Refused};

impl<S: TestScale> Watch<S> {
    /// The sample that a draw would accept, if nothing but its stamp refuses it.
    fn next_sample<Q: Source>(&self, arming: &Arming, source: &mut Q) -> Result<Sample, Refused>
        ensures same { Q.Source.meaning source.new ≡ Q.Source.meaning source.old }
        ensures answer { MatchResult result (λ sample. ((self.now.held == arming.now.places) ≡ false) × (first (Q.Source.meaning source.old) ≡ Ok sample.row)) (λ why. sample_refusal (self.now.held == arming.now.places) (Q.Source.meaning source.old) ≡ Some why) }
    {
        if self.held == arming.places {
            return Err(Refusal::Full.into());
        }
        Ok(source.peek()?)
    }

    /// Moves the source's next sample into the capture. Answers its position, and how many untaken positions it settled, itself among
    /// them.
    pub fn draw<Q: Source>(
        &mut self,
        strip: &mut Strip<'_, SampleRow>,
        cells: &mut [Cell],
        source: &mut Q,
    ) -> Result<Drawn, Refused>
        ensures same { strip.new.rows.ghost_name ≡ strip.old.rows.ghost_name }
        ensures call { (tray : Ring ReadingRow) → Promise S.Scale.ops S.TestScale.reading Draw (memory self.old (ring_of strip.old) cells.old tray (Q.Source.meaning source.old)) (memory self.new (ring_of strip.new) cells.new tray (Q.Source.meaning source.new)) (draw_said result) }
    {
        let arming = self.ready(strip, cells)?;
        let sample = self.next_sample(arming, source)?;
        let settled = self.accept(arming, strip, cells, sample)?;
        let span = arming.rule.span();
        let position = self.accepted;
        self.accepted += 1;
        self.held += 1;
        self.let_go(strip, span);
        source.step();
        Ok(Drawn { position, settled })
    }
}
