// What draw, look, alarm and take test first.
ghost use Rattle.std.specs.Prelude.{◌≡◌, true, length, Some, Err, MatchResult};
ghost use Rattle.strip.specs.Ring.{ring_of};
ghost use Rattle.watch.specs.Memory.{watch_fits};
ghost use Rattle.watch.specs.Ready.{readiness};

use crate::armed::Arming;
use crate::watch::Watch;
use evaluation::Cell;
use refusal::Refusal;
use sample::SampleRow;
use scale::{Scale, TestScale};
use strip::Strip;

impl<S: TestScale> Watch<S> {
    /// What the watch is armed with. Refused where it is idle, then where memory does not fit: strip and cells must have the lengths of
    /// arming, and the strip the watch's counts.
    pub(super) fn ready(
        &self,
        strip: &Strip<'_, SampleRow>,
        cells: &[Cell],
    ) -> Result<&Arming, Refusal>
        ensures { MatchResult result (λ arming. (self.now.arming ≡ Some arming.now) × (watch_fits self.now (ring_of strip.now) (length cells.now) ≡ true)) (λ why. readiness self.now (ring_of strip.now) (length cells.now) ≡ Err why) }
    {
        let Some(arming) = &self.arming else {
            return Err(Refusal::Idle);
        };
        if !arming.fits(strip, cells)
            || strip.taken() != self.accepted
            || strip.kept() != self.held
        {
            return Err(Refusal::Memory);
        }
        Ok(arming)
    }
}
