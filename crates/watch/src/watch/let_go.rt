// How a draw and a take end. Each call that changes a strip or a tray says (`same`) that it still lies in the memory that was lent.
ghost use Rattle.std.specs.Prelude.{◌≡◌, ◌<◌, ◌≤◌, length};
ghost use Rattle.rule.specs.Limits.{largest_span};
ghost use Rattle.strip.specs.Ring.{ring_of};
ghost use Rattle.watch.specs.Refreshed.{LetGo};
ghost use Rattle.watch.specs.Memory.{oldest_held};

use crate::places::Places;
use crate::watch::Watch;
use sample::SampleRow;
use scale::TestScale;
use strip::Strip;

impl<S: TestScale> Watch<S> {
    /// The oldest position that is held.
    pub(super) fn oldest(&self) -> u64
        ensures { result ≡ oldest_held self.now }
    {
        self.accepted - self.held as u64
    }

    /// Lets the oldest held positions go, up to the first that is untaken or whose stamp and the span are after the newest.
    pub(super) fn let_go(&mut self, strip: &mut Strip<'_, SampleRow>, span: u64)
        requires some { 0 < length strip.old.rows.now }
        requires near { span ≤ largest_span }
        ensures same { strip.new.rows.ghost_name ≡ strip.old.rows.ghost_name }
        ensures done { LetGo self.old self.new (ring_of strip.old) (ring_of strip.new) span }
    {
        let samples = Places::over(strip.rows());
        let oldest = samples.first_later(self.oldest(), self.taken, strip.last(), span);
        self.held = (self.accepted - oldest) as usize;
        strip.keep_newest(self.held);
    }
}
