ghost use Rattle.std.specs.Prelude.{◌≡◌, ◌<◌, length, slice_set};
ghost use Rattle.strip.specs.Ring.{ring_of};
ghost use Rattle.watch.specs.Memory.{memory};
ghost use Rattle.replay.specs.Replayed.{Replayed};

use crate::serve::{said, serve};
use evaluation::Cell;
use refusal::Refusal;
use sample::{SampleRow, Source};
use scale::{Scale, TestScale};
use strip::{Strip, Tray};
use watch::Watch;
use world::{Answer, Call};

/// Stores a value in a place. A loop over `iter_mut` beside the calls does not say what it wrote, and `answers[i] = ..` asks for the size
/// of an enum over an open type, which nothing gives; this function is over any type.
fn store<T: Copy>(places: &mut [T], place: usize, value: T)
    requires { place < length places.old }
    ensures { places.new ≡ slice_set places.old place value }
{
    places[place] = value;
}

/// Makes the calls in order and stores each whole answer; answers past the calls stay. Refused as memory, with nothing changed, if
/// there are fewer places for answers than calls.
pub fn replay<S: TestScale, Q: Source>(
    watch: &mut Watch<S>,
    strip: &mut Strip<'_, SampleRow>,
    cells: &mut [Cell],
    tray: &mut Tray<'_>,
    source: &mut Q,
    calls: &[Call],
    answers: &mut [Answer<S>],
) -> Result<(), Refusal>
    ensures strip_same { strip.new.rows.ghost_name ≡ strip.old.rows.ghost_name }
    ensures tray_same { tray.new.rows.ghost_name ≡ tray.old.rows.ghost_name }
    ensures run { Replayed S.Scale.ops S.TestScale.reading calls.now (memory watch.old (ring_of strip.old) cells.old (ring_of tray.old) (Q.Source.meaning source.old)) (memory watch.new (ring_of strip.new) cells.new (ring_of tray.new) (Q.Source.meaning source.new)) answers.old answers.new result }
{
    if answers.len() < calls.len() {
        return Err(Refusal::Memory);
    }
    for (i, call) in calls.iter().enumerate() {
        let answer = serve(watch, strip, cells, tray, source, *call);
        store(answers, i, said(answer));
    }
    Ok(())
}
