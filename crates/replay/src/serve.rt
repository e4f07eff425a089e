ghost use Rattle.std.specs.Prelude.{◌≡◌};
ghost use Rattle.strip.specs.Ring.{ring_of};
ghost use Rattle.watch.specs.Calls.{Promise};
ghost use Rattle.watch.specs.Memory.{memory};
ghost use Rattle.replay.specs.Replayed.{said};

use evaluation::Cell;
use sample::{SampleRow, Source};
use scale::{Scale, TestScale};
use strip::{Strip, Tray};
use watch::Watch;
use world::{Answer, Call, Refused};

/// Makes one call: what it answers where it is accepted, or the refusal, with whose it is. What is lent stays apart, as in the calls of a
/// watch: a struct of five `&mut` would need a clause for each, that it is still the one that was lent.
pub(crate) fn serve<S: TestScale, Q: Source>(
    watch: &mut Watch<S>,
    strip: &mut Strip<'_, SampleRow>,
    cells: &mut [Cell],
    tray: &mut Tray<'_>,
    source: &mut Q,
    call: Call,
) -> Result<Answer<S>, Refused>
    ensures strip_same { strip.new.rows.ghost_name ≡ strip.old.rows.ghost_name }
    ensures tray_same { tray.new.rows.ghost_name ≡ tray.old.rows.ghost_name }
    ensures keeps { Promise S.Scale.ops S.TestScale.reading call (memory watch.old (ring_of strip.old) cells.old (ring_of tray.old) (Q.Source.meaning source.old)) (memory watch.new (ring_of strip.new) cells.new (ring_of tray.new) (Q.Source.meaning source.new)) (said result) }
{
    match call {
        Call::Arm(rule) => {
            watch.arm(&rule, strip, cells)?;
            Ok(Answer::Armed)
        }
        Call::Draw => Ok(Answer::Drew(watch.draw(strip, cells, source)?)),
        Call::Look(position) => Ok(Answer::Showed(watch.look(strip, cells, position)?)),
        Call::Alarm => Ok(Answer::Alarmed(watch.alarm(strip, cells)?)),
        Call::Take => Ok(Answer::Took(watch.take(strip, cells, tray)?)),
        Call::Pull => Ok(Answer::Pulled(watch.pull(tray)?)),
    }
}

/// The whole answer to a call. It is a `match`, since the check does not yet cover `unwrap_or_else(Answer::Refused)`, a function whose
/// answer names a type that its argument does not.
pub(crate) fn said<S: Copy>(answer: Result<Answer<S>, Refused>) -> Answer<S>
    ensures { result ≡ said answer }
{
    match answer {
        Ok(answer) => answer,
        Err(why) => Answer::Refused(why),
    }
}
