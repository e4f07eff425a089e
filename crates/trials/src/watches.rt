// The watch, run on the small record: a pulse on channel 0 is answered on channel 1 within three ticks, or it is not.
use crate::helpers::RESPONSE;
use evaluation::Cell;
use record::{RecordSource, open};
use refusal::Refusal;
use replay::replay;
use rule::Rule;
use sample::SampleRow;
use scale::{Margin, PassFail};
use std::test::Fail;
use strip::{ReadingRow, Strip};
use watch::{Tally, Watch};
use world::{Answer, By, Call, Drawn, Reading, Refused, Shown};

/// What lies in lent memory before a watch is armed does not matter.
const SAMPLE: SampleRow = SampleRow {
    stamp: 77,
    codes: [7, 7, 7, 7],
};

const CELL: Cell = Cell { low: 7, high: 7 };

const READING: ReadingRow = ReadingRow {
    position: 7,
    stamp: 77,
    value: 7,
};

fn drew<S>(position: u64, settled: u64) -> Answer<S> {
    Answer::Drew(Drawn { position, settled })
}

fn pulled<S>(position: u64, stamp: u64, value: S) -> Answer<S> {
    Answer::Pulled(Reading {
        position,
        stamp,
        value,
    })
}

/// The source has ended.
const DRY: Refused = Refused {
    by: By::Source,
    refusal: Refusal::Dry,
};

fn refused(refusal: Refusal) -> Answer<PassFail> {
    Answer::Refused(Refused {
        by: By::Watch,
        refusal,
    })
}

// Both tests lend memory of their own: a strip borrows the rows that it lies in, so no function can hand out both.

/// After each of four draws, all that is settled is taken and pulled: how many positions the draw settled, and what was pulled.
#[test]
fn readings(rt: HostRuntime) -> Result<(), Fail> {
    let mut rule = Rule::new();
    assert!(rt; open(RESPONSE, &mut rule).is_ok());
    let mut source = RecordSource::new(RESPONSE, 47);
    let mut samples = [SAMPLE; 5];
    let mut strip = Strip::new(&mut samples);
    let mut places = [READING; 1];
    let mut tray = Strip::new(&mut places);
    let mut cells = [CELL; 30];
    let mut watch: Watch<Margin> = Watch::new();
    assert!(rt; watch.arm(&rule, &strip, &cells).is_ok());
    let mut told = Vec::new(rt.alloc());
    for _ in 0..4 {
        if let Ok(drawn) = watch.draw(&mut strip, &mut cells, &mut source) {
            told.push(drew(drawn.position, drawn.settled))?;
        }
        for _ in 0..5 {
            if watch.take(&mut strip, &cells, &mut tray).is_err() {
                break;
            }
            if let Ok(reading) = watch.pull(&mut tray) {
                told.push(pulled(reading.position, reading.stamp, reading.value.value()))?;
            }
        }
    }
    let expected = [
        drew(0, 0),
        drew(1, 0),
        drew(2, 1),
        pulled(0, 10, 105),
        drew(3, 1),
        pulled(1, 11, 105),
    ];
    assert_eq!(rt; told.as_slice(), expected.as_slice());
    let dry = watch.draw(&mut strip, &mut cells, &mut source);
    assert_eq!(rt; dry, Err(DRY));
    let tally = Tally {
        accepted: 4,
        taken: 2,
        untaken: 2,
    };
    assert_eq!(rt; watch.stop().tally(), tally);
    Ok(())
}

/// The same record on pass/fail, by replay, with a refusal of most kinds on the way.
#[test]
fn replays(rt: HostRuntime) {
    let mut rule = Rule::new();
    assert!(rt; open(RESPONSE, &mut rule).is_ok());
    let mut source = RecordSource::new(RESPONSE, 47);
    let mut samples = [SAMPLE; 5];
    let mut strip = Strip::new(&mut samples);
    let mut places = [READING; 1];
    let mut tray = Strip::new(&mut places);
    let mut cells = [CELL; 30];
    let mut watch: Watch<PassFail> = Watch::new();
    let open_yet = Shown {
        low: PassFail::Fail,
        high: PassFail::Pass,
    };
    let steps = [
        (Call::Draw, refused(Refusal::Idle)),
        (Call::Arm(rule), Answer::Armed),
        (Call::Arm(rule), refused(Refusal::Armed)),
        (Call::Take, refused(Refusal::Bare)),
        (Call::Draw, drew(0, 0)),
        (Call::Look(1), refused(Refusal::Unseen)),
        (Call::Look(0), Answer::Showed(open_yet)),
        (Call::Take, refused(Refusal::Open)),
        (Call::Draw, drew(1, 0)),
        (Call::Draw, drew(2, 3)),
        (Call::Alarm, Answer::Alarmed(None)),
        (Call::Take, Answer::Took(0)),
        (Call::Look(0), refused(Refusal::Gone)),
        (Call::Pull, pulled(0, 10, PassFail::Pass)),
        (Call::Pull, refused(Refusal::TrayEmpty)),
        (Call::Take, Answer::Took(1)),
        (Call::Take, refused(Refusal::TrayFull)),
        (Call::Pull, pulled(1, 11, PassFail::Pass)),
        (Call::Draw, drew(3, 1)),
        (Call::Draw, Answer::Refused(DRY)),
    ];
    let calls = steps.map(|(call, _)| call);
    let mut answers = [Answer::Took(99); 21];
    let few = replay(
        &mut watch,
        &mut strip,
        &mut cells,
        &mut tray,
        &mut source,
        &calls,
        &mut answers[..19],
    );
    assert_eq!(rt; few, Err(Refusal::Memory), "too few places for answers");
    let done = replay(
        &mut watch,
        &mut strip,
        &mut cells,
        &mut tray,
        &mut source,
        &calls,
        &mut answers,
    );
    assert_eq!(rt; done, Ok(()));
    for (answer, (_, expected)) in answers.iter().zip(&steps) {
        assert_eq!(rt; answer, expected);
    }
    assert_eq!(rt; answers[20], Answer::Took(99), "past the calls");
}
