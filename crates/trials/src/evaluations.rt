// The evaluation, run on worked examples.
use evaluation::{Cell, evaluate};
use refusal::Refusal;
use rule::{NodeRow, Rule};
use sample::SampleRow;
use scale::{Margin, PassFail, TestScale};

/// p and q, channels 0 and 1 at level 2048, and what stands over them as the last node.
fn nodes(kind: u8, low: u16, high: u16) -> [NodeRow; 3] {
    let second = if kind == 5 { 0 } else { 1 };
    [level(0), level(1), node(kind, 0, second, low, high)]
}

// A row has its kind as a number, as in a record.
fn node(kind: u8, first: u8, second: u8, low: u16, high: u16) -> NodeRow {
    NodeRow {
        kind,
        first,
        second,
        low,
        high,
    }
}

fn level(channel: u8) -> NodeRow {
    node(1, channel, 0, 2048, 0)
}

/// Wherever p is, q is within 3 ticks.
fn response() -> [NodeRow; 6] {
    [
        level(0),
        node(2, 0, 0, 0, 0),
        node(0, 0, 0, 0, 0),
        level(1),
        node(7, 2, 3, 0, 3),
        node(3, 1, 4, 0, 0),
    ]
}

fn sample(stamp: u64, p: u16, q: u16) -> SampleRow {
    SampleRow {
        stamp,
        codes: [p, q, 0, 0],
    }
}

/// What lies in lent memory before.
const UNTOUCHED: Cell = Cell { low: 7, high: 7 };

/// The two ends that the evaluation writes for the last node at a position, with as many places as samples.
fn ends<S: TestScale>(rows: &[NodeRow], samples: &[SampleRow], position: usize) -> Option<Cell> {
    let rule = Rule::from_rows(rows).ok()?;
    let places = samples.len();
    let mut cells = [UNTOUCHED; 24];
    evaluate::<S>(&rule, samples, &mut cells, 0, places, 0).ok()?;
    // By number, as docs/CALLS.md tells where a node's cells lie: that is tested too.
    let last = rows.len().checked_sub(1)?.checked_mul(places)?;
    cells.get(last.checked_add(position)?).copied()
}

fn cell(low: i64, high: i64) -> Option<Cell> {
    Some(Cell { low, high })
}

#[test]
fn worked_examples(rt: HostRuntime) {
    let capture = [
        sample(10, 3000, 0),
        sample(11, 3000, 100),
        sample(13, 0, 2100),
    ];
    let w = response();
    assert_eq!(rt;
        ends::<Margin>(&w, &capture[0..1], 0),
        cell(-1905, 8193),
        "one sample"
    );
    assert_eq!(rt;
        ends::<Margin>(&w, &capture, 0),
        cell(105, 105),
        "position 0"
    );
    assert_eq!(rt;
        ends::<Margin>(&w, &capture, 1),
        cell(105, 8193),
        "position 1"
    );
    assert_eq!(rt; ends::<PassFail>(&w, &capture, 1), cell(1, 1), "pass/fail");
    let next = [sample(5, 0, 0), sample(8, 3000, 0)];
    assert_eq!(rt;
        ends::<Margin>(&nodes(5, 0, 2), &next, 0),
        cell(-8193, -8193),
        "next late"
    );
    assert_eq!(rt;
        ends::<Margin>(&nodes(5, 0, 3), &next, 0),
        cell(1905, 1905),
        "next in time"
    );
}

#[test]
fn bounds_and_refusals(rt: HostRuntime) {
    let one = [sample(0, 0, 0)];
    assert_eq!(rt;
        ends::<Margin>(&nodes(7, 2, 5), &one, 0),
        cell(-8193, -4095),
        "until"
    );
    assert_eq!(rt;
        ends::<PassFail>(&nodes(7, 2, 5), &one, 0),
        cell(0, 0),
        "until fails"
    );
    let two = [sample(0, 0, 3000), sample(4, 3000, 0)];
    assert_eq!(rt;
        ends::<Margin>(&nodes(8, 0, 4), &two, 1),
        cell(1905, 1905),
        "since"
    );
    assert_eq!(rt;
        ends::<Margin>(&nodes(8, 0, 3), &two, 1),
        cell(-4095, -4095),
        "since late"
    );
    let rule = Rule::new();
    let mut cells = [UNTOUCHED];
    assert_eq!(rt;
        evaluate::<Margin>(&rule, &two, &mut cells, 0, 2, 0),
        Err(Refusal::Memory),
        "too few cells"
    );
    assert_eq!(rt;
        evaluate::<Margin>(&rule, &[], &mut cells, 0, 0, 0),
        Err(Refusal::Memory),
        "no place"
    );
    assert_eq!(rt;
        evaluate::<Margin>(&rule, &one, &mut cells, 0, 2, 0),
        Err(Refusal::Memory),
        "too few places"
    );
    assert_eq!(rt;
        evaluate::<Margin>(&rule, &one, &mut cells, u64::MAX, 1, 0),
        Err(Refusal::Memory),
        "too far"
    );
    assert_eq!(rt; cells, [UNTOUCHED], "as they were");
}
