// What several trials use. A table of cases is a text: the numbers of a case stand on a line, and what it is for after a `#`. Refusals and
// kinds are numbers there, as in the product's formats; `answer`, `ending` and `rows_of` turn them into values.
use refusal::{Fault, Misfit, Refusal};
use rule::{Node, NodeRow, Rule};
use sample::{Ending, Sample, SampleRow, Source};
use std::alloc::Global;
use std::process::Abort;
use std::test::Fail;

/// Every refusal but a fault, from number 1 on.
pub(crate) const REFUSALS: [Refusal; 19] = [
    Refusal::Cut,
    Refusal::Surplus,
    Refusal::Count,
    Refusal::Node,
    Refusal::Span,
    Refusal::Range,
    Refusal::Armed,
    Refusal::Memory,
    Refusal::Idle,
    Refusal::Full,
    Refusal::Dry,
    Refusal::Backward,
    Refusal::Unseen,
    Refusal::Gone,
    Refusal::Open,
    Refusal::Bare,
    Refusal::TrayFull,
    Refusal::TrayEmpty,
    Refusal::Pattern,
];

/// The line of a table has a case, and is not empty or a heading.
fn is_case(line: &&str) -> bool {
    !line.is_empty() && !line.starts_with('#')
}

/// The numbers on a line, up to its `#`.
pub(crate) fn numbers(heap: Global, line: &str) -> Result<Vec<u64>, Fail> {
    line.split_whitespace()
        .take_while(|word| *word != "#")
        .map(|word| -> Result<u64, Fail> { Ok(word.parse::<u64>()?) })
        .try_collect(heap)
}

/// Checks each case of a table: the numbers on its line, and the line, which names it.
pub(crate) fn each_case<F: FnMut(&[u64], &str) -> Result<(), Fail>>(
    heap: Global,
    table: &str,
    mut check: F,
) -> Result<(), Fail>
    requires { F.IsAlwaysCallable check }
{
    for line in table.lines().filter(is_case) {
        check(&numbers(heap, line)?, line)?;
    }
    Ok(())
}

/// The answer of a case: what is given where its number is 0, and else the refusal of this number.
pub(crate) fn answer<T: Drop>(number: u64, given: T) -> Result<Result<T, Refusal>, Fail> {
    let Some(before) = number.checked_sub(1) else {
        return Ok(Ok(given));
    };
    let Some(refusal) = REFUSALS.get(usize::try_from(before)?) else {
        return Err(Fail::new("no refusal has this number"));
    };
    Ok(Err(*refusal))
}

/// The answer of a case of three numbers: what is given where the first is 0, and else the refusal of that number at the place that is
/// the second; the third is 0 then.
pub(crate) fn answer_at<T: Drop>(numbers: [u64; 3], given: T) -> Result<Result<T, Misfit>, Fail> {
    let [number, place, third] = numbers;
    match answer(number, given)? {
        Ok(given) => Ok(Ok(given)),
        Err(refusal) if third == 0 => Ok(Err(Misfit { refusal, place })),
        Err(_) => Err(Fail::new("a refusal with a third number")),
    }
}

/// The row of a node: kind, first, second, low and high.
fn node_row(figures: &[u64; 5]) -> Result<NodeRow, Fail> {
    let [kind, first, second, low, high] = *figures;
    Ok(NodeRow {
        kind: u8::try_from(kind)?,
        first: u8::try_from(first)?,
        second: u8::try_from(second)?,
        low: u16::try_from(low)?,
        high: u16::try_from(high)?,
    })
}

/// The rows of nodes, from five numbers for each.
pub(crate) fn rows_of(heap: Global, figures: &[u64]) -> Result<Vec<NodeRow>, Fail> {
    fives(figures)?.iter().map(node_row).try_collect(heap)
}

/// The numbers five by five, with none left over.
fn fives(figures: &[u64]) -> Result<&[[u64; 5]], Fail> {
    match figures.as_chunks() {
        (fives, []) => Ok(fives),
        _ => Err(Fail::new("numbers that are not five by five")),
    }
}

/// The row that a node's kind is written as: written out here by hand, since it tests `Node::row`.
fn written(node: Node) -> NodeRow {
    let (kind, first, second, low, high) = match node {
        Node::True => (0, 0, 0, 0, 0),
        Node::Level { channel, level } => (1, channel, 0, level.value(), 0),
        Node::Not { first } => (2, first, 0, 0, 0),
        Node::Or { first, second } => (3, first, second, 0, 0),
        Node::And { first, second } => (4, first, second, 0, 0),
        Node::Next { first, low, high } => (5, first, 0, low, high),
        Node::Yesterday { first, low, high } => (6, first, 0, low, high),
        Node::Until {
            first,
            second,
            low,
            high,
        } => (7, first, second, low, high),
        Node::Since {
            first,
            second,
            low,
            high,
        } => (8, first, second, low, high),
    };
    NodeRow {
        kind,
        first,
        second,
        low,
        high,
    }
}

/// The nodes of the rule are written as these rows, and have them.
pub(crate) fn check_nodes(rt: &impl Abort, rule: &Rule, expected: &[NodeRow], line: &str) {
    assert_eq!(rt; rule.nodes().len(), expected.len(), "{}", line);
    for (node, row) in rule.nodes().iter().zip(expected) {
        assert_eq!(rt; (written(*node), node.row()), (*row, *row), "{}", line);
    }
}

/// The row of a sample: its stamp and four codes.
pub(crate) fn sample_row(figures: &[u64; 5]) -> Result<SampleRow, Fail> {
    let [stamp, a, b, c, d] = *figures;
    Ok(SampleRow {
        stamp,
        codes: [
            u16::try_from(a)?,
            u16::try_from(b)?,
            u16::try_from(c)?,
            u16::try_from(d)?,
        ],
    })
}

/// Stamp and codes, as the sample's calls tell them.
pub(crate) fn told(sample: Sample) -> SampleRow {
    SampleRow {
        stamp: sample.stamp(),
        codes: sample.codes(),
    }
}

/// How a source ends: dry if the number is 11, and else in a fault of this number and place.
pub(crate) fn ending(number: u64, place: u64) -> Result<Ending, Fail> {
    if number == 11 && place == 0 {
        return Ok(Ending::Dry);
    }
    let number = u32::try_from(number)?;
    Ok(Ending::Fault(Fault { number, place }))
}

/// The source gives these samples, five numbers for each, and each of them twice when it is asked twice; then it ends so, and stays there
/// when it is told to go on.
pub(crate) fn check_source<S: Source>(
    rt: &impl Abort,
    source: &mut S,
    samples: &[u64],
    ending: Ending,
    line: &str,
) -> Result<(), Fail> {
    for figures in fives(samples)? {
        let row = sample_row(figures)?;
        for _ in 0..2 {
            assert_eq!(rt; source.peek().map(told), Ok(row), "{}", line);
        }
        source.step();
    }
    for _ in 0..3 {
        assert_eq!(rt; source.peek(), Err(ending), "{}", line);
        source.step();
    }
    Ok(())
}

/// One small record: a pulse on channel 0 is answered on channel 1 within three ticks. The count of nodes, six nodes, the count of
/// samples, and four samples from byte 47 on.
pub(crate) const RESPONSE: &[u8; 111] = b"\
    \x06\
    \x01\x00\x00\x00\x08\x00\x00\
    \x02\x00\x00\x00\x00\x00\x00\
    \x00\x00\x00\x00\x00\x00\x00\
    \x01\x01\x00\x00\x08\x00\x00\
    \x07\x02\x03\x00\x00\x03\x00\
    \x03\x01\x04\x00\x00\x00\x00\
    \x04\x00\x00\x00\
    \x0a\x00\x00\x00\x00\x00\x00\x00\xb8\x0b\x00\x00\x00\x00\x00\x00\
    \x0b\x00\x00\x00\x00\x00\x00\x00\xb8\x0b\x64\x00\x00\x00\x00\x00\
    \x0d\x00\x00\x00\x00\x00\x00\x00\x00\x00\x34\x08\x00\x00\x00\x00\
    \x0e\x00\x00\x00\x00\x00\x00\x00\x00\x00\x00\x00\x00\x00\x00\x00";

/// Those bytes with one of them replaced.
pub(crate) fn damaged(place: u64, value: u8) -> Result<[u8; 111], Fail> {
    let mut bytes = *RESPONSE;
    let Some(byte) = bytes.get_mut(usize::try_from(place)?) else {
        return Err(Fail::new("no byte at this place"));
    };
    *byte = value;
    Ok(bytes)
}
