// Opening records: each test, its place, and the order of the tests; and one small record, cut and damaged everywhere.
use crate::helpers::{RESPONSE, answer_at, check_nodes, damaged, each_case, numbers, rows_of};
use record::{Opened, comriep_record_number, comriep_record_place, open};
use rule::{NodeRow, Rule};
use std::alloc::Global;
use std::process::Abort;
use std::test::Fail;

/// The nodes of another rule, which looks five ticks ahead.
const BEFORE: [NodeRow; 2] = [
    NodeRow {
        kind: 1,
        first: 2,
        second: 0,
        low: 7,
        high: 0,
    },
    NodeRow {
        kind: 5,
        first: 0,
        second: 0,
        low: 1,
        high: 5,
    },
];

/// Opens the record over another rule, and answers the rule that is there after. What is expected: the answer, of a record 0, its samples
/// and their place, of a refusal its number, its place and 0; then how many nodes the rule has, and its wait. Refused, that is the other
/// rule. The two functions that answer number and place alone agree.
fn check_opening(
    rt: &impl Abort,
    bytes: &[u8],
    expected: &[u64; 5],
    line: &str,
) -> Result<Rule, Fail> {
    let [number, second, third, nodes, wait] = *expected;
    let opened = Opened {
        samples: u32::try_from(second)?,
        start: usize::try_from(third)?,
    };
    let place = if number == 0 { 0 } else { second };
    let expected = answer_at([number, second, third], opened)?;
    let mut rule = Rule::from_rows(&BEFORE)?;
    assert_eq!(rt; open(bytes, &mut rule), expected, "{}", line);
    assert_eq!(rt;
        (rule.nodes().len() as u64, rule.wait()),
        (nodes, wait),
        "{}",
        line
    );
    let told = (
        u64::from(comriep_record_number(bytes)),
        comriep_record_place(bytes),
    );
    assert_eq!(rt; told, (number, place), "{}", line);
    if expected.is_err() {
        check_nodes(rt, &rule, &BEFORE, line);
    }
    Ok(rule)
}

/// The answer; the count of nodes and the wait of the rule that is there after; how many bytes of 0 follow; the bytes before them.
const RECORDS: &str = "
1 0 0   2 5   0   # no byte at all
# the count of nodes
3 0 0   2 5   0   0   # no node
3 0 0   2 5   0   0   0 0 0 0 0 0 0   0 0 0 0   # a count of no node, and one
3 0 0   2 5   0   33   # 33 nodes, and none of them
3 0 0   2 5   0   255   9 0 0 0 0 0 0   # 255 nodes
# the length of their section
1 1 0   2 5   0   1   # no byte of one node
1 1 0   2 5   0   1   9 9 9 9 9 9   # six bytes of one node, which is bad
1 1 0   2 5   0   32   # no byte of 32 nodes
1 1 0   2 5   0   2   9 0 0 0 0 0 0   0 0 0 0 0 0   # 13 bytes of two nodes, of which one is bad
# each node
4 1 0   2 5   0   1   9 0 0 0 0 0 0   0 0 0 0   # one node, bad
4 1 0   2 5   0   1   9 0 0 0 0 0 0   # one node, bad, and no more
4 8 0   2 5   0   2   0 0 0 0 0 0 0  2 1 0 0 0 0 0   0 0 0 0   # the second node bad
4 8 0   2 5   0   3   0 0 0 0 0 0 0  2 1 0 0 0 0 0  9 0 0 0 0 0 0   0 0 0 0   # the first of two bad nodes
4 15 0   2 5   0   4   0 0 0 0 0 0 0  5 0 0 0 0 255 15  9 0 0 0 0 0 0  5 1 0 0 0 1 0   255 255 255 255   # a bad node, a broken span and too many samples
4 1 0   2 5   0   1   1 0 0 0 8 0 1   0 0 0 0   # the high byte of a field that is not used
# the span
0 0 19   2 4095   0   2   0 0 0 0 0 0 0  5 0 0 0 0 255 15   0 0 0 0   # the largest span
5 15 0   2 5   0   3   0 0 0 0 0 0 0  5 0 0 0 0 255 15  5 1 0 0 0 1 0   0 0 0 0   # a broken span
5 15 0   2 5   0   3   0 0 0 0 0 0 0  5 0 0 0 0 255 15  5 1 0 0 0 1 0   # a broken span, and no more
5 15 0   2 5   0   3   0 0 0 0 0 0 0  5 0 0 0 0 255 15  5 1 0 0 0 1 0   255 255 255 255   # a broken span and too many samples
5 15 0   2 5   0   3   0 0 0 0 0 0 0  5 0 0 0 0 255 15  5 1 0 0 0 1 0   0 0 0 0 0   # a broken span and a surplus
0 0 33   4 0   0   4   0 0 0 0 0 0 0  5 0 0 0 0 255 15  5 1 0 0 0 1 0  2 0 0 0 0 0 0   0 0 0 0   # a far node that is not used
# the count of samples
1 8 0   2 5   0   1   0 0 0 0 0 0 0   # no byte of the count of samples
1 8 0   2 5   0   1   0 0 0 0 0 0 0   0   # one byte of it
1 8 0   2 5   0   1   0 0 0 0 0 0 0   0 0   # two bytes of it
1 8 0   2 5   0   1   0 0 0 0 0 0 0   255 255 255   # three bytes of it
1 15 0   2 5   0   2   0 0 0 0 0 0 0  2 0 0 0 0 0 0   0 0 0   # three bytes of it after two nodes
0 0 12   1 0   0   1   0 0 0 0 0 0 0   0 0 0 0   # no sample
3 8 0   2 5   0   1   0 0 0 0 0 0 0   65 66 15 0   # 1,000,001 samples
3 8 0   2 5   0   1   0 0 0 0 0 0 0   255 255 255 255   # 4,294,967,295 samples
3 8 0   2 5   0   1   0 0 0 0 0 0 0   0 0 0 16   # 268,435,456 samples, whose bytes are 2 to the 32
3 8 0   2 5   0   1   0 0 0 0 0 0 0   65 66 15 0 0   # 1,000,001 samples and one byte
# the length of their section
1 12 0   2 5   0   1   0 0 0 0 0 0 0   64 66 15 0   # 1,000,000 samples, and none of them
1 12 0   2 5   0   1   0 0 0 0 0 0 0   1 0 0 0   # one sample, and no byte of it
1 12 0   2 5   0   1   0 0 0 0 0 0 0   1 0 0 0 0 0 0 0 0 0 0 0 0 0 0 0 0 0 0   # 15 bytes of one sample
0 1 12   1 0   0   1   0 0 0 0 0 0 0   1 0 0 0 0 0 0 0 0 0 0 0 0 0 0 0 0 0 0 0   # one sample
0 1 12   1 0   0   1   0 0 0 0 0 0 0   1 0 0 0 255 255 255 255 255 255 255 255 255 255 255 255 255 255 255 255   # one sample, which is broken
1 12 0   2 5   0   1   0 0 0 0 0 0 0   0 1 0 0 0 0 0 0 0 0 0 0 0 0 0 0 0 0 0 0   # 256 samples, and one of them
# surplus
2 12 0   2 5   0   1   0 0 0 0 0 0 0   0 0 0 0 0   # one byte more than no sample
2 12 0   2 5   0   1   0 0 0 0 0 0 0   0 0 0 0 0 0 0 0 0 0 0 0 0 0 0 0 0 0 0 0   # a sample that is not counted
2 28 0   2 5   0   1   0 0 0 0 0 0 0   1 0 0 0 0 0 0 0 0 0 0 0 0 0 0 0 0 0 0 0 9   # one byte more than a sample
2 19 0   2 5   0   2   0 0 0 0 0 0 0  2 0 0 0 0 0 0   0 0 0 0 0   # one byte more, after two nodes
2 111 0   2 5   0   6 1 0 0 0 8 0 0 2 0 0 0 0 0 0 0 0 0 0 0 0 0 1 1 0 0 8 0 0 7 2 3 0 0 3 0 3 1 4 0 0 0 0 4 0 0 0 10 0 0 0 0 0 0 0 184 11 0 0 0 0 0 0 11 0 0 0 0 0 0 0 184 11 100 0 0 0 0 0 13 0 0 0 0 0 0 0 0 0 52 8 0 0 0 0 14 0 0 0 0 0 0 0 0 0 0 0 0 0 0 0 0   # one byte more than a whole record
# the limits of a node
0 0 12   1 0   0   1   1 3 0 255 15 0 0   0 0 0 0   # the greatest level
4 1 0   2 5   0   1   1 3 0 0 16 0 0   0 0 0 0   # a level of 4096
# the largest record
0 1000000 229   32 0   16000000   32   0 0 0 0 0 0 0  0 0 0 0 0 0 0  0 0 0 0 0 0 0  0 0 0 0 0 0 0  0 0 0 0 0 0 0  0 0 0 0 0 0 0  0 0 0 0 0 0 0  0 0 0 0 0 0 0  0 0 0 0 0 0 0  0 0 0 0 0 0 0  0 0 0 0 0 0 0  0 0 0 0 0 0 0  0 0 0 0 0 0 0  0 0 0 0 0 0 0  0 0 0 0 0 0 0  0 0 0 0 0 0 0  0 0 0 0 0 0 0  0 0 0 0 0 0 0  0 0 0 0 0 0 0  0 0 0 0 0 0 0  0 0 0 0 0 0 0  0 0 0 0 0 0 0  0 0 0 0 0 0 0  0 0 0 0 0 0 0  0 0 0 0 0 0 0  0 0 0 0 0 0 0  0 0 0 0 0 0 0  0 0 0 0 0 0 0  0 0 0 0 0 0 0  0 0 0 0 0 0 0  0 0 0 0 0 0 0  0 0 0 0 0 0 0   64 66 15 0   # 1,000,000 samples after 32 nodes
1 229 0   2 5   15999999   32   0 0 0 0 0 0 0  0 0 0 0 0 0 0  0 0 0 0 0 0 0  0 0 0 0 0 0 0  0 0 0 0 0 0 0  0 0 0 0 0 0 0  0 0 0 0 0 0 0  0 0 0 0 0 0 0  0 0 0 0 0 0 0  0 0 0 0 0 0 0  0 0 0 0 0 0 0  0 0 0 0 0 0 0  0 0 0 0 0 0 0  0 0 0 0 0 0 0  0 0 0 0 0 0 0  0 0 0 0 0 0 0  0 0 0 0 0 0 0  0 0 0 0 0 0 0  0 0 0 0 0 0 0  0 0 0 0 0 0 0  0 0 0 0 0 0 0  0 0 0 0 0 0 0  0 0 0 0 0 0 0  0 0 0 0 0 0 0  0 0 0 0 0 0 0  0 0 0 0 0 0 0  0 0 0 0 0 0 0  0 0 0 0 0 0 0  0 0 0 0 0 0 0  0 0 0 0 0 0 0  0 0 0 0 0 0 0  0 0 0 0 0 0 0   64 66 15 0   # one byte too few
2 16000229 0   2 5   16000001   32   0 0 0 0 0 0 0  0 0 0 0 0 0 0  0 0 0 0 0 0 0  0 0 0 0 0 0 0  0 0 0 0 0 0 0  0 0 0 0 0 0 0  0 0 0 0 0 0 0  0 0 0 0 0 0 0  0 0 0 0 0 0 0  0 0 0 0 0 0 0  0 0 0 0 0 0 0  0 0 0 0 0 0 0  0 0 0 0 0 0 0  0 0 0 0 0 0 0  0 0 0 0 0 0 0  0 0 0 0 0 0 0  0 0 0 0 0 0 0  0 0 0 0 0 0 0  0 0 0 0 0 0 0  0 0 0 0 0 0 0  0 0 0 0 0 0 0  0 0 0 0 0 0 0  0 0 0 0 0 0 0  0 0 0 0 0 0 0  0 0 0 0 0 0 0  0 0 0 0 0 0 0  0 0 0 0 0 0 0  0 0 0 0 0 0 0  0 0 0 0 0 0 0  0 0 0 0 0 0 0  0 0 0 0 0 0 0  0 0 0 0 0 0 0   64 66 15 0   # one byte too many
";

fn check_record(rt: &impl Abort, heap: Global, figures: &[u64], line: &str) -> Result<(), Fail> {
    let [number, second, third, nodes, wait, zeros, record @ ..] = figures else {
        return Err(Fail::new("too few numbers"));
    };
    let mut bytes: Vec<u8> = record
        .iter()
        .map(|byte| -> Result<u8, Fail> { Ok(u8::try_from(*byte)?) })
        .try_collect(heap)?;
    let size = bytes.len().saturating_add(usize::try_from(*zeros)?);
    bytes.resize(size, 0)?;
    check_opening(rt, &bytes, &[*number, *second, *third, *nodes, *wait], line)?;
    Ok(())
}

/// In place of a byte: the record is cut there.
const CUT: u64 = 256;

/// The first and the last of some places; the byte that is put there, or `CUT`; the answer, and the count
/// of nodes and the wait of the rule that is there after.
const DAMAGES: &str = "
# cut
0 0     256   1 0 0    2 5
1 42    256   1 1 0    2 5
43 46   256   1 43 0   2 5
47 110  256   1 47 0   2 5
# a byte replaced by 255
0 0     255   3 0 0    2 5     # the count of nodes
1 3     255   4 1 0    2 5     # channel 0 at least 2048
4 4     255   0 4 47   6 3     # the low byte of the level
5 7     255   4 1 0    2 5
8 14    255   4 8 0    2 5     # not 0
15 21   255   4 15 0   2 5     # true
22 24   255   4 22 0   2 5     # channel 1 at least 2048
25 25   255   0 4 47   6 3     # the low byte of the level
26 28   255   4 22 0   2 5
29 33   255   4 29 0   2 5     # 2 until[0,3] 3
34 34   255   0 4 47   6 255   # the low byte of the high bound
35 35   255   4 29 0   2 5
36 42   255   4 36 0   2 5     # 1 or 4
43 44   255   1 47 0   2 5     # 255 and 65,284 samples
45 46   255   3 43 0   2 5     # 16,711,684 and 4,278,190,084 samples
47 110  255   0 4 47   6 3     # the samples
";

fn check_damage(rt: &impl Abort, heap: Global, figures: &[u64], line: &str) -> Result<u64, Fail> {
    let [first, last, value, expected @ ..] = figures else {
        return Err(Fail::new("too few numbers"));
    };
    // The place is what is damaged, and the count shows at the end that all were.
    let mut seen = 0u64;
    for place in *first..=*last {
        let named = format!(in heap; "{line} (byte {place})")?;
        if *value == CUT {
            check_opening(rt, front(place)?, expected.try_into()?, &named)?;
        } else {
            let bytes = damaged(place, u8::try_from(*value)?)?;
            check_opening(rt, &bytes, expected.try_into()?, &named)?;
        }
        seen = seen.saturating_add(1);
    }
    Ok(seen)
}

/// The first bytes of the record, up to a place.
fn front(place: u64) -> Result<&'static [u8], Fail> {
    let Some(bytes) = RESPONSE.get(..usize::try_from(place)?) else {
        return Err(Fail::new("no byte at this place"));
    };
    Ok(bytes)
}

#[test]
fn records(rt: HostRuntime) -> Result<(), Fail> {
    let heap = rt.alloc();
    each_case(
        heap,
        RECORDS,
        |figures, line| check_record(&rt, heap, figures, line),
    )
}

/// Every length and every byte.
#[test]
fn damages(rt: HostRuntime) -> Result<(), Fail> {
    let heap = rt.alloc();
    let mut seen = 0u64;
    each_case(heap, DAMAGES, |figures, line| {
        seen = seen.saturating_add(check_damage(&rt, heap, figures, line)?);
        Ok(())
    })?;
    assert_eq!(rt; seen, 222, "how many");
    let rule = check_opening(&rt, RESPONSE, &[0, 4, 47, 6, 3], "the whole record")?;
    let nodes = numbers(
        heap,
        "1 0 0 2048 0  2 0 0 0 0  0 0 0 0 0  1 1 0 2048 0  7 2 3 0 3  3 1 4 0 0",
    )?;
    check_nodes(&rt, &rule, &rows_of(heap, &nodes)?, "the whole record");
    Ok(())
}
