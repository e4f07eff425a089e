// Rules from rows: the limits of counts, rows and spans.
use crate::helpers::{answer_at, check_nodes, each_case, rows_of};
use rule::Rule;
use std::alloc::Global;
use std::process::Abort;
use std::test::Fail;

/// The answer, of a rule 0, its wait and its reach, of a refusal its number, its place and 0; the nodes: kind, first, second, low and
/// high of each.
const ANSWERS: &str = "
3 0 0   # no node
0 0 0   0 0 0 0 0   # True alone
4 0 0   9 0 0 0 0   # a bad row alone
4 0 0   2 0 0 0 0   # not, with no node before it
4 1 0   0 0 0 0 0  9 0 0 0 0  0 0 0 0 0  9 0 0 0 0   # the first of two bad rows
4 3 0   0 0 0 0 0  0 0 0 0 0  0 0 0 0 0  9 0 0 0 0   # the last row
# the span comes after every row
4 3 0   0 0 0 0 0  5 0 0 0 4095  5 1 0 0 1  9 0 0 0 0   # a bad row after a far node
4 0 0   9 0 0 0 0  0 0 0 0 0  5 1 0 0 4095  5 2 0 0 1   # a bad row before a far node
4 2 0   0 0 0 0 0  5 0 0 0 4095  5 1 0 2 1   # a bad row that is far
# one after another: the sum
0 4095 0   1 0 0 9 0  5 0 0 0 4095   # next
0 0 4095   1 0 0 9 0  6 0 0 0 4095   # yesterday
0 3 0   1 0 0 9 0  5 0 0 3 3   # next, low as high
0 0 0   1 0 0 9 0  5 0 0 0 0   # next of no tick
0 4095 0   1 0 0 9 0  5 0 0 0 4095  2 1 0 0 0   # not of next
0 4095 0   1 0 0 9 0  5 0 0 0 4095  5 1 0 0 0   # next of next, 4095 and 0
5 2 0   1 0 0 9 0  5 0 0 0 4095  5 1 0 0 1   # next of next, 4095 and 1
5 2 0   1 0 0 9 0  5 0 0 0 1  5 1 0 0 4095   # next of next, 1 and 4095
5 2 0   1 0 0 9 0  5 0 0 0 4095  6 1 0 0 1   # yesterday of next, 4095 and 1
0 4 0   1 0 0 9 0  5 0 0 0 2  5 1 0 0 2   # next of next, 2 and 2
0 0 5   1 0 0 9 0  6 0 0 0 2  6 1 0 1 3   # yesterday of yesterday, 2 and 3
0 2000 2095   1 0 0 9 0  6 0 0 0 2095  5 1 0 0 2000   # next of yesterday, 4095
5 2 0   1 0 0 9 0  6 0 0 0 2096  5 1 0 0 2000   # next of yesterday, 4096
# side by side: the greatest in each direction
0 7 0   1 0 0 9 0  5 0 0 0 7  5 0 0 0 5  3 1 2 0 0   # or of 7 and 5
0 7 0   1 0 0 9 0  5 0 0 0 7  5 0 0 0 5  4 2 1 0 0   # and of 5 and 7
0 0 7   1 0 0 9 0  6 0 0 0 7  6 0 0 0 5  3 2 1 0 0   # or of 5 and 7 back
0 0 7   1 0 0 9 0  6 0 0 0 7  6 0 0 0 5  4 1 2 0 0   # and of 7 and 5 back
0 7 9   1 0 0 9 0  5 0 0 0 7  6 0 0 0 9  3 1 2 0 0   # or of both directions
0 2000 2095   1 0 0 9 0  5 0 0 0 2000  6 0 0 0 2095  4 1 2 0 0   # and, 4095
5 3 0   1 0 0 9 0  5 0 0 0 2000  6 0 0 0 2096  4 1 2 0 0   # and, 4096
5 3 0   1 0 0 9 0  5 0 0 0 2001  6 0 0 0 2095  3 2 1 0 0   # or, 4096
0 4095 0   1 0 0 9 0  5 0 0 0 4095  3 1 1 0 0   # or of one node twice
# until adds to the wait, since to the reach
0 4095 0   1 0 0 9 0  7 0 0 0 4095   # until
0 0 4095   1 0 0 9 0  8 0 0 0 4095   # since
0 17 0   1 0 0 9 0  5 0 0 0 7  7 0 1 2 10   # until, second ahead
0 17 0   1 0 0 9 0  5 0 0 0 7  7 1 0 2 10   # until, first ahead
0 10 7   1 0 0 9 0  6 0 0 0 7  7 0 1 2 10   # until, second back
0 10 7   1 0 0 9 0  6 0 0 0 7  7 1 0 2 10   # until, first back
0 7 10   1 0 0 9 0  5 0 0 0 7  8 0 1 2 10   # since, second ahead
0 7 10   1 0 0 9 0  5 0 0 0 7  8 1 0 2 10   # since, first ahead
0 0 17   1 0 0 9 0  6 0 0 0 7  8 0 1 2 10   # since, second back
0 0 17   1 0 0 9 0  6 0 0 0 7  8 1 0 2 10   # since, first back
0 17 0   1 0 0 9 0  5 0 0 0 7  5 0 0 0 5  7 1 2 0 10   # until of 7 and 5
0 0 17   1 0 0 9 0  6 0 0 0 5  6 0 0 0 7  8 1 2 0 10   # since of 5 and 7
0 4095 0   1 0 0 9 0  5 0 0 0 95  7 0 1 0 4000   # until, 4095
5 2 0   1 0 0 9 0  5 0 0 0 96  7 0 1 0 4000   # until, 4096
0 95 4000   1 0 0 9 0  5 0 0 0 95  8 0 1 0 4000   # since, 4095
5 2 0   1 0 0 9 0  5 0 0 0 95  8 0 1 0 4001   # since, 4096
# the span of the last node alone is bounded
0 0 0   1 0 0 9 0  5 0 0 0 4095  5 1 0 0 4095  0 0 0 0 0   # a far node that is not used
0 4095 0   1 0 0 9 0  5 0 0 0 4095  5 1 0 0 4095  2 1 0 0 0   # a nearer node is used
5 3 0   1 0 0 9 0  5 0 0 0 4095  5 1 0 0 4095  2 2 0 0 0   # a far node is used
# 32 nodes and more
0 0 0   0 0 0 0 0  0 0 0 0 0  0 0 0 0 0  0 0 0 0 0  0 0 0 0 0  0 0 0 0 0  0 0 0 0 0  0 0 0 0 0  0 0 0 0 0  0 0 0 0 0  0 0 0 0 0  0 0 0 0 0  0 0 0 0 0  0 0 0 0 0  0 0 0 0 0  0 0 0 0 0  0 0 0 0 0  0 0 0 0 0  0 0 0 0 0  0 0 0 0 0  0 0 0 0 0  0 0 0 0 0  0 0 0 0 0  0 0 0 0 0  0 0 0 0 0  0 0 0 0 0  0 0 0 0 0  0 0 0 0 0  0 0 0 0 0  0 0 0 0 0  0 0 0 0 0  0 0 0 0 0   # 32 nodes
3 0 0   0 0 0 0 0  0 0 0 0 0  0 0 0 0 0  0 0 0 0 0  0 0 0 0 0  0 0 0 0 0  0 0 0 0 0  0 0 0 0 0  0 0 0 0 0  0 0 0 0 0  0 0 0 0 0  0 0 0 0 0  0 0 0 0 0  0 0 0 0 0  0 0 0 0 0  0 0 0 0 0  0 0 0 0 0  0 0 0 0 0  0 0 0 0 0  0 0 0 0 0  0 0 0 0 0  0 0 0 0 0  0 0 0 0 0  0 0 0 0 0  0 0 0 0 0  0 0 0 0 0  0 0 0 0 0  0 0 0 0 0  0 0 0 0 0  0 0 0 0 0  0 0 0 0 0  0 0 0 0 0  0 0 0 0 0   # 33 nodes
3 0 0   9 0 0 0 0  9 0 0 0 0  9 0 0 0 0  9 0 0 0 0  9 0 0 0 0  9 0 0 0 0  9 0 0 0 0  9 0 0 0 0  9 0 0 0 0  9 0 0 0 0  9 0 0 0 0  9 0 0 0 0  9 0 0 0 0  9 0 0 0 0  9 0 0 0 0  9 0 0 0 0  9 0 0 0 0  9 0 0 0 0  9 0 0 0 0  9 0 0 0 0  9 0 0 0 0  9 0 0 0 0  9 0 0 0 0  9 0 0 0 0  9 0 0 0 0  9 0 0 0 0  9 0 0 0 0  9 0 0 0 0  9 0 0 0 0  9 0 0 0 0  9 0 0 0 0  9 0 0 0 0  9 0 0 0 0   # 33 bad rows: the count comes first
4 0 0   9 0 0 0 0  9 0 0 0 0  9 0 0 0 0  9 0 0 0 0  9 0 0 0 0  9 0 0 0 0  9 0 0 0 0  9 0 0 0 0  9 0 0 0 0  9 0 0 0 0  9 0 0 0 0  9 0 0 0 0  9 0 0 0 0  9 0 0 0 0  9 0 0 0 0  9 0 0 0 0  9 0 0 0 0  9 0 0 0 0  9 0 0 0 0  9 0 0 0 0  9 0 0 0 0  9 0 0 0 0  9 0 0 0 0  9 0 0 0 0  9 0 0 0 0  9 0 0 0 0  9 0 0 0 0  9 0 0 0 0  9 0 0 0 0  9 0 0 0 0  9 0 0 0 0  9 0 0 0 0   # 32 bad rows: the first of them
5 31 0   0 0 0 0 0  5 0 0 0 4095  5 1 0 0 4095  5 2 0 0 4095  5 3 0 0 4095  5 4 0 0 4095  5 5 0 0 4095  5 6 0 0 4095  5 7 0 0 4095  5 8 0 0 4095  5 9 0 0 4095  5 10 0 0 4095  5 11 0 0 4095  5 12 0 0 4095  5 13 0 0 4095  5 14 0 0 4095  5 15 0 0 4095  5 16 0 0 4095  5 17 0 0 4095  5 18 0 0 4095  5 19 0 0 4095  5 20 0 0 4095  5 21 0 0 4095  5 22 0 0 4095  5 23 0 0 4095  5 24 0 0 4095  5 25 0 0 4095  5 26 0 0 4095  5 27 0 0 4095  5 28 0 0 4095  5 29 0 0 4095  5 30 0 0 4095   # next of next, 31 times 4095
5 31 0   0 0 0 0 0  6 0 0 0 133  6 1 0 0 133  6 2 0 0 133  6 3 0 0 133  6 4 0 0 133  6 5 0 0 133  6 6 0 0 133  6 7 0 0 133  6 8 0 0 133  6 9 0 0 133  6 10 0 0 133  6 11 0 0 133  6 12 0 0 133  6 13 0 0 133  6 14 0 0 133  6 15 0 0 133  6 16 0 0 133  6 17 0 0 133  6 18 0 0 133  6 19 0 0 133  6 20 0 0 133  6 21 0 0 133  6 22 0 0 133  6 23 0 0 133  6 24 0 0 133  6 25 0 0 133  6 26 0 0 133  6 27 0 0 133  6 28 0 0 133  6 29 0 0 133  6 30 0 0 133   # yesterday of yesterday, 31 times 133
0 0 4092   0 0 0 0 0  6 0 0 0 132  6 1 0 0 132  6 2 0 0 132  6 3 0 0 132  6 4 0 0 132  6 5 0 0 132  6 6 0 0 132  6 7 0 0 132  6 8 0 0 132  6 9 0 0 132  6 10 0 0 132  6 11 0 0 132  6 12 0 0 132  6 13 0 0 132  6 14 0 0 132  6 15 0 0 132  6 16 0 0 132  6 17 0 0 132  6 18 0 0 132  6 19 0 0 132  6 20 0 0 132  6 21 0 0 132  6 22 0 0 132  6 23 0 0 132  6 24 0 0 132  6 25 0 0 132  6 26 0 0 132  6 27 0 0 132  6 28 0 0 132  6 29 0 0 132  6 30 0 0 132   # yesterday of yesterday, 31 times 132
# every kind
0 0 772   0 0 0 0 0  1 0 0 0 0  1 3 0 4095 0  2 2 0 0 0  3 2 1 0 0  4 3 4 0 0  5 5 0 0 7  6 6 0 4095 4095  7 0 7 3 3  8 8 0 1 4095  5 0 0 0 0  7 10 10 0 4095  8 1 2 258 772   # with operands and figures up to their limits
# rows that no node has at place 2
4 2 0   1 0 0 9 0  1 0 0 9 0  9 0 0 0 0   # kind 9
4 2 0   1 0 0 9 0  1 0 0 9 0  9 0 1 2 3   # kind 9 with operands and bounds
4 2 0   1 0 0 9 0  1 0 0 9 0  255 0 0 0 0   # kind 255
4 2 0   1 0 0 9 0  1 0 0 9 0  0 1 0 0 0   # True: first
4 2 0   1 0 0 9 0  1 0 0 9 0  0 0 1 0 0   # True: second
4 2 0   1 0 0 9 0  1 0 0 9 0  0 0 0 1 0   # True: low
4 2 0   1 0 0 9 0  1 0 0 9 0  0 0 0 0 1   # True: high
4 2 0   1 0 0 9 0  1 0 0 9 0  0 0 0 256 0   # True: low 256
4 2 0   1 0 0 9 0  1 0 0 9 0  1 4 0 2048 0   # level: channel 4
4 2 0   1 0 0 9 0  1 0 0 9 0  1 255 0 2048 0   # level: channel 255
4 2 0   1 0 0 9 0  1 0 0 9 0  1 0 0 4096 0   # level: 4096
4 2 0   1 0 0 9 0  1 0 0 9 0  1 0 0 65535 0   # level: 65535
4 2 0   1 0 0 9 0  1 0 0 9 0  1 0 1 2048 0   # level: second
4 2 0   1 0 0 9 0  1 0 0 9 0  1 0 0 2048 1   # level: high
4 2 0   1 0 0 9 0  1 0 0 9 0  1 0 0 2048 2048   # level: high as low
4 2 0   1 0 0 9 0  1 0 0 9 0  2 2 0 0 0   # not: itself
4 2 0   1 0 0 9 0  1 0 0 9 0  2 3 0 0 0   # not: a later node
4 2 0   1 0 0 9 0  1 0 0 9 0  2 255 0 0 0   # not: node 255
4 2 0   1 0 0 9 0  1 0 0 9 0  2 0 1 0 0   # not: second
4 2 0   1 0 0 9 0  1 0 0 9 0  2 0 0 1 0   # not: low
4 2 0   1 0 0 9 0  1 0 0 9 0  2 0 0 0 1   # not: high
4 2 0   1 0 0 9 0  1 0 0 9 0  3 2 0 0 0   # or: first itself
4 2 0   1 0 0 9 0  1 0 0 9 0  3 0 2 0 0   # or: second itself
4 2 0   1 0 0 9 0  1 0 0 9 0  3 0 1 1 0   # or: low
4 2 0   1 0 0 9 0  1 0 0 9 0  3 0 1 0 1   # or: high
4 2 0   1 0 0 9 0  1 0 0 9 0  4 2 0 0 0   # and: first itself
4 2 0   1 0 0 9 0  1 0 0 9 0  4 0 2 0 0   # and: second itself
4 2 0   1 0 0 9 0  1 0 0 9 0  4 0 1 1 0   # and: low
4 2 0   1 0 0 9 0  1 0 0 9 0  4 0 1 0 1   # and: high
4 2 0   1 0 0 9 0  1 0 0 9 0  5 2 0 0 1   # next: itself
4 2 0   1 0 0 9 0  1 0 0 9 0  5 0 1 0 1   # next: second
4 2 0   1 0 0 9 0  1 0 0 9 0  5 0 0 3 2   # next: low above high
4 2 0   1 0 0 9 0  1 0 0 9 0  5 0 0 0 4096   # next: high 4096
4 2 0   1 0 0 9 0  1 0 0 9 0  5 0 0 4096 4096   # next: low and high 4096
4 2 0   1 0 0 9 0  1 0 0 9 0  6 2 0 0 1   # yesterday: itself
4 2 0   1 0 0 9 0  1 0 0 9 0  6 0 1 0 1   # yesterday: second
4 2 0   1 0 0 9 0  1 0 0 9 0  6 0 0 3 2   # yesterday: low above high
4 2 0   1 0 0 9 0  1 0 0 9 0  6 0 0 0 4096   # yesterday: high 4096
4 2 0   1 0 0 9 0  1 0 0 9 0  6 0 0 0 65535   # yesterday: high 65535
4 2 0   1 0 0 9 0  1 0 0 9 0  7 2 0 0 1   # until: first itself
4 2 0   1 0 0 9 0  1 0 0 9 0  7 0 2 0 1   # until: second itself
4 2 0   1 0 0 9 0  1 0 0 9 0  7 0 255 0 1   # until: node 255
4 2 0   1 0 0 9 0  1 0 0 9 0  7 0 1 3 2   # until: low above high
4 2 0   1 0 0 9 0  1 0 0 9 0  7 0 1 0 4096   # until: high 4096
4 2 0   1 0 0 9 0  1 0 0 9 0  8 2 0 0 1   # since: first itself
4 2 0   1 0 0 9 0  1 0 0 9 0  8 0 2 0 1   # since: second itself
4 2 0   1 0 0 9 0  1 0 0 9 0  8 0 1 3 2   # since: low above high
4 2 0   1 0 0 9 0  1 0 0 9 0  8 0 1 1 0   # since: low 1 above high 0
4 2 0   1 0 0 9 0  1 0 0 9 0  8 0 1 0 4096   # since: high 4096
4 2 0   1 0 0 9 0  1 0 0 9 0  8 0 1 65535 65535   # since: low and high 65535
";

fn check_answer(rt: &impl Abort, heap: Global, figures: &[u64], line: &str) -> Result<(), Fail> {
    let [number, second, third, nodes @ ..] = figures else {
        return Err(Fail::new("too few numbers"));
    };
    let rows = rows_of(heap, nodes)?;
    let expected = answer_at([*number, *second, *third], (*second, *third))?;
    let made = Rule::from_rows(&rows);
    assert_eq!(rt;
        made.map(|rule| (rule.wait(), rule.reach())),
        expected,
        "{}",
        line
    );
    if let Ok(rule) = made {
        assert_eq!(rt; rule.span(), second.saturating_add(*third), "{}", line);
        check_nodes(rt, &rule, &rows, line);
    }
    Ok(())
}

#[test]
fn answers(rt: HostRuntime) -> Result<(), Fail> {
    let heap = rt.alloc();
    let new = Rule::new();
    assert_eq!(rt; (new.wait(), new.reach(), new.span()), (0, 0, 0));
    check_nodes(&rt, &new, &rows_of(heap, &[0; 5])?, "a new rule");
    each_case(
        heap,
        ANSWERS,
        |figures, line| check_answer(&rt, heap, figures, line),
    )
}
