// The patterns that a calibrator takes, and the waves that it gives.
use crate::helpers::{answer, check_source, each_case};
use sample::{Calibrator, Ending, Pattern, Source};
use std::process::Abort;
use std::test::Fail;

/// The number of the refusal, or 0; the pattern: first stamp, count, half period, high and low; how many samples are passed over; the
/// rest of them, after which the calibrator is dry.
const PATTERNS: &str = "
0   0 0 1 0 0   0   # the least figures
0   1099511627775 1 1000 4095 4095   1   # the latest stamp
19   1099511627775 2 1000 4095 4095   0   # one stamp too late
0   1099511627775 0 1 1 0   0   # no sample, from the latest stamp on
19   1099511627776 0 1 1 0   0   # no sample, from a stamp that is too late
19   1099511627776 1 1 1 0   0   # a first stamp that is too late
19   18446744073709551615 1 1 1 0   0   # the largest first stamp
0   0 1000000 1 1 0   1000000   # the most samples
19   0 1000001 1 1 0   0   # one sample too many
19   0 4294967295 1 1 0   0   # the largest count
0   1099510627776 1000000 1 1 0   1000000   # the most samples, up to the latest stamp
19   1099510627777 1000000 1 1 0   0   # the most samples, past the latest stamp
19   0 10 0 1 0   0   # half period 0
19   0 0 0 1 0   0   # half period 0 of no sample
0   0 10 1 1 0   10   # half period 1
0   0 10 1000 1 0   10   # half period 1000
19   0 10 1001 1 0   0   # half period 1001
19   0 10 4294967295 1 0   0   # the largest half period
0   0 10 3 4095 0   10   # high 4095
19   0 10 3 4096 0   0   # high 4096
0   0 10 3 0 4095   10   # low 4095, and high below low
19   0 10 3 0 4096   0   # low 4096
19   0 1 3 0 65535   0   # low 65535, which no sample has
0   5 7 3 3000 100   0   5 3000 0 0 0  6 3000 0 0 0  7 3000 0 0 0  8 100 0 0 0  9 100 0 0 0  10 100 0 0 0  11 3000 0 0 0   # half period 3
0   1099511627772 4 1 0 4095   0   1099511627772 0 0 0 0  1099511627773 4095 0 0 0  1099511627774 0 0 0 0  1099511627775 4095 0 0 0   # half period 1, to the latest stamp
0   9 0 4 1 2   0   # no sample
0   9 2 4 1 2   7   # more passed over than there are
0   0 1001 1000 7 8   998   998 7 0 0 0  999 7 0 0 0  1000 8 0 0 0   # the longest half period
0   1 1000000 1000 7 8   999998   999999 8 0 0 0  1000000 8 0 0 0   # the last of the most samples
";

fn check_pattern(rt: &impl Abort, figures: &[u64], line: &str) -> Result<(), Fail> {
    let [
        number,
        first,
        count,
        half_period,
        high,
        low,
        passed_over,
        rest @ ..,
    ] = figures
    else {
        return Err(Fail::new("too few numbers"));
    };
    let pattern = Pattern {
        first: *first,
        count: u32::try_from(*count)?,
        half_period: u32::try_from(*half_period)?,
        high: u16::try_from(*high)?,
        low: u16::try_from(*low)?,
    };
    match (Calibrator::new(pattern), answer(*number, ())?) {
        (Ok(mut source), Ok(())) => {
            for _ in 0..*passed_over {
                source.step();
            }
            check_source(rt, &mut source, rest, Ending::Dry, line)
        }
        (made, expected) => {
            assert_eq!(rt; made.map(|_| ()), expected, "{}", line);
            Ok(())
        }
    }
}

#[test]
fn patterns(rt: HostRuntime) -> Result<(), Fail> {
    each_case(
        rt.alloc(),
        PATTERNS,
        |figures, line| check_pattern(&rt, figures, line),
    )
}
