// Samples, and their plain rows.
use crate::helpers::{answer, each_case, sample_row, told};
use sample::Sample;
use scale::Code;
use std::process::Abort;
use std::test::Fail;

/// Stamp and codes; the number of the refusal, or 0; stamp and codes of the sample that they are read as.
const FIGURES: &str = "
0 0 0 0 0   0   0 0 0 0 0
5 1 2 3 4   0   5 1 2 3 4
1099511627775 4095 4094 4093 4092   0   1099511627775 4095 4094 4093 4092
1099511627775 4095 4095 4095 4095   0   1099511627775 4095 4095 4095 4095
1099511627776 0 0 0 0   6   1099511627775 0 0 0 0
18446744073709551615 7 8 9 10   6   1099511627775 7 8 9 10
0 4096 1 2 3   6   0 4095 1 2 3
0 1 4096 2 3   6   0 1 4095 2 3
0 1 2 4096 3   6   0 1 2 4095 3
0 1 2 3 4096   6   0 1 2 3 4095
9 65535 0 0 0   6   9 4095 0 0 0
9 0 0 0 65535   6   9 0 0 0 4095
9 4096 4097 8192 65535   6   9 4095 4095 4095 4095
1099511627777 4096 4096 4096 4096   6   1099511627775 4095 4095 4095 4095
";

fn check_sample(rt: &impl Abort, figures: &[u64], line: &str) -> Result<(), Fail> {
    let [stamp, a, b, c, d, number, expected @ ..] = figures else {
        return Err(Fail::new("too few numbers"));
    };
    let row = sample_row(&[*stamp, *a, *b, *c, *d])?;
    let expected = sample_row(expected.try_into()?)?;
    let sample = Sample::from_row(row);
    let again = Sample::from_row(sample.row());
    assert_eq!(rt;
        (told(sample), told(again)),
        (expected, expected),
        "{}",
        line
    );
    let by_channel = [0, 1, 2, 3, 4, usize::MAX].map(|channel| again
        .code(channel)
        .map(Code::value));
    let [a, b, c, d] = expected.codes.map(Some);
    assert_eq!(rt; by_channel, [a, b, c, d, None, None], "{}", line);
    assert_eq!(rt;
        Sample::new(row.stamp, row.codes).map(told),
        answer(*number, expected)?,
        "{}",
        line
    );
    Ok(())
}

#[test]
fn figures(rt: HostRuntime) -> Result<(), Fail> {
    each_case(
        rt.alloc(),
        FIGURES,
        |figures, line| check_sample(&rt, figures, line),
    )
}
