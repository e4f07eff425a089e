// The samples of a record, as a source.
use crate::helpers::{check_source, damaged, each_case, ending};
use record::RecordSource;
use std::process::Abort;
use std::test::Fail;

/// A byte of the record to replace, and its new value; how many bytes are kept; the start place; the number and place of the
/// ending; the samples before it.
const CASES: &str = "
0 6   111 47   11 0   10 3000 0 0 0  11 3000 100 0 0  13 0 2100 0 0  14 0 0 0 0   # the whole record
43 1   111 47   11 0   10 3000 0 0 0  11 3000 100 0 0  13 0 2100 0 0  14 0 0 0 0   # a count of one sample, which is not asked
43 9   79 47   11 0   10 3000 0 0 0  11 3000 100 0 0   # a count of nine samples, which is not asked
0 6   111 79   11 0   13 0 2100 0 0  14 0 0 0 0   # from the third sample on
0 6   111 95   11 0   14 0 0 0 0   # the last sample
0 6   111 111   11 0   # from the end on
0 6   111 112   11 0   # from past the end on
0 6   111 18446744073709551615   11 0   # from the largest place on
0 6   111 18446744073709551600   11 0   # from 16 before the largest number of places on
0 6   0 0   11 0   # no byte
0 6   0 5   11 0   # past no byte
# too few bytes
0 6   111 110   1 110   # one byte
0 6   111 96   1 96   # 15 bytes
0 6   1 0   1 0   # one byte at place 0
0 6   64 47   1 63   10 3000 0 0 0   # one byte after a sample
0 6   78 47   1 63   10 3000 0 0 0   # 15 bytes after a sample
# broken samples
52 1   111 47   6 47   # the first stamp too late, by its byte 5
54 1   111 47   6 47   # the first stamp too late, by its byte 7
84 1   111 47   6 79   10 3000 0 0 0  11 3000 100 0 0   # the third stamp too late
84 1   79 47   11 0   10 3000 0 0 0  11 3000 100 0 0   # the third stamp too late, and cut off
84 1   111 95   11 0   14 0 0 0 0   # from past a broken sample on
51 255   63 47   11 0   1095216660490 3000 0 0 0   # a late stamp, by its byte 4
104 16   111 79   6 95   13 0 2100 0 0   # code 4096 in channel 0
106 16   111 95   6 95   # code 4096 in channel 1
108 16   111 95   6 95   # code 4096 in channel 2
110 16   111 95   6 95   # code 4096 in channel 3
110 15   111 95   11 0   14 0 0 0 3840   # code 3840 in channel 3
";

fn check_case(rt: &impl Abort, figures: &[u64], line: &str) -> Result<(), Fail> {
    let [place, value, size, start, number, end, samples @ ..] = figures else {
        return Err(Fail::new("too few numbers"));
    };
    let bytes = damaged(*place, u8::try_from(*value)?)?;
    let Some(bytes) = bytes.get(..usize::try_from(*size)?) else {
        return Err(Fail::new("the record is not so long"));
    };
    let mut source = RecordSource::new(bytes, usize::try_from(*start)?);
    check_source(rt, &mut source, samples, ending(*number, *end)?, line)
}

#[test]
fn samples(rt: HostRuntime) -> Result<(), Fail> {
    each_case(
        rt.alloc(),
        CASES,
        |figures, line| check_case(&rt, figures, line),
    )
}
