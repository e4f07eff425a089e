// Codes, and the two scales on which they are read.
use refusal::Refusal;
use scale::{Code, Margin, PassFail, Scale, TestScale};
use std::process::Abort;

/// A number; the code made of it, or the number of the refusal; the nearest code.
const CODES: [(u16, Result<u16, u32>, u16); 7] = [
    (0, Ok(0), 0),
    (1, Ok(1), 1),
    (4094, Ok(4094), 4094),
    (4095, Ok(4095), 4095),
    (4096, Err(6), 4095),
    (8191, Err(6), 4095),
    (65535, Err(6), 4095),
];

/// Code and level; the verdict and the margin as they are kept; whether they pass.
const READINGS: [(u16, u16, i64, i64, bool); 8] = [
    (2048, 2048, 1, 1, true),
    (2047, 2048, 0, -1, false),
    (2049, 2048, 1, 3, true),
    (2046, 2048, 0, -3, false),
    (4095, 0, 1, 8191, true),
    (0, 4095, 0, -8189, false),
    (0, 0, 1, 1, true),
    (4095, 4095, 1, 1, true),
];

#[test]
fn codes_and_readings(rt: HostRuntime) {
    for (number, made, nearest) in CODES {
        let told = Code::new(number).map(Code::value).map_err(Refusal::number);
        assert_eq!(rt;
            (told, Code::nearest(number).value()),
            (made, nearest),
            "{}",
            number
        );
        let converted = Code::try_from(number)
            .map(u16::from)
            .map_err(Refusal::number);
        assert_eq!(rt; converted, made, "{} by the library's traits", number);
    }
    for (code, level, verdict, margin, passes) in READINGS {
        let code = Code::nearest(code);
        let level = Code::nearest(level);
        let one = PassFail::read(code, level);
        let other = Margin::read(code, level);
        assert_eq!(rt;
            (one.kept(), i64::from(other.value()), one.passes()),
            (verdict, margin, passes),
            "of a reading"
        );
        assert_eq!(rt;
            i64::from(i32::from(other)),
            margin,
            "of a margin as a number"
        );
        assert_eq!(rt;
            (one.kept(), other.kept(), other.passes()),
            (verdict, margin, passes),
            "of a reading as kept"
        );
    }
}

/// A number that may have been kept; the value that it restores, as kept; that value turned over; whether it passes.
type Restored = (i64, i64, i64, bool);

/// Two values, as kept; or, and, whether they are the same.
type Pair = (i64, i64, i64, i64, bool);

const VERDICTS: [Restored; 8] = [
    (0, 0, 1, false),
    (1, 1, 0, true),
    (2, 0, 1, false),
    (-1, 0, 1, false),
    (257, 0, 1, false),
    (4_294_967_297, 0, 1, false),
    (-9_223_372_036_854_775_808, 0, 1, false),
    (9_223_372_036_854_775_807, 0, 1, false),
];

const VERDICT_PAIRS: [Pair; 4] = [
    (0, 0, 0, 0, true),
    (0, 1, 1, 0, false),
    (1, 0, 1, 0, false),
    (1, 1, 1, 1, true),
];

const MARGINS: [Restored; 20] = [
    (1, 1, -1, true),
    (-1, -1, 1, false),
    (3, 3, -3, true),
    (8191, 8191, -8191, true),
    (-8189, -8189, 8189, false),
    (8193, 8193, -8193, true),
    (-8193, -8193, 8193, false),
    (0, -8193, 8193, false),
    (2, -8193, 8193, false),
    (-2, -8193, 8193, false),
    (8192, -8193, 8193, false),
    (-8192, -8193, 8193, false),
    (8194, -8193, 8193, false),
    (8195, -8193, 8193, false),
    (-8195, -8193, 8193, false),
    (65537, -8193, 8193, false),
    (4_294_967_297, -8193, 8193, false),
    (-9_223_372_036_854_775_808, -8193, 8193, false),
    (-9_223_372_036_854_775_807, -8193, 8193, false),
    (9_223_372_036_854_775_807, -8193, 8193, false),
];

const MARGIN_PAIRS: [Pair; 6] = [
    (1, -1, 1, -1, false),
    (-1, 1, 1, -1, false),
    (3, 5, 5, 3, false),
    (-3, -5, -3, -5, false),
    (7, 7, 7, 7, true),
    (8193, -8193, 8193, -8193, false),
];

fn check_scale<S: Scale>(
    rt: &impl Abort,
    name: &str,
    best: i64,
    worst: i64,
    numbers: &[Restored],
    pairs: &[Pair],
) {
    assert_eq!(rt;
        (S::best().kept(), S::worst().kept(), S::best().passes()),
        (best, worst, true),
        "best and worst of {}",
        name
    );
    for &(number, kept, turned, passes) in numbers {
        let value = S::restored(number);
        assert_eq!(rt;
            (value.kept(), value.turn_over().kept(), value.passes()),
            (kept, turned, passes),
            "{} of {}",
            number,
            name
        );
    }
    for &(one, other, either, both, same) in pairs {
        let a = S::restored(one);
        let b = S::restored(other);
        assert_eq!(rt;
            (a.or(b).kept(), a.and(b).kept(), a.same(b)),
            (either, both, same),
            "of two values of {}",
            name
        );
    }
}

#[test]
fn scales(rt: HostRuntime) {
    check_scale::<PassFail>(&rt, "pass/fail", 1, 0, &VERDICTS, &VERDICT_PAIRS);
    check_scale::<Margin>(&rt, "margins", 8193, -8193, &MARGINS, &MARGIN_PAIRS);
}
