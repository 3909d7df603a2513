use crate::SignedDuration;
use std::test::Fail;
use std::time::Duration;

const LOWEST: i64 = i64::MIN;

const HIGHEST: i64 = i64::MAX;

fn of(secs: i64, nanos: i64) -> Result<SignedDuration, Fail> {
    let nanos = SignedDuration::from_nanos(nanos);
    let sum = SignedDuration::from_secs(secs).checked_add(nanos);
    Ok(sum.ok_or("no such duration")?)
}

fn parts(duration: SignedDuration) -> (i64, i32) {
    (duration.as_secs(), duration.subsec_nanos())
}

#[test]
fn exact_counts(rt: HostRuntime) {
    let cases = [
        (SignedDuration::from_secs(LOWEST), (LOWEST, 0)),
        (SignedDuration::from_millis(0), (0, 0)),
        (SignedDuration::from_millis(-1), (0, -1_000_000)),
        (SignedDuration::from_millis(-1_500), (-1, -500_000_000)),
        (
            SignedDuration::from_millis(LOWEST),
            (-9_223_372_036_854_775, -808_000_000),
        ),
        (
            SignedDuration::from_micros(HIGHEST),
            (9_223_372_036_854, 775_807_000),
        ),
        (SignedDuration::from_micros(1), (0, 1_000)),
        (
            SignedDuration::from_nanos(LOWEST),
            (-9_223_372_036, -854_775_808),
        ),
        (
            SignedDuration::from_nanos(HIGHEST),
            (9_223_372_036, 854_775_807),
        ),
    ];
    for (duration, expected) in cases {
        assert_eq!(rt; parts(duration), expected);
    }
}

#[test]
fn hours_and_minutes(rt: HostRuntime) {
    let cases = [
        (
            SignedDuration::try_from_hours(2_562_047_788_015_215),
            Some((9_223_372_036_854_774_000, 0)),
        ),
        (SignedDuration::try_from_hours(2_562_047_788_015_216), None),
        (SignedDuration::try_from_hours(-2_562_047_788_015_216), None),
        (SignedDuration::try_from_hours(-1), Some((-3_600, 0))),
        (
            SignedDuration::try_from_mins(-153_722_867_280_912_930),
            Some((-9_223_372_036_854_775_800, 0)),
        ),
        (
            SignedDuration::try_from_mins(-153_722_867_280_912_931),
            None,
        ),
        (SignedDuration::try_from_mins(153_722_867_280_912_931), None),
        (SignedDuration::try_from_mins(90), Some((5_400, 0))),
    ];
    for (duration, expected) in cases {
        assert_eq!(rt; duration.map(parts), expected);
    }
}

#[test]
fn sums(rt: HostRuntime) -> Result<(), Fail> {
    let cases = [
        ((1, 0), (0, -1), Some((0, 999_999_999))),
        ((-1, 0), (0, 1), Some((0, -999_999_999))),
        ((1, 600_000_000), (1, 400_000_000), Some((3, 0))),
        (
            (-1, -600_000_000),
            (-1, -600_000_000),
            Some((-3, -200_000_000)),
        ),
        ((HIGHEST, 999_999_999), (0, 1), None),
        (
            (HIGHEST, 999_999_999),
            (0, -1),
            Some((HIGHEST, 999_999_998)),
        ),
        ((LOWEST, -999_999_999), (0, -1), None),
        ((LOWEST, 0), (0, 1), Some((LOWEST + 1, -999_999_999))),
        (
            (LOWEST, -999_999_999),
            (HIGHEST, 999_999_999),
            Some((-1, 0)),
        ),
        ((HIGHEST, 0), (1, 0), None),
        ((LOWEST, 0), (-1, 0), None),
    ];
    for (left, right, expected) in cases {
        let sum = of(left.0, left.1)?.checked_add(of(right.0, right.1)?);
        assert_eq!(rt; sum.map(parts), expected);
    }
    Ok(())
}

#[test]
fn negations(rt: HostRuntime) -> Result<(), Fail> {
    let cases = [
        ((0, 0), Some((0, 0))),
        ((0, -1), Some((0, 1))),
        ((1, 500_000_000), Some((-1, -500_000_000))),
        ((HIGHEST, 999_999_999), Some((-HIGHEST, -999_999_999))),
        ((LOWEST + 1, -999_999_999), Some((HIGHEST, 999_999_999))),
        ((LOWEST, 0), None),
        ((LOWEST, -5), None),
    ];
    for (duration, expected) in cases {
        let duration = of(duration.0, duration.1)?;
        assert_eq!(rt; duration.checked_neg().map(parts), expected);
        assert_eq!(rt; duration.is_zero(), parts(duration) == (0, 0));
        assert_eq!(rt;
            duration.is_negative(),
            parts(duration).0 < 0 || parts(duration).1 < 0
        );
    }
    Ok(())
}

#[test]
fn whole_remainders(rt: HostRuntime) -> Result<(), Fail> {
    // the duration, and its whole hours, minutes and seconds with what is left of each
    let cases = [
        ((0, 0), (0, (0, 0)), (0, (0, 0)), (0, (0, 0))),
        (
            (-5_400, -5),
            (-1, (-1_800, -5)),
            (-90, (0, -5)),
            (-5_400, (0, -5)),
        ),
        ((3_661, 1), (1, (61, 1)), (61, (1, 1)), (3_661, (0, 1))),
        (
            (LOWEST, -999_999_999),
            (-2_562_047_788_015_215, (-1_808, -999_999_999)),
            (-153_722_867_280_912_930, (-8, -999_999_999)),
            (LOWEST, (0, -999_999_999)),
        ),
    ];
    for (duration, hours, mins, secs) in cases {
        let duration = of(duration.0, duration.1)?;
        let (count, rest) = duration.as_hours_with_remainder();
        assert_eq!(rt; (count, parts(rest)), hours);
        let (count, rest) = duration.as_mins_with_remainder();
        assert_eq!(rt; (count, parts(rest)), mins);
        let (count, rest) = duration.as_secs_with_remainder();
        assert_eq!(rt; (count, parts(rest)), secs);
    }
    Ok(())
}

fn pair(split: Option<(i64, SignedDuration)>) -> Option<(i64, (i64, i32))> {
    split.map(|(count, rest)| (count, parts(rest)))
}

#[test]
fn fine_remainders(rt: HostRuntime) -> Result<(), Fail> {
    // the duration, and its whole milliseconds and microseconds with what is left of each
    let cases = [
        ((0, -1), Some((0, (0, -1))), Some((0, (0, -1)))),
        (
            (-1, -500_000_001),
            Some((-1_500, (0, -1))),
            Some((-1_500_000, (0, -1))),
        ),
        (
            (9_223_372_036_854_775, 807_999_999),
            Some((HIGHEST, (0, 999_999))),
            None,
        ),
        ((9_223_372_036_854_775, 808_000_000), None, None),
        (
            (-9_223_372_036_854_775, -808_000_000),
            Some((LOWEST, (0, 0))),
            None,
        ),
        ((-9_223_372_036_854_775, -809_000_000), None, None),
        (
            (9_223_372_036_854, 775_807_999),
            Some((9_223_372_036_854_775, (0, 807_999))),
            Some((HIGHEST, (0, 999))),
        ),
        (
            (-9_223_372_036_854, -775_809_000),
            Some((-9_223_372_036_854_775, (0, -809_000))),
            None,
        ),
        ((LOWEST, 0), None, None),
    ];
    for (duration, millis, micros) in cases {
        let duration = of(duration.0, duration.1)?;
        assert_eq!(rt; pair(duration.as_millis_with_remainder()), millis);
        assert_eq!(rt; pair(duration.as_micros_with_remainder()), micros);
    }
    Ok(())
}

#[test]
fn texts(rt: HostRuntime) -> Result<(), Fail> {
    let cases = [
        ((0, 0), "0.000000000"),
        ((5_400, 0), "5400.000000000"),
        ((0, -500), "-0.000000500"),
        ((-1, -123_456_789), "-1.123456789"),
        ((HIGHEST, 999_999_999), "9223372036854775807.999999999"),
        ((LOWEST, -999_999_999), "-9223372036854775808.999999999"),
    ];
    for (duration, expected) in cases {
        let duration = of(duration.0, duration.1)?;
        assert_eq!(rt; format!(in rt.alloc(); "{duration}")?.as_str(), expected);
    }
    Ok(())
}

// The longest that converts, and a nanosecond more.
#[test]
fn conversions(rt: HostRuntime) {
    let longest = Duration::new(HIGHEST as u64, 999_999_999);
    let cases = [
        (Duration::ZERO, Some((0, 0))),
        (Duration::new(5_400, 1), Some((5_400, 1))),
        (longest, Some((HIGHEST, 999_999_999))),
        (longest + Duration::from_nanos(1), None),
        (Duration::MAX, None),
    ];
    for (time, expected) in cases {
        assert_eq!(rt; SignedDuration::try_from(time).ok().map(parts), expected);
    }
}
