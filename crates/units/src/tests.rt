use crate::*;

// Code, unit, nanoseconds and span limit of every unit, and of the first code that has none.
#[test]
fn table(rt: HostRuntime) {
    let rows = [
        (0, Unit::Nanosecond, Some(1), 9_223_372_036_854_775_807),
        (1, Unit::Microsecond, Some(1_000), 631_107_417_600_000_000),
        (2, Unit::Millisecond, Some(1_000_000), 631_107_417_600_000),
        (3, Unit::Second, Some(1_000_000_000), 631_107_417_600),
        (4, Unit::Minute, Some(60_000_000_000), 10_518_456_960),
        (5, Unit::Hour, Some(3_600_000_000_000), 175_307_616),
        (6, Unit::Day, None, 7_304_484),
        (7, Unit::Week, None, 1_043_497),
        (8, Unit::Month, None, 239_976),
        (9, Unit::Year, None, 19_998),
    ];
    for (code, unit, nanoseconds, span_limit) in rows {
        assert_eq!(rt; unit.code(), code);
        assert_eq!(rt; Unit::from_code(code), Some(unit));
        assert_eq!(rt; unit.nanoseconds(), nanoseconds);
        assert_eq!(rt; unit.span_limit(), span_limit);
        assert_eq!(rt; unit.is_calendar(), code > 5);
        assert_eq!(rt; Unit::Day.at_most(unit), code >= 6);
    }
    assert_eq!(rt; Unit::from_code(10), None);
    assert_eq!(rt; Unit::from_code(255), None);
}

// The longest that a Duration holds of each clock unit, and one more.
#[test]
fn times(rt: HostRuntime) {
    let cases = [
        (
            Unit::Nanosecond,
            u64::MAX,
            Some((18_446_744_073, 709_551_615)),
        ),
        (Unit::Millisecond, 1_500, Some((1, 500_000_000))),
        (Unit::Second, u64::MAX, Some((u64::MAX, 0))),
        (
            Unit::Minute,
            307_445_734_561_825_860,
            Some((18_446_744_073_709_551_600, 0)),
        ),
        (Unit::Minute, 307_445_734_561_825_861, None),
        (
            Unit::Hour,
            5_124_095_576_030_431,
            Some((18_446_744_073_709_551_600, 0)),
        ),
        (Unit::Hour, 5_124_095_576_030_432, None),
        (Unit::Day, 0, None),
    ];
    for (unit, count, expected) in cases {
        let parts = unit
            .time(count)
            .map(|time| (time.as_secs(), time.subsec_nanos()));
        assert_eq!(rt; parts, expected);
    }
}

// Every fault that tells something, and the first and last of those that tell nothing.
#[test]
fn refusals(rt: HostRuntime) {
    let (found, previous, unit) = (Unit::Week, Unit::Hour, Unit::Minute);
    let week = Told::Unit(Unit::Week);
    let minute = Told::Unit(Unit::Minute);
    let cases = [
        (Fault::FractionAlreadySet, 1, Told::Nothing),
        (
            Fault::OutOfOrderUnits { found, previous },
            2,
            Told::Units {
                found: Unit::Week,
                previous: Unit::Hour,
            },
        ),
        (Fault::OutOfOrderHMS { found }, 3, week),
        (Fault::NotAllowedFractionalUnit { found }, 5, week),
        (Fault::NotAllowedCalendarUnit { unit }, 8, minute),
        (Fault::SignedOverflowForUnit { unit }, 9, minute),
        (Fault::OverflowForUnit { unit }, 10, minute),
        (Fault::OverflowForUnitFractional { unit }, 11, minute),
        (Fault::FailedValueSet { unit }, 12, minute),
        (
            Fault::InvalidFractionDigit { byte: 120 },
            18,
            Told::Byte(120),
        ),
        (Fault::BufferTooShort, 24, Told::Nothing),
    ];
    for (fault, number, told) in cases {
        assert_eq!(rt; fault.number(), number);
        assert_eq!(rt; fault.tells(), told);
    }
}
