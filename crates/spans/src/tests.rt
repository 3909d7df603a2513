use crate::Span;
use std::test::Fail;
use units::{Fault, Sign, Unit};

fn with(span: Span, unit: Unit, value: i64) -> Result<Span, Fault> {
    match unit {
        Unit::Nanosecond => span.try_nanoseconds(value),
        Unit::Microsecond => span.try_microseconds(value),
        Unit::Millisecond => span.try_milliseconds(value),
        Unit::Second => span.try_seconds(value),
        Unit::Minute => span.try_minutes(value),
        Unit::Hour => span.try_hours(value),
        Unit::Day => span.try_days(value),
        Unit::Week => span.try_weeks(value),
        Unit::Month => span.try_months(value),
        Unit::Year => span.try_years(value),
    }
}

// The magnitude that one value leaves in a span, or the number of the refusal.
fn tried(unit: Unit, value: i64) -> Result<u64, u8> {
    with(Span::new(), unit, value)
        .map(|span| span.magnitude(unit))
        .map_err(|fault| fault.number())
}

#[test]
fn limits(rt: HostRuntime) {
    for unit in Unit::ALL {
        let limit = unit.span_limit();
        let value = limit as i64;
        assert_eq!(rt; tried(unit, value), Ok(limit));
        assert_eq!(rt; tried(unit, -value), Ok(limit));
        // Past the limit of nanoseconds comes the lowest i64, from either end.
        assert_eq!(rt; tried(unit, value.wrapping_add(1)), Err(19));
        assert_eq!(rt; tried(unit, -value - 1), Err(19));
        assert_eq!(rt; tried(unit, i64::MIN), Err(19));
    }
}

fn of(values: [(Unit, i64); 2]) -> Result<Span, Fault> {
    let mut span = Span::new();
    for (unit, value) in values {
        span = with(span, unit, value)?;
    }
    Ok(span)
}

#[test]
fn signs(rt: HostRuntime) -> Result<(), Fail> {
    // two values set one after the other, and the sign, the years and the months then
    let cases = [
        ([(Unit::Year, -5), (Unit::Year, 3)], (Sign::Negative, 3, 0)),
        ([(Unit::Year, 5), (Unit::Month, -1)], (Sign::Negative, 5, 1)),
        ([(Unit::Year, -5), (Unit::Month, 2)], (Sign::Negative, 5, 2)),
        ([(Unit::Year, -5), (Unit::Year, 0)], (Sign::Zero, 0, 0)),
        ([(Unit::Year, 0), (Unit::Month, 7)], (Sign::Positive, 0, 7)),
        ([(Unit::Year, 5), (Unit::Month, 0)], (Sign::Positive, 5, 0)),
    ];
    for (values, (sign, years, months)) in cases {
        let span = of(values)?;
        assert_eq!(rt; span.sign(), sign);
        assert_eq!(rt; span.magnitude(Unit::Year), years);
        assert_eq!(rt; span.magnitude(Unit::Month), months);
        assert_eq!(rt; span.units().contains(Unit::Year), years != 0);
        assert_eq!(rt; span.units().contains(Unit::Month), months != 0);
        assert_eq!(rt; span.units().is_empty(), sign == Sign::Zero);
    }
    Ok(())
}

#[test]
fn clock_totals_and_equality(rt: HostRuntime) -> Result<(), Fail> {
    let span = of([(Unit::Hour, 1), (Unit::Minute, -30)])?;
    let total = span.clock_total();
    assert_eq!(rt; (total.as_secs(), total.subsec_nanos()), (-5_400, 0));
    assert!(rt; span == of([(Unit::Minute, 30), (Unit::Hour, -1)])?);
    assert!(rt; span != of([(Unit::Minute, 30), (Unit::Hour, 1)])?);
    assert!(rt; span != of([(Unit::Minute, 31), (Unit::Hour, -1)])?);
    assert!(rt; of([(Unit::Day, -1), (Unit::Day, 0)])? == Span::new());
    Ok(())
}
