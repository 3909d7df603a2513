// The setters of a span: each takes a span and a value at one unit, and gives the span with it.
ghost use Rattle.std.specs.Prelude.{◌≡◌, ◌<◌, ◌≤◌, MatchResult, unsigned_abs};
ghost use Rattle.units.specs.Table.{span_limit};
ghost use Rattle.units.specs.declared.fault.Fault.TheVariants.{SpanLimitPassed};
ghost use Rattle.units.specs.declared.unit.Unit.TheVariants.{Nanosecond, Microsecond, Millisecond, Second, Minute, Hour, Day, Week, Month, Year};
ghost use Rattle.spans.specs.Magnitudes.{sign_after};
ghost use Rattle.spans.specs.Spans.{Sets};

use super::Span;
use crate::unit_set::place;
use units::{Fault, Sign, Unit};

// The magnitude of a value, refused past the unit's limit.
fn limited(unit: Unit, value: i64) -> Result<u64, Fault>
    ensures { MatchResult result (λ m. (m ≡ unsigned_abs value) × (m ≤ span_limit unit)) (λ f. (f ≡ SpanLimitPassed) × (span_limit unit < unsigned_abs value)) }
{
    let magnitude = value.unsigned_abs();
    if magnitude > unit.span_limit() {
        return Err(Fault::SpanLimitPassed);
    }
    Ok(magnitude)
}

// A value below 0 turns the whole span Negative. Any other keeps the sign, except from or to a zero span.
fn sign_after(sign: Sign, all_zero: bool, value: i64) -> Sign
    ensures { result ≡ sign_after sign all_zero value }
{
    if value < 0 {
        return Sign::Negative;
    }
    if all_zero {
        return Sign::Zero;
    }
    match sign {
        Sign::Negative => Sign::Negative,
        Sign::Zero | Sign::Positive => Sign::Positive,
    }
}

impl Span {
    fn try_unit(self, unit: Unit, value: i64) -> Result<Span, Fault>
        ensures { Sets self unit value result }
    {
        let magnitude = limited(unit, value)?;
        let mut magnitudes = self.magnitudes;
        magnitudes[place(unit)] = magnitude;
        let units = self.units.set(unit, magnitude != 0);
        let sign = sign_after(self.sign, units.is_empty(), value);
        Ok(Span {
            magnitudes,
            sign,
            units,
        })
    }

    // The source's names, each a line over the setter of any unit.
    pub fn try_years(self, years: i64) -> Result<Span, Fault>
        ensures { Sets self Year years result }
    {
        self.try_unit(Unit::Year, years)
    }

    pub fn try_months(self, months: i64) -> Result<Span, Fault>
        ensures { Sets self Month months result }
    {
        self.try_unit(Unit::Month, months)
    }

    pub fn try_weeks(self, weeks: i64) -> Result<Span, Fault>
        ensures { Sets self Week weeks result }
    {
        self.try_unit(Unit::Week, weeks)
    }

    pub fn try_days(self, days: i64) -> Result<Span, Fault>
        ensures { Sets self Day days result }
    {
        self.try_unit(Unit::Day, days)
    }

    pub fn try_hours(self, hours: i64) -> Result<Span, Fault>
        ensures { Sets self Hour hours result }
    {
        self.try_unit(Unit::Hour, hours)
    }

    pub fn try_minutes(self, minutes: i64) -> Result<Span, Fault>
        ensures { Sets self Minute minutes result }
    {
        self.try_unit(Unit::Minute, minutes)
    }

    pub fn try_seconds(self, seconds: i64) -> Result<Span, Fault>
        ensures { Sets self Second seconds result }
    {
        self.try_unit(Unit::Second, seconds)
    }

    pub fn try_milliseconds(self, milliseconds: i64) -> Result<Span, Fault>
        ensures { Sets self Millisecond milliseconds result }
    {
        self.try_unit(Unit::Millisecond, milliseconds)
    }

    pub fn try_microseconds(self, microseconds: i64) -> Result<Span, Fault>
        ensures { Sets self Microsecond microseconds result }
    {
        self.try_unit(Unit::Microsecond, microseconds)
    }

    pub fn try_nanoseconds(self, nanoseconds: i64) -> Result<Span, Fault>
        ensures { Sets self Nanosecond nanoseconds result }
    {
        self.try_unit(Unit::Nanosecond, nanoseconds)
    }
}
