// The ten units of time, from the smallest to the largest, and their table.
ghost use Rattle.std.specs.Prelude.{◌≡◌, ◌*◌, MatchOption, nat_le};
ghost use Rattle.std.specs.Duration.{as_nanos, FitsDuration};
ghost use Rattle.units.specs.declared.unit.Unit.TheVariants.{Second};
ghost use Rattle.units.specs.Table.{row, code, nanoseconds, ns, span_limit, calendar, unit_of, TableRule};
ghost use Rattle.units.specs.Times.{Lasting};

use std::time::Duration;

#[derive(Clone, Copy, PartialEq, Eq, Debug)]
pub enum Unit {
    Nanosecond,
    Microsecond,
    Millisecond,
    Second,
    Minute,
    Hour,
    Day,
    Week,
    Month,
    Year,
}

// The lengths of the clock units, in nanoseconds.
pub const NANOS_PER_MICRO: u64 = 1_000;

pub const NANOS_PER_MILLI: u64 = 1_000 * NANOS_PER_MICRO;

pub const NANOS_PER_SEC: u64 = 1_000 * NANOS_PER_MILLI;

pub const NANOS_PER_MINUTE: u64 = 60 * NANOS_PER_SEC;

pub const NANOS_PER_HOUR: u64 = 60 * NANOS_PER_MINUTE;

// How many of one clock unit make another.
pub const MICROS_PER_SEC: u64 = NANOS_PER_SEC / NANOS_PER_MICRO;

pub const MILLIS_PER_SEC: u64 = NANOS_PER_SEC / NANOS_PER_MILLI;

pub const SECS_PER_MINUTE: u64 = NANOS_PER_MINUTE / NANOS_PER_SEC;

pub const SECS_PER_HOUR: u64 = NANOS_PER_HOUR / NANOS_PER_SEC;

// What the table says of one unit. A calendar unit has no fixed number of nanoseconds.
#[derive(Clone, Copy)]
struct Row {
    code: u8,
    nanoseconds: Option<u64>,
    span_limit: u64,
}

impl Row {
    const fn new(code: u8, nanoseconds: Option<u64>, span_limit: u64) -> Row
        ensures { result ≡ record { code = code; nanoseconds = nanoseconds; span_limit = span_limit } }
    {
        Row {
            code,
            nanoseconds,
            span_limit,
        }
    }
}

// The time of a count of so many seconds each, absent exactly where no Duration is so long.
fn whole_seconds(count: u64, secs_each: u64) -> Option<Duration>
    ensures { MatchOption result (FitsDuration (count * secs_each * ns Second) → ⊥) (λ d. as_nanos d ≡ count * secs_each * ns Second) }
{
    Some(Duration::from_secs(count.checked_mul(secs_each)?))
}

impl Unit {
    // The units, from the smallest to the largest, so each at its code.
    pub const ALL: [Unit; 10] = [
        Unit::Nanosecond,
        Unit::Microsecond,
        Unit::Millisecond,
        Unit::Second,
        Unit::Minute,
        Unit::Hour,
        Unit::Day,
        Unit::Week,
        Unit::Month,
        Unit::Year,
    ];

    // The clock units, each at its code.
    pub const CLOCK: [Unit; 6] = [
        Unit::Nanosecond,
        Unit::Microsecond,
        Unit::Millisecond,
        Unit::Second,
        Unit::Minute,
        Unit::Hour,
    ];

    fn row(self) -> Row
        ensures { result ≡ row self }
    {
        match self {
            Unit::Nanosecond => Row::new(0, Some(1), 9_223_372_036_854_775_807),
            Unit::Microsecond => Row::new(1, Some(NANOS_PER_MICRO), 631_107_417_600_000_000),
            Unit::Millisecond => Row::new(2, Some(NANOS_PER_MILLI), 631_107_417_600_000),
            Unit::Second => Row::new(3, Some(NANOS_PER_SEC), 631_107_417_600),
            Unit::Minute => Row::new(4, Some(NANOS_PER_MINUTE), 10_518_456_960),
            Unit::Hour => Row::new(5, Some(NANOS_PER_HOUR), 175_307_616),
            Unit::Day => Row::new(6, None, 7_304_484),
            Unit::Week => Row::new(7, None, 1_043_497),
            Unit::Month => Row::new(8, None, 239_976),
            Unit::Year => Row::new(9, None, 19_998),
        }
    }

    // The unit's place in the order of the units, 0 for Nanosecond to 9 for Year.
    pub fn code(self) -> u8
        ensures { result ≡ code self }
    {
        self.row().code
    }

    // The unit of a code, absent above 9. `TryFrom` would want an error, which could say no more.
    #[tactic(auto, using(crate::proofs::Tables::table_rule))]
    pub fn from_code(code: u8) -> Option<Unit>
        ensures unit { result ≡ unit_of code }
        ensures table { TableRule }
    {
        Unit::ALL.get(usize::from(code)).copied()
    }

    // How many nanoseconds a clock unit has, absent for a calendar unit.
    pub fn nanoseconds(self) -> Option<u64>
        ensures { result ≡ nanoseconds self }
    {
        self.row().nanoseconds
    }

    // The largest magnitude that a span holds of this unit.
    pub fn span_limit(self) -> u64
        ensures { result ≡ span_limit self }
    {
        self.row().span_limit
    }

    // Whether the unit's length depends on the calendar: Day and above.
    pub fn is_calendar(self) -> bool
        ensures { result ≡ calendar self }
    {
        self.row().nanoseconds.is_none()
    }

    // The order of the units: whether this one is no larger than the other. The order is no operator.
    pub fn at_most(self, other: Unit) -> bool
        ensures { result ≡ nat_le (code self) (code other) }
    {
        self.code() <= other.code()
    }

    // How long so many of a clock unit last, absent where no Duration is so long, and for a calendar unit.
    pub fn time(self, count: u64) -> Option<Duration>
        ensures { Lasting count self result }
    {
        match self {
            Unit::Nanosecond => Some(Duration::from_nanos(count)),
            Unit::Microsecond => Some(Duration::from_micros(count)),
            Unit::Millisecond => Some(Duration::from_millis(count)),
            Unit::Second => Some(Duration::from_secs(count)),
            Unit::Minute => whole_seconds(count, SECS_PER_MINUTE),
            Unit::Hour => whole_seconds(count, SECS_PER_HOUR),
            Unit::Day | Unit::Week | Unit::Month | Unit::Year => None,
        }
    }
}
