// One clock unit of the time that is spread.
ghost use Rattle.std.specs.Prelude.{◌≡◌, ◌+◌, ◌-◌, ◌*◌, ◌/◌, ◌≤◌, min, false, MatchOption};
ghost use Rattle.std.specs.Duration.{as_nanos, FitsDuration};
ghost use Rattle.units.specs.Table.{ns, calendar};

use crate::limits::ClockLimits;
use std::time::Duration;
use units::{MICROS_PER_SEC, MILLIS_PER_SEC, NANOS_PER_SEC, SECS_PER_HOUR, SECS_PER_MINUTE, Unit};

// A clock unit with its count, the cut fraction that counts there, and the most that may stay.
#[derive(Clone, Copy)]
pub(crate) struct Level {
    unit: Unit,
    count: u64,
    fraction: u64,
    limit: u64,
    ghost clock: { calendar unit ≡ false },
}

// The parts of seconds and a rest, at most the limit.
fn parts(secs: u64, per_sec: u64, rest: u32, limit: u64) -> u64
    ensures { result ≡ min (secs * per_sec + rest) limit }
{
    secs.saturating_mul(per_sec)
        .saturating_add(u64::from(rest))
        .min(limit)
}

impl Level {
    ghost use Rattle.spreading.specs.ClockLimits.{limits_of};
    ghost use Rattle.spreading.specs.Spreading.{level};
    ghost use Rattle.spreading.specs.Steps.{seen, Settles};

    // What is written at a clock unit, and its limit. The cut fraction is written at the smallest unit set.
    pub(crate) fn new(
        unit: Unit,
        counts: &[u64; 6],
        fraction: u64,
        smallest: Unit,
        limits: &ClockLimits,
    ) -> Level
        requires { calendar unit ≡ false }
        ensures { seen result ≡ level (limits_of limits.now) counts.now fraction smallest unit }
    {
        let code = usize::from(unit.code());
        Level {
            unit,
            count: counts[code],
            fraction: if unit == smallest { fraction } else { 0 },
            limit: limits.at(code),
        }
    }

    // The time at the unit: what is written there and what came from above. Absent exactly where no
    // Duration is so long.
    fn time(self, came: Duration) -> Option<Duration>
        ensures { MatchOption result (FitsDuration ((seen self).written + as_nanos came) → ⊥) (λ d. as_nanos d ≡ (seen self).written + as_nanos came) }
    {
        let counted = self.unit.time(self.count)?;
        let written = counted.checked_add(Duration::from_nanos(self.fraction))?;
        written.checked_add(came)
    }

    // The whole units in a time, at most the limit.
    fn whole_units(self, time: Duration) -> u64
        ensures value { result ≡ min (as_nanos time / ns self.unit) self.limit }
        ensures inside { result * ns self.unit ≤ as_nanos time }
    {
        let secs = time.as_secs();
        match self.unit {
            Unit::Nanosecond => parts(secs, NANOS_PER_SEC, time.subsec_nanos(), self.limit),
            Unit::Microsecond => parts(secs, MICROS_PER_SEC, time.subsec_micros(), self.limit),
            Unit::Millisecond => parts(secs, MILLIS_PER_SEC, time.subsec_millis(), self.limit),
            Unit::Second => secs.min(self.limit),
            Unit::Minute => (secs / SECS_PER_MINUTE).min(self.limit),
            Unit::Hour => (secs / SECS_PER_HOUR).min(self.limit),
            Unit::Day | Unit::Week | Unit::Month | Unit::Year => unreachable!(),
        }
    }

    // A time less so many of the unit.
    fn without(self, time: Duration, count: u64) -> Duration
        requires { count * ns self.unit ≤ as_nanos time }
        ensures { as_nanos result ≡ as_nanos time - count * ns self.unit }
    {
        time - self.unit.time(count).unwrap()
    }

    // One step: the whole units that stay, and the time that goes on. Absent exactly where no
    // Duration is as long as the time there.
    pub(crate) fn settle(self, came: Duration) -> Option<(u64, Duration)>
        ensures { Settles ((seen self).written + as_nanos came) (ns self.unit) self.limit result }
    {
        let time = self.time(came)?;
        let whole = self.whole_units(time);
        Some((whole, self.without(time, whole)))
    }
}
