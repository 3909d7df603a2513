// The time of a span's clock units, exact in nanoseconds. It always fits: the limits are far below
// what a duration holds.
ghost use Rattle.std.specs.Prelude.{◌≡◌, ◌*◌, false, slice_index};
ghost use Rattle.std.specs.Duration.{as_nanos, FitsDuration};
ghost use Rattle.units.specs.Table.{ns, code, calendar};
ghost use Rattle.units.specs.Times.{time_from};
ghost use Rattle.durations.specs.Totals.{total};
ghost use Rattle.spans.specs.Spans.{clock_total};

use super::Span;
use durations::SignedDuration;
use std::time::Duration;
use units::{Sign, Unit};

impl Span {
    // The time of one clock unit, less than a twelfth of what a Duration holds.
    fn time(&self, unit: Unit) -> Duration
        requires { calendar unit ≡ false }
        ensures value { as_nanos result ≡ slice_index self.now.magnitudes (code unit) * ns unit }
        ensures short { FitsDuration (as_nanos result * 12) }
    {
        unit.time(self.magnitude(unit)).unwrap()
    }

    // The time of all clock units, without the sign: less than half of what a Duration holds. Six
    // terms, since an iterator's sum is not found to fit.
    fn clock_time(&self) -> Duration
        ensures value { as_nanos result ≡ time_from 0 self.now.magnitudes }
        ensures short { FitsDuration (as_nanos result * 2) }
    {
        self.time(Unit::Hour)
            + self.time(Unit::Minute)
            + self.time(Unit::Second)
            + self.time(Unit::Millisecond)
            + self.time(Unit::Microsecond)
            + self.time(Unit::Nanosecond)
    }

    // The time of all clock units, with the sign.
    pub fn clock_total(&self) -> SignedDuration
        ensures { total result ≡ clock_total self.now }
    {
        let time = SignedDuration::try_from(self.clock_time()).unwrap();
        match self.sign {
            Sign::Negative => time.checked_neg().unwrap(),
            Sign::Zero | Sign::Positive => time,
        }
    }
}
