// The signed duration as a receiver.
ghost use Rattle.std.specs.Prelude.{◌≡◌, ◌*◌, ◌+ℤ◌};
ghost use Rattle.std.specs.Duration.{as_nanos, FitsDuration};
ghost use Rattle.units.specs.Signs.{signed};
ghost use Rattle.durations.specs.Totals.{total as nanos_total, Exact};
ghost use Rattle.receivers.specs.Keeping.{Keeps};
ghost use Rattle.receivers.specs.Ranges.{signed_ends};
ghost use Rattle.receivers.specs.Takes.{Taken};
ghost use Rattle.std.proofs.Common.{rules};

use crate::judged::*;
use crate::receiver::Receiver;
use crate::unit_count::UnitCount;
use durations::SignedDuration;
use std::time::Duration;
use units::Fault;

// A time under a sign, short enough for a signed duration.
fn with_sign(time: Duration, negative: bool) -> SignedDuration
    requires { FitsDuration (as_nanos time * 2) }
    ensures { nanos_total result ≡ signed negative (as_nanos time) }
{
    let time = SignedDuration::try_from(time).unwrap();
    if negative {
        return time.checked_neg().unwrap();
    }
    time
}

// The duration moved by a signed time, absent exactly when no duration has the sum. The time may
// be none where the sum is, so it comes in halves: each partial sum lies between the first and the last.
fn shifted(before: SignedDuration, time: Duration, negative: bool) -> Option<SignedDuration>
    ensures { Exact result (nanos_total before +ℤ signed negative (as_nanos time)) }
{
    let part = time / 2;
    let half = with_sign(part, negative);
    let first = before.checked_add(half)?;
    let second = first.checked_add(half)?;
    second.checked_add(with_sign(time - part - part, negative))
}

fn moved(before: SignedDuration, count: UnitCount, negative: bool) -> Option<SignedDuration>
    ensures { Keeps nanos_total signed_ends (nanos_total before) (signed negative count.magnitude) count.unit result }
{
    shifted(before, count.unit.time(count.magnitude)?, negative)
}

impl Receiver for SignedDuration {
    ghost total = { nanos_total };

    ghost ends = { λ _. signed_ends };

    ghost zero = { Prim.search rules };

    fn taken(&self, count: UnitCount, negative: bool) -> Result<SignedDuration, Fault>
        ensures { Taken nanos_total signed_ends (nanos_total self.now) (signed negative count.magnitude) count.unit result }
    {
        let counted = fits_i64(count.magnitude, negative);
        judged(count.unit, counted, moved(*self, count, negative))
    }

    fn takes_negative(&self) -> bool {
        true
    }

    fn renewed(&self) -> SignedDuration {
        SignedDuration::from_secs(0)
    }
}
