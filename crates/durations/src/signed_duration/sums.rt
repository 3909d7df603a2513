// Sums and negation of signed durations.
ghost use Rattle.std.specs.Prelude.{◌≡◌, ◌*◌, ◌^◌, ◌<◌, pos, ◌+ℤ◌, ◌*ℤ◌, neg_ℤ, None, unsigned_abs};
ghost use Rattle.units.specs.Table.{ns};
ghost use Rattle.units.specs.declared.unit.Unit.TheVariants.{Second};
ghost use Rattle.durations.specs.Totals.{total, Exact};

use super::SignedDuration;
use crate::cutting::cut;

const NANOS_PER_SEC: i32 = units::NANOS_PER_SEC as i32;

impl SignedDuration {
    // Seconds and less than one more second, brought to one sign.
    pub(super) fn of_parts(secs: i64, nanos: i32) -> SignedDuration
        requires { unsigned_abs nanos < ns Second }
        ensures { total result ≡ secs *ℤ pos (ns Second) +ℤ nanos }
    {
        if secs > 0 && nanos < 0 {
            return SignedDuration {
                secs: secs - 1,
                nanos: nanos + NANOS_PER_SEC,
            };
        }
        if secs < 0 && nanos > 0 {
            return SignedDuration {
                secs: secs + 1,
                nanos: nanos - NANOS_PER_SEC,
            };
        }
        SignedDuration { secs, nanos }
    }

    // Seconds and nanoseconds of any size; absent exactly when no duration lasts so long.
    fn balanced(secs: i64, nanos: i32) -> Option<SignedDuration>
        ensures { Exact result (secs *ℤ pos (ns Second) +ℤ nanos) }
    {
        let (carry, rest) = cut(nanos as i64, NANOS_PER_SEC as i64);
        let secs = secs.checked_add(carry)?;
        Some(SignedDuration::of_parts(secs, rest))
    }

    // The exact sum, absent exactly when no duration lasts so long.
    pub fn checked_add(self, rhs: SignedDuration) -> Option<SignedDuration>
        ensures { Exact result (total self +ℤ total rhs) }
    {
        let secs = self.secs.checked_add(rhs.secs)?;
        SignedDuration::balanced(secs, self.nanos + rhs.nanos)
    }

    // The same time with the other sign, absent exactly at -2^63 seconds, with or without nanoseconds.
    pub fn checked_neg(self) -> Option<SignedDuration>
        ensures value { Exact result (neg_ℤ (total self)) }
        ensures absent { (result ≡ None → self.secs ≡ neg_ℤ (pos (2 ^ 63))) × (self.secs ≡ neg_ℤ (pos (2 ^ 63)) → result ≡ None) }
    {
        let secs = self.secs.checked_neg()?;
        Some(SignedDuration::of_parts(secs, -self.nanos))
    }
}
