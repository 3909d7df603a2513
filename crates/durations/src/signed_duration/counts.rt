// Durations from counts of a unit.
ghost use Rattle.std.specs.Prelude.{◌≡◌, ◌*◌, pos, ◌*ℤ◌, ◌<ℤ◌, unsigned_abs};
ghost use Rattle.units.specs.Table.{ns};
ghost use Rattle.units.specs.declared.unit.Unit.TheVariants.{Nanosecond, Microsecond, Millisecond, Second, Minute, Hour};
ghost use Rattle.durations.specs.Totals.{total, Exact};

use super::SignedDuration;
use crate::cutting::cut;
use crate::sizes::*;

impl SignedDuration {
    // So many units smaller than a second.
    fn of_fine_units(count: i64, unit: FineUnit) -> SignedDuration
        ensures { total result ≡ count *ℤ unit.nanos }
    {
        let (secs, rest) = cut(count, unit.per_sec);
        SignedDuration::of_parts(secs, rest * unit.nanos)
    }

    // So many units of whole seconds, absent exactly when no duration lasts so long.
    fn of_whole_units(count: i64, unit: WholeUnit) -> Option<SignedDuration>
        ensures { Exact result (count *ℤ pos (unsigned_abs unit.secs * ns Second)) }
    {
        let secs = count.checked_mul(unit.secs)?;
        Some(SignedDuration::from_secs(secs))
    }

    // From here on the names are the source's, each but the first a line over what is above. Exact,
    // as are the next three.
    pub fn from_secs(secs: i64) -> SignedDuration
        ensures { total result ≡ secs *ℤ pos (ns Second) }
    {
        SignedDuration { secs, nanos: 0 }
    }

    pub fn from_millis(millis: i64) -> SignedDuration
        ensures { total result ≡ millis *ℤ pos (ns Millisecond) }
    {
        SignedDuration::of_fine_units(millis, MILLISECOND)
    }

    pub fn from_micros(micros: i64) -> SignedDuration
        ensures { total result ≡ micros *ℤ pos (ns Microsecond) }
    {
        SignedDuration::of_fine_units(micros, MICROSECOND)
    }

    pub fn from_nanos(nanos: i64) -> SignedDuration
        ensures { total result ≡ nanos *ℤ pos (ns Nanosecond) }
    {
        SignedDuration::of_fine_units(nanos, NANOSECOND)
    }

    // Absent exactly when no duration lasts so long, as is the next.
    pub fn try_from_hours(hours: i64) -> Option<SignedDuration>
        ensures { Exact result (hours *ℤ pos (ns Hour)) }
    {
        SignedDuration::of_whole_units(hours, HOUR)
    }

    pub fn try_from_mins(mins: i64) -> Option<SignedDuration>
        ensures { Exact result (mins *ℤ pos (ns Minute)) }
    {
        SignedDuration::of_whole_units(mins, MINUTE)
    }
}
