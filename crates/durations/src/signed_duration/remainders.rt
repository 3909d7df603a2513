// Signed durations as a count of a unit, cut toward zero, and what is left.
ghost use Rattle.std.specs.Prelude.{◌*◌, pos, ◌≤ℤ◌, ◌<ℤ◌, unsigned_abs};
ghost use Rattle.units.specs.Table.{ns};
ghost use Rattle.units.specs.declared.unit.Unit.TheVariants.{Microsecond, Millisecond, Second, Minute, Hour};
ghost use Rattle.durations.specs.Totals.{total, Split, Counted, Cuts};

use super::SignedDuration;
use crate::cutting::{cut, times_plus};
use crate::sizes::*;

impl SignedDuration {
    // The units of whole seconds, and what is left.
    fn whole_units(&self, unit: WholeUnit) -> (i64, SignedDuration)
        ensures { Split (unsigned_abs unit.secs * ns Second) (total self.now) result }
    {
        let (count, secs) = cut(self.secs, unit.secs);
        let rest = SignedDuration::of_parts(secs as i64, self.nanos);
        (count, rest)
    }

    // The whole units smaller than a second, and what is left.
    fn fine_units(&self, unit: FineUnit) -> Option<(i64, SignedDuration)>
        ensures { Counted (unsigned_abs unit.nanos) (total self.now) result }
    {
        let (units, nanos) = cut(self.nanos as i64, unit.nanos as i64);
        let count = times_plus(self.secs, unit.per_sec, units)?;
        let rest = SignedDuration::of_parts(0, nanos);
        Some((count, rest))
    }

    // The source's names, each a line over what is above: the whole hours, cut toward zero, and what
    // is left; likewise the next four.
    pub fn as_hours_with_remainder(&self) -> (i64, SignedDuration)
        ensures { Split (ns Hour) (total self.now) result }
    {
        self.whole_units(HOUR)
    }

    pub fn as_mins_with_remainder(&self) -> (i64, SignedDuration)
        ensures { Split (ns Minute) (total self.now) result }
    {
        self.whole_units(MINUTE)
    }

    #[tactic(auto, using(crate::proofs::Parting::cuts))]
    pub fn as_secs_with_remainder(&self) -> (i64, SignedDuration)
        ensures parts { Split (ns Second) (total self.now) result }
        ensures toward_zero { Cuts }
    {
        self.whole_units(SECOND)
    }

    // Absent exactly when the count is no i64, as is the next.
    pub fn as_millis_with_remainder(&self) -> Option<(i64, SignedDuration)>
        ensures { Counted (ns Millisecond) (total self.now) result }
    {
        self.fine_units(MILLISECOND)
    }

    pub fn as_micros_with_remainder(&self) -> Option<(i64, SignedDuration)>
        ensures { Counted (ns Microsecond) (total self.now) result }
    {
        self.fine_units(MICROSECOND)
    }
}
