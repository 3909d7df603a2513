// What takes counts of time and keeps their total.
ghost use Rattle.std.specs.Prelude.{◌≡◌, ℤ, pos, IfOk, int_lt};
ghost use Rattle.units.specs.Signs.{signed};
ghost use Rattle.receivers.specs.Takes.{Ends, ContainsZero, Taken, Takes, answer};

use crate::unit_count::UnitCount;
use units::Fault;

pub trait Receiver: Sized + Drop {
    // The total, in whole nanoseconds.
    ghost total: { Self → ℤ };

    // The lowest and highest total, and the lowest and highest count.
    ghost ends: { Self → Ends };

    // The receiver after a count, or the first refusal that applies: 8, a calendar unit; 9, a signed
    // count out of range; 10, a total out of range. The sign stands apart, since one holds for many
    // counts.
    fn taken(&self, count: UnitCount, negative: bool) -> Result<Self, Fault>
        ensures taken { Taken total (ends self.now) (total self.now) (signed negative count.magnitude) count.unit result }
        ensures ends { IfOk result (λ r. ends r ≡ ends self.now) };

    // Takes a count, or refuses it and stays as it was.
    fn take(&mut self, count: UnitCount, negative: bool) -> Result<(), Fault>
        ensures { Takes (ends self.old) (total self.old) (signed negative count.magnitude) count.unit result (ends self.new) (total self.new) }
    {
        *self = self.taken(count, negative)?;
        Ok(())
    }

    // What such a take would answer.
    fn would_take(&self, count: UnitCount, negative: bool) -> Result<(), Fault>
        ensures { result ≡ answer (ends self.now) (total self.now) (signed negative count.magnitude) count.unit }
    {
        self.taken(count, negative)?;
        Ok(())
    }

    // Whether the lowest total is below 0.
    fn takes_negative(&self) -> bool
        ensures { result ≡ int_lt (ends self.now).lowest_total (pos 0) };

    // A new receiver with the same ends.
    fn renewed(&self) -> Self
        ensures total { total result ≡ pos 0 }
        ensures ends { ends result ≡ ends self.now };

    ghost zero: { (r : Self) → ContainsZero (ends r) };
}
