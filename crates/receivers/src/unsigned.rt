// The library's unsigned duration as a receiver.
ghost use Rattle.std.specs.Prelude.{Bool};
ghost use Rattle.units.specs.Signs.{signed};
ghost use Rattle.receivers.specs.Keeping.{Keeps};
ghost use Rattle.receivers.specs.Ranges.{unsigned_ends, unsigned_total};
ghost use Rattle.receivers.specs.Takes.{Taken};
ghost use Rattle.std.proofs.Common.{rules};

use crate::judged::judged;
use crate::receiver::Receiver;
use crate::unit_count::UnitCount;
use std::time::Duration;
use units::Fault;

// Under either mark, since of the negative counts only 0 is in range.
fn moved(before: Duration, count: UnitCount) -> Option<Duration>
    ensures { (negative : Bool) → Keeps unsigned_total unsigned_ends (unsigned_total before) (signed negative count.magnitude) count.unit result }
{
    before.checked_add(count.unit.time(count.magnitude)?)
}

impl Receiver for Duration {
    ghost total = { unsigned_total };

    ghost ends = { λ _. unsigned_ends };

    ghost zero = { Prim.search rules };

    fn taken(&self, count: UnitCount, negative: bool) -> Result<Duration, Fault>
        ensures { Taken unsigned_total unsigned_ends (unsigned_total self.now) (signed negative count.magnitude) count.unit result }
    {
        let counted = !negative || count.magnitude == 0;
        judged(count.unit, counted, moved(*self, count))
    }

    fn takes_negative(&self) -> bool {
        false
    }

    fn renewed(&self) -> Duration {
        Duration::ZERO
    }
}
