// A receiver that counts nanoseconds in an i64.
ghost use Rattle.std.specs.Prelude.{◌≡◌, pos};
ghost use Rattle.units.specs.Signs.{signed};
ghost use Rattle.receivers.specs.Keeping.{Keeps};
ghost use Rattle.receivers.specs.Ranges.{run_ends, run_total};
ghost use Rattle.receivers.specs.Takes.{Taken};
ghost use Rattle.std.proofs.Common.{rules};

use crate::judged::*;
use crate::receiver::Receiver;
use crate::unit_count::UnitCount;
use units::Fault;

#[derive(Clone, Copy)]
pub struct RunCounter {
    nanos: i64,
}

impl RunCounter {
    // A counter that has counted nothing.
    pub fn new() -> RunCounter
        ensures { run_total result ≡ pos 0 }
    {
        RunCounter { nanos: 0 }
    }

    // The nanoseconds counted.
    pub fn as_nanos(&self) -> i64
        ensures { result ≡ run_total self.now }
    {
        self.nanos
    }

    fn moved(self, count: UnitCount, negative: bool) -> Option<RunCounter>
        ensures { Keeps run_total run_ends (run_total self) (signed negative count.magnitude) count.unit result }
    {
        let size = count.magnitude.checked_mul(count.unit.nanoseconds()?)?;
        let nanos = plus_signed(self.nanos, size, negative)?;
        Some(RunCounter { nanos })
    }
}

impl Receiver for RunCounter {
    ghost total = { run_total };

    ghost ends = { λ _. run_ends };

    ghost zero = { Prim.search rules };

    fn taken(&self, count: UnitCount, negative: bool) -> Result<RunCounter, Fault>
        ensures { Taken run_total run_ends (run_total self.now) (signed negative count.magnitude) count.unit result }
    {
        let counted = fits_i64(count.magnitude, negative);
        judged(count.unit, counted, self.moved(count, negative))
    }

    fn takes_negative(&self) -> bool {
        true
    }

    fn renewed(&self) -> RunCounter {
        RunCounter::new()
    }
}
