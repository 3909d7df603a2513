// The parts of a signed duration.
ghost use Rattle.std.specs.Prelude.{◌≡◌, pos, Decides, int_div, int_lt, int_rem};
ghost use Rattle.units.specs.Table.{ns};
ghost use Rattle.units.specs.declared.unit.Unit.TheVariants.{Second};
ghost use Rattle.durations.specs.Totals.{total, Fits, OneSide};

use super::SignedDuration;

impl SignedDuration {
    // The whole seconds, cut toward zero.
    pub fn as_secs(&self) -> i64
        ensures value { result ≡ int_div (total self.now) (pos (ns Second)) }
        ensures range { Fits (total self.now) }
    {
        self.secs
    }

    // The nanoseconds besides the whole seconds, of the same sign.
    pub fn subsec_nanos(&self) -> i32
        ensures value { result ≡ int_rem (total self.now) (pos (ns Second)) }
        ensures side { OneSide (int_div (total self.now) (pos (ns Second))) result }
    {
        self.nanos
    }

    pub fn is_zero(&self) -> bool
        ensures { Decides result (total self.now ≡ pos 0) }
    {
        self.as_secs() == 0 && self.subsec_nanos() == 0
    }

    pub fn is_negative(&self) -> bool
        ensures { result ≡ int_lt (total self.now) (pos 0) }
    {
        self.as_secs() < 0 || self.subsec_nanos() < 0
    }
}
