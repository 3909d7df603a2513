// A duration as text: `-` if it is negative, whole seconds, a point and nine digits.
ghost use Rattle.std.specs.Prelude.{Some};
ghost use Rattle.durations.specs.Shown.{shown};
ghost use Rattle.durations.specs.Totals.{total};

use super::SignedDuration;
use std::fmt;

impl fmt::Display for SignedDuration {
    ghost output = { λ d. Some (shown (total d)) };

    fn fmt<W: fmt::Write>(&self, f: &mut fmt::Formatter<W>) -> fmt::Result {
        let sign = if self.is_negative() { "-" } else { "" };
        let secs = self.secs.unsigned_abs();
        let nanos = self.nanos.unsigned_abs();
        write!(f, "{sign}{secs}.{nanos:09}")
    }
}
