// What the receivers of this crate share.
ghost use Rattle.std.specs.Prelude.{◌≡◌, ℤ, ◌+ℤ◌, FitsSigned};
ghost use Rattle.std.specs.Int.{w64};
ghost use Rattle.std.specs.Option.{SomeIff};
ghost use Rattle.units.specs.Signs.{signed, within};
ghost use Rattle.receivers.specs.Keeping.{Keeps};
ghost use Rattle.receivers.specs.Ranges.{run_ends};
ghost use Rattle.receivers.specs.Takes.{Ends, Taken};

use units::{Fault, Unit};

// What is kept after a take, or the first refusal that applies: for whatever total and ends these
// two answers, whether the count is in range and what would be kept, are right.
pub(crate) fn judged<T: Drop>(unit: Unit, counted: bool, kept: Option<T>) -> Result<T, Fault>
    ensures { (total : T → ℤ) (e : Ends) (t z : ℤ) → counted ≡ within e.lowest_count e.highest_count z → Keeps total e t z unit kept → Taken total e t z unit result }
{
    if unit.is_calendar() {
        return Err(Fault::NotAllowedCalendarUnit { unit });
    }
    if !counted {
        return Err(Fault::SignedOverflowForUnit { unit });
    }
    kept.ok_or(Fault::OverflowForUnit { unit })
}

// A number moved by a signed size, absent exactly when the sum is no i64.
pub(crate) fn plus_signed(number: i64, size: u64, negative: bool) -> Option<i64>
    ensures { SomeIff result (FitsSigned w64 (number +ℤ signed negative size)) (number +ℤ signed negative size) }
{
    if negative {
        return number.checked_sub_unsigned(size);
    }
    number.checked_add_unsigned(size)
}

// Whether a signed magnitude is an i64.
pub(crate) fn fits_i64(magnitude: u64, negative: bool) -> bool
    ensures { result ≡ within run_ends.lowest_count run_ends.highest_count (signed negative magnitude) }
{
    plus_signed(0, magnitude, negative).is_some()
}
