// A span: a magnitude for each unit, by unit code, one sign for all, and the units that are not 0.
mod clock;
mod equality;
mod parts;
mod setters;

ghost use Rattle.std.specs.Prelude.{◌≡◌};
ghost use Rattle.units.specs.Limits.{span_limits, UpTo};
ghost use Rattle.spans.specs.Bits.{bits_of, number};
ghost use Rattle.spans.specs.Magnitudes.{all_zero, is_zero};

use crate::unit_set::UnitSet;
use units::Sign;

#[derive(Clone, Copy, Debug)]
pub struct Span {
    magnitudes: [u64; 10],
    sign: Sign,
    units: UnitSet,
    // What every span keeps; callers learn it from `units`.
    ghost within: { UpTo magnitudes span_limits },
    ghost told: { number units ≡ bits_of magnitudes },
    ghost signed: { is_zero sign ≡ all_zero magnitudes },
}
