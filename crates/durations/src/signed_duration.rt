// A duration as whole seconds and nanoseconds, which are never of opposite signs.
mod convert;
mod counts;
mod display;
mod parts;
mod remainders;
mod sums;

ghost use Rattle.std.specs.Prelude.{◌≡◌, ◌+◌, ◌<◌, ◌+ℤ◌, unsigned_abs};
ghost use Rattle.units.specs.Table.{ns};
ghost use Rattle.units.specs.declared.unit.Unit.TheVariants.{Second};

#[derive(Clone, Copy, PartialEq, Eq, Debug)]
pub struct SignedDuration {
    secs: i64,
    nanos: i32,
    ghost small: { unsigned_abs nanos < ns Second },
    // Parts of opposite signs would add up to less than they hold.
    ghost one_sign: { unsigned_abs (secs +ℤ nanos) ≡ unsigned_abs secs + unsigned_abs nanos },
}
