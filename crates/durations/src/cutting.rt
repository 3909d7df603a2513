// Counts cut by a size, and put together again.
ghost use Rattle.std.specs.Prelude.{◌≡◌, ◌+◌, ◌<◌, pos, ◌+ℤ◌, ◌*ℤ◌, ◌≤ℤ◌, ◌<ℤ◌, MatchOption, int_div, int_rem, unsigned_abs};
ghost use Rattle.units.specs.Table.{ns};
ghost use Rattle.units.specs.declared.unit.Unit.TheVariants.{Second};
ghost use Rattle.durations.specs.Totals.{Count};

// The whole parts of a size in a count, cut toward zero, and what is left of the count.
pub(crate) fn cut(count: i64, size: i64) -> (i64, i32)
    requires { (pos 0 <ℤ size) × (size ≤ℤ pos (ns Second)) }
    ensures whole { result.0 ≡ int_div count size }
    ensures rest { result.1 ≡ int_rem count size }
    ensures short { unsigned_abs result.1 < unsigned_abs size }
{
    (count / size, (count % size) as i32)
}

// A product and a number of its sign added up, absent exactly when the sum is no i64.
pub(crate) fn times_plus(count: i64, size: i64, more: i64) -> Option<i64>
    ensures { MatchOption result (unsigned_abs (count *ℤ size +ℤ more) ≡ unsigned_abs (count *ℤ size) + unsigned_abs more → Count (count *ℤ size +ℤ more) → ⊥) (λ sum. Count sum × (sum ≡ count *ℤ size +ℤ more)) }
{
    count.checked_mul(size)?.checked_add(more)
}
