// Spreading, from the largest clock unit to the smallest.
ghost use Rattle.std.specs.Prelude.{◌≡◌, ◌==◌, cond, Some, None};
ghost use Rattle.std.specs.Duration.{as_nanos};
ghost use Rattle.spreading.specs.ClockLimits.{limits_of};
ghost use Rattle.spreading.specs.Laws.{Best, Spreads};
ghost use Rattle.spreading.specs.Spreading.{spread};

use crate::level::Level;
use crate::limits::ClockLimits;
use std::time::Duration;
use units::Unit;

// What stays, absent where time is left over.
fn unless_left_over(kept: [u64; 6], left: Duration) -> Option<[u64; 6]>
    ensures { result ≡ cond (as_nanos left == 0) (Some kept) None }
{
    left.is_zero().then_some(kept)
}

// Spreads the counts of the clock units, by unit code, and a cut fraction in nanoseconds at the
// smallest unit set: the counts that stay, or absence where time is left over. A calendar unit as the
// smallest has no fraction.
pub fn spread(
    counts: &[u64; 6],
    fraction: u64,
    smallest: Unit,
    limits: &ClockLimits,
) -> Option<[u64; 6]>
    ensures value { result ≡ spread (limits_of limits.now) counts.now fraction smallest }
    ensures best { Best (limits_of limits.now) counts.now fraction smallest result }
    ensures laws { Spreads (limits_of limits.now) counts.now fraction smallest }
{
    let levels = Unit::CLOCK.map(|unit| Level::new(unit, counts, fraction, smallest, limits));
    let mut kept = [0; 6];
    let mut passed = Duration::ZERO;
    for (place, level) in levels.iter().enumerate().rev() {
        (kept[place], passed) = level.settle(passed)?;
    }
    unless_left_over(kept, passed)
}
