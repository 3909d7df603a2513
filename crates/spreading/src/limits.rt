// The most that may be kept of each clock unit.
ghost use Rattle.std.specs.Prelude.{◌≡◌, ◌<◌, Decides, MatchOption, slice_index};
ghost use Rattle.units.specs.Limits.{clock_limits, UpTo};

use units::Unit;

// By unit code, in fixed memory, each at most the table's.
#[derive(Clone, Copy)]
pub struct ClockLimits {
    limits: [u64; 6],
    ghost lawful: { UpTo limits clock_limits },
}

// Whether no limit is above the table's.
fn lawful(limits: &[u64; 6]) -> bool
    ensures { Decides result (UpTo limits.now clock_limits) }
{
    let table = ClockLimits::table();
    limits
        .iter()
        .zip(&table.limits)
        .all(|(limit, most)| limit <= most)
}

impl ClockLimits {
    ghost use Rattle.spreading.specs.ClockLimits.{limits_of};

    // The limits of the table.
    pub fn table() -> ClockLimits
        ensures { limits_of result ≡ clock_limits }
    {
        ClockLimits {
            limits: Unit::CLOCK.map(|unit| unit.span_limit()),
        }
    }

    // Limits by unit code, absent exactly when one is above the table's.
    pub fn new(limits: [u64; 6]) -> Option<ClockLimits>
        ensures { MatchOption result (UpTo limits clock_limits → ⊥) (λ l. UpTo limits clock_limits × (limits_of l ≡ limits)) }
    {
        if lawful(&limits) {
            Some(ClockLimits { limits })
        } else {
            None
        }
    }

    // The limit of the clock unit of a code.
    pub(crate) fn at(&self, code: usize) -> u64
        requires { code < 6 }
        ensures { result ≡ slice_index (limits_of self.now) code }
    {
        self.limits[code]
    }
}
