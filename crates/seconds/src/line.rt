// One line of seconds.
ghost use Rattle.std.specs.Prelude.{◌^◌, ◌<◌};
ghost use Rattle.digits.specs.Numbers.{temporal_fraction};
ghost use Rattle.seconds.specs.Laws.{Reads};
ghost use Rattle.seconds.specs.Seconds.{Is, seconds, with_fraction};

use digits::{parse_temporal_fraction, u64_prefix};
use durations::SignedDuration;
use std::time::Duration;
use units::{Fault, Unit};

// The rest of a line after its number.
fn with_fraction(secs: u64, rest: &[u8]) -> Result<SignedDuration, Fault>
    requires { secs < 2 ^ 63 }
    ensures { Is result (with_fraction secs (temporal_fraction rest.now)) }
{
    let (fraction, after) = parse_temporal_fraction(rest)?;
    if !after.is_empty() {
        return Err(Fault::WrongDesignator);
    }
    let time = Duration::new(secs, fraction.unwrap_or(0));
    Ok(SignedDuration::try_from(time).unwrap())
}

// The time that a line of seconds says.
pub fn read_seconds(line: &[u8]) -> Result<SignedDuration, Fault>
    ensures answer { Is result (seconds line.now) }
    ensures law { Reads line.now (seconds line.now) }
{
    let (Some(number), rest) = u64_prefix(line)? else {
        return Err(Fault::MissingNumber);
    };
    if number > i64::MAX as u64 {
        return Err(Fault::SignedOverflowForUnit { unit: Unit::Second });
    }
    with_fraction(number, rest)
}
