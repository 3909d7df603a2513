// Signed durations from unsigned ones.
ghost use Rattle.std.specs.Prelude.{pos};
ghost use Rattle.std.specs.Duration.{as_nanos};
ghost use Rattle.std.specs.Result.{result_ok};
ghost use Rattle.durations.specs.Totals.{Exact};

use super::SignedDuration;
use std::num::TryFromIntError;
use std::time::Duration;

impl TryFrom<Duration> for SignedDuration {
    type Error = TryFromIntError;

    // Refused exactly when the seconds are no i64.
    ghost try_from_gives = { λ time result. Exact (result_ok result) (pos (as_nanos time)) };

    fn try_from(time: Duration) -> Result<SignedDuration, TryFromIntError> {
        let secs = i64::try_from(time.as_secs())?;
        Ok(SignedDuration {
            secs,
            nanos: time.subsec_nanos() as i32,
        })
    }
}
