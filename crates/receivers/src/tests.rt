use crate::*;
use durations::SignedDuration;
use std::process::Abort;
use std::time::Duration;
use units::Unit::{Day, Hour, Minute, Nanosecond, Second};
use units::{Fault, Unit};

const TWO_TO_63: u64 = 1 << 63;

// A refusal by its number.
fn numbered(answer: Result<(), Fault>) -> Result<(), u8> {
    answer.map_err(|fault| fault.number())
}

fn of(magnitude: u64, unit: Unit) -> UnitCount {
    UnitCount { magnitude, unit }
}

// Offers counts in turn, each with its answer, a refusal by its number, and asks for that answer before.
fn offer<R: Receiver>(
    rt: &impl Abort,
    mut receiver: R,
    offers: &[(UnitCount, bool, Result<(), u8>)],
) -> R {
    for &(count, negative, answer) in offers {
        assert_eq!(rt; numbered(receiver.would_take(count, negative)), answer);
        assert_eq!(rt; numbered(receiver.take(count, negative)), answer);
    }
    receiver
}

// From the highest total to the lowest, one past each end; 8 before 9 before 10.
#[test]
fn run_counter(rt: HostRuntime) {
    let highest = offer(
        &rt,
        RunCounter::new(),
        &[
            (of(TWO_TO_63, Nanosecond), false, Err(9)),
            (of(TWO_TO_63 + 1, Nanosecond), true, Err(9)),
            (of(TWO_TO_63, Hour), false, Err(9)),
            (of(u64::MAX, Day), false, Err(8)),
            (of(2_562_048, Hour), false, Err(10)),
            (of(TWO_TO_63 - 1, Nanosecond), false, Ok(())),
            (of(1, Nanosecond), false, Err(10)),
        ],
    );
    assert_eq!(rt; highest.as_nanos(), i64::MAX);
    let lowest = offer(
        &rt,
        highest,
        &[
            (of(TWO_TO_63, Nanosecond), true, Ok(())),
            (of(TWO_TO_63 - 1, Nanosecond), true, Ok(())),
            (of(1, Nanosecond), true, Err(10)),
        ],
    );
    assert_eq!(rt; lowest.as_nanos(), i64::MIN);
    assert!(rt; lowest.takes_negative());
    assert_eq!(rt; lowest.renewed().as_nanos(), 0);
}

// The last step down is longer than any duration.
#[test]
fn signed(rt: HostRuntime) {
    let highest = offer(
        &rt,
        SignedDuration::from_secs(0),
        &[
            (of(TWO_TO_63, Nanosecond), false, Err(9)),
            (of(TWO_TO_63 + 1, Nanosecond), true, Err(9)),
            (of(1, Day), false, Err(8)),
            (of(TWO_TO_63, Nanosecond), true, Ok(())),
            (of(TWO_TO_63 - 1, Nanosecond), false, Ok(())),
            (of(1, Nanosecond), false, Ok(())),
            (of(TWO_TO_63 - 1, Second), false, Ok(())),
            (of(999_999_999, Nanosecond), false, Ok(())),
            (of(1, Nanosecond), false, Err(10)),
        ],
    );
    assert_eq!(rt;
        (highest.as_secs(), highest.subsec_nanos()),
        (i64::MAX, 999_999_999)
    );
    let lowest = offer(
        &rt,
        highest,
        &[
            (of(TWO_TO_63, Hour), true, Err(10)),
            (of(5_124_095_576_030_431, Hour), true, Ok(())),
            (of(16, Second), true, Ok(())),
            (of(999_999_998, Nanosecond), true, Ok(())),
            (of(1, Nanosecond), true, Err(10)),
        ],
    );
    assert_eq!(rt;
        (lowest.as_secs(), lowest.subsec_nanos()),
        (i64::MIN, -999_999_999)
    );
    assert!(rt; lowest.takes_negative());
    assert!(rt; lowest.renewed().is_zero());
}

// Of the negative counts only 0 is taken.
#[test]
fn unsigned(rt: HostRuntime) {
    let highest = offer(
        &rt,
        Duration::ZERO,
        &[
            (of(1, Nanosecond), true, Err(9)),
            (of(0, Nanosecond), true, Ok(())),
            (of(0, Day), true, Err(8)),
            (of(5_124_095_576_030_432, Hour), false, Err(10)),
            (of(307_445_734_561_825_861, Minute), false, Err(10)),
            (of(u64::MAX, Second), false, Ok(())),
            (of(999_999_999, Nanosecond), false, Ok(())),
            (of(1, Nanosecond), false, Err(10)),
        ],
    );
    assert_eq!(rt;
        (highest.as_secs(), highest.subsec_nanos()),
        (u64::MAX, 999_999_999)
    );
    assert!(rt; !highest.takes_negative());
    assert_eq!(rt; highest.renewed().as_secs(), 0);
}

// Counts of one sign: the sum, or the first refusal.
#[test]
fn sums(rt: HostRuntime) {
    let like = RunCounter::new();
    let counts = [
        of(1, Hour),
        of(30, Minute),
        of(TWO_TO_63, Nanosecond),
        of(1, Day),
    ];
    let cases = [
        (0, false, Ok(0)),
        (2, false, Ok(5_400_000_000_000)),
        (2, true, Ok(-5_400_000_000_000)),
        (3, false, Err(9)),
        (3, true, Err(10)),
        (4, true, Err(10)),
    ];
    for (count, negative, expected) in cases {
        let answer = take_all(&like, &counts[0..count], negative)
            .map(|counter| counter.as_nanos())
            .map_err(|fault| fault.number());
        assert_eq!(rt; answer, expected);
    }
}
