use crate::*;
use std::test::Fail;
use units::Unit;
use units::Unit::{Hour, Microsecond, Minute, Year};

// By unit code, so from the smallest to the largest, a cut fraction and its unit.
#[test]
fn spreads(rt: HostRuntime) {
    let limits = ClockLimits::table();
    let most = 640_330_789_636_854_775;
    let micros = 631_107_417_600_000_000;
    let cases = [
        ([0; 6], 0, Hour, Some([0; 6])),
        (
            [0, 0, 0, 0, 5, 175_307_617],
            0,
            Minute,
            Some([0, 0, 0, 0, 65, 175_307_616]),
        ),
        (
            [0, most, 0, 0, 0, 0],
            0,
            Microsecond,
            Some([9_223_372_036_854_775_000, micros, 0, 0, 0, 0]),
        ),
        ([0, most + 1, 0, 0, 0, 0], 0, Microsecond, None),
        (
            [0, most, 0, 0, 0, 0],
            800,
            Microsecond,
            Some([9_223_372_036_854_775_800, micros, 0, 0, 0, 0]),
        ),
        ([0, most, 0, 0, 0, 0], 900, Microsecond, None),
        (
            [0, most, 0, 0, 0, 0],
            900,
            Year,
            Some([9_223_372_036_854_775_000, micros, 0, 0, 0, 0]),
        ),
        (
            [0, 0, 0, 0, 1, 0],
            30_000_000_000,
            Minute,
            Some([0, 0, 0, 30, 1, 0]),
        ),
        ([u64::MAX; 6], u64::MAX, Hour, None),
    ];
    for (counts, fraction, smallest, kept) in cases {
        assert_eq!(rt; spread(&counts, fraction, smallest, &limits), kept);
    }
}

// The largest count of each unit that spreads alone, and one more.
#[test]
fn largest_alone(rt: HostRuntime) {
    let limits = ClockLimits::table();
    let largest = [
        9_223_372_036_854_775_807,
        640_330_789_636_854_775,
        1_271_438_207_236_854,
        1_902_545_624_836,
        42_227_550_707,
        879_100_127,
    ];
    for (place, count) in largest.iter().enumerate() {
        let mut counts = [0; 6];
        counts[place] = *count;
        assert!(rt; spread(&counts, 0, Hour, &limits).is_some());
        counts[place] += 1;
        assert!(rt; spread(&counts, 0, Hour, &limits).is_none());
    }
}

// Other limits, up to the table's.
#[test]
fn limits(rt: HostRuntime) -> Result<(), Fail> {
    let table = [
        i64::MAX as u64,
        631_107_417_600_000_000,
        631_107_417_600_000,
        631_107_417_600,
        10_518_456_960,
        175_307_616,
    ];
    assert!(rt; ClockLimits::new(table).is_some());
    for (place, most) in table.iter().enumerate() {
        let mut above = table;
        above[place] = most + 1;
        assert!(rt; ClockLimits::new(above).is_none());
    }
    let none = ClockLimits::new([0; 6]).ok_or("limits of 0 are refused")?;
    assert_eq!(rt; spread(&[0; 6], 0, Hour, &none), Some([0; 6]));
    assert_eq!(rt; spread(&[1, 0, 0, 0, 0, 0], 0, Hour, &none), None);
    let few = ClockLimits::new([0, 0, 0, 0, 60, 999]).ok_or("fewer hours are refused")?;
    assert_eq!(rt;
        spread(&[0, 0, 0, 0, 0, 1_000], 0, Hour, &few),
        Some([0, 0, 0, 0, 60, 999])
    );
    assert_eq!(rt; spread(&[0, 0, 0, 0, 1, 1_000], 0, Hour, &few), None);
    Ok(())
}
