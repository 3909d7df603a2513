use crate::{add_up, read_seconds};
use std::test::Fail;

// A line as its seconds and nanoseconds, or as the number of its refusal.
fn read(line: &[u8]) -> Result<(i64, i32), u8> {
    read_seconds(line)
        .map(|duration| (duration.as_secs(), duration.subsec_nanos()))
        .map_err(|fault| fault.number())
}

#[test]
fn lines_read(rt: HostRuntime) {
    let cases: [(&[u8], Result<(i64, i32), u8>); 18] = [
        (b"0", Ok((0, 0))),
        (b"5400", Ok((5_400, 0))),
        (b"0,5", Ok((0, 500_000_000))),
        (b"1.000000001", Ok((1, 1))),
        (
            b"9223372036854775807.999999999",
            Ok((i64::MAX, 999_999_999)),
        ),
        (b"000000000000000000012", Ok((12, 0))),
        (b"0000000000000000000012", Err(23)),
        (b"", Err(22)),
        (b".5", Err(22)),
        (b"-1", Err(22)),
        (b"9223372036854775808", Err(9)),
        (b"9223372036854775808.", Err(9)),
        (b"18446744073709551615", Err(9)),
        (b"18446744073709551616", Err(14)),
        (b"1.", Err(15)),
        (b"1.x", Err(15)),
        (b"1.1234567891", Err(23)),
        (b"1s", Err(23)),
    ];
    for (line, expected) in cases {
        assert_eq!(rt; read(line), expected);
    }
}

#[test]
fn reports(rt: HostRuntime) -> Result<(), Fail> {
    let cases: [(&[u8], &str); 5] = [
        (b"", "total 0.000000000\n"),
        (b"\n", "1 refused 22\ntotal 0.000000000\n"),
        (
            b"1\n\n2",
            "1 1.000000000\n2 refused 22\n3 2.000000000\ntotal 3.000000000\n",
        ),
        (
            b"9223372036854775807\n0.999999999\n",
            "1 9223372036854775807.000000000\n2 0.999999999\ntotal 9223372036854775807.999999999\n",
        ),
        (
            b"9223372036854775807\n1\nx\n0\n",
            "1 9223372036854775807.000000000\n2 1.000000000\n3 refused 22\n4 0.000000000\ntotal refused 10\n",
        ),
    ];
    for (input, expected) in cases {
        let text = add_up(rt.alloc(), input)?;
        assert_eq!(rt; text.as_str(), expected);
    }
    Ok(())
}
