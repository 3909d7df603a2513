// Decimal digits in byte strings: a whole number at the front, a fraction, and a fraction behind a
// decimal separator. What reads a front hands the remaining bytes back. Each public function has
// two clauses: `answer` equates it with its definition, and `law` says what that amounts to.
#![tactic(auto)]

ghost use Rattle.std.specs.Prelude.{◌≡◌, ◌+◌, ◌-◌, ◌*◌, ◌^◌, ◌<◌, ◌≤◌, length, take};
ghost use Rattle.std.specs.Option.{SomeIff};
ghost use Rattle.std.specs.List.{prefix_len};
ghost use Rattle.digits.specs.Laws.{PrefixLaw, FractionLaw, TemporalLaw};
ghost use Rattle.digits.specs.Numbers.{is_digit, number, front, behind, u64_prefix, fraction_of, after_separator, temporal_fraction, seen};

use units::Fault;

// The most digits that a whole number is read from.
const WHOLE_DIGITS: usize = 21;
// The most digits of a fraction, which is counted in billionths.
const FRACTION_DIGITS: usize = 9;

// How many digits lead, at most `most` of them counted.
fn digits_len(bytes: &[u8], most: usize) -> usize
    ensures value { result ≡ prefix_len is_digit (take most bytes.now) }
    ensures within { result ≤ length bytes.now }
{
    bytes
        .iter()
        .take(most)
        .take_while(|byte| byte.is_ascii_digit())
        .count()
}

// The digits that lead, at most `most` of them, and the remaining bytes.
#[tactic(auto, using(crate::proofs::Fronts::front_len, crate::proofs::Fronts::front_taken))]
fn split_digits(bytes: &[u8], most: usize) -> (&[u8], &[u8])
    ensures digits { result.0.now ≡ front most bytes.now }
    ensures rest { result.1.now ≡ behind most bytes.now }
{
    bytes.split_at(digits_len(bytes, most))
}

// The value with one digit more behind it, if it is below 2^64. A byte below `0` counts as `0`.
fn append(value: u64, digit: u8) -> Option<u64>
    ensures { SomeIff result (value * 10 + (digit - 48) < 2 ^ 64) (value * 10 + (digit - 48)) }
{
    value
        .checked_mul(10)?
        .checked_add(u64::from(digit.saturating_sub(b'0')))
}

// The number that the digits denote, if it is below 2^64.
fn parse_u64(digits: &[u8]) -> Option<u64>
    ensures { SomeIff result (number digits.now < 2 ^ 64) (number digits.now) }
{
    let mut value = 0;
    for &digit in digits {
        value = append(value, digit)?;
    }
    Some(value)
}

// The number that leads, from at most 21 digits, if any digit leads, and the remaining bytes.
pub fn u64_prefix(bytes: &[u8]) -> Result<(Option<u64>, &[u8]), Fault>
    ensures answer { seen result ≡ u64_prefix bytes.now }
    ensures law { PrefixLaw bytes.now (seen result) }
{
    let (digits, rest) = split_digits(bytes, WHOLE_DIGITS);
    if digits.is_empty() {
        return Ok((None, bytes));
    }
    let value = parse_u64(digits).ok_or(Fault::IntegerTooBig)?;
    Ok((Some(value), rest))
}

// One to nine digits in billionths, as if padded with zeros on the right to nine digits.
pub fn fraction(bytes: &[u8]) -> Result<u32, Fault>
    ensures answer { result ≡ fraction_of bytes.now }
    ensures law { FractionLaw bytes.now result }
{
    if bytes.is_empty() {
        return Err(Fault::NoFractionDigits);
    }
    if bytes.len() > FRACTION_DIGITS {
        return Err(Fault::TooManyFractionDigits);
    }
    let mut billionths: u32 = 0;
    // What the last digit counted for: each counts for a tenth of the one before.
    let mut place: u32 = 1_000_000_000;
    for &byte in bytes {
        if !byte.is_ascii_digit() {
            return Err(Fault::InvalidFractionDigit { byte });
        }
        place /= 10;
        billionths += u32::from(byte - b'0') * place;
    }
    Ok(billionths)
}

// The fraction behind a separator that was read, and the remaining bytes.
fn fraction_prefix(bytes: &[u8]) -> Result<(Option<u32>, &[u8]), Fault>
    ensures { seen result ≡ after_separator bytes.now }
{
    let (digits, rest) = split_digits(bytes, FRACTION_DIGITS);
    if digits.is_empty() {
        return Err(Fault::MissingFractionalDigits);
    }
    Ok((Some(fraction(digits)?), rest))
}

// The fraction behind a separator, if a separator leads, and the remaining bytes.
pub fn parse_temporal_fraction(input: &[u8]) -> Result<(Option<u32>, &[u8]), Fault>
    ensures answer { seen result ≡ temporal_fraction input.now }
    ensures law { TemporalLaw input.now (seen result) }
{
    let [b'.' | b',', rest @ ..] = input else {
        return Ok((None, input));
    };
    fraction_prefix(rest)
}

#[cfg(test)]
mod tests {
    use super::*;
    use units::Told;

    // A refusal by its number and what it tells.
    fn numbered<T>(res: Result<T, Fault>) -> Result<T, (u8, Told)> {
        res.map_err(|fault| (fault.number(), fault.tells()))
    }

    #[test]
    fn whole_numbers(rt: HostRuntime) {
        let cases: [(&[u8], Result<(Option<u64>, &[u8]), (u8, Told)>); 12] = [
            (b"", Ok((None, b""))),
            (b"S12", Ok((None, b"S12"))),
            (b"12H30M", Ok((Some(12), b"H30M"))),
            (b"18446744073709551615", Ok((Some(u64::MAX), b""))),
            (b"18446744073709551616", Err((14, Told::Nothing))),
            (b"00000000000000000012", Ok((Some(12), b""))),
            (b"018446744073709551615Y", Ok((Some(u64::MAX), b"Y"))),
            (b"018446744073709551616", Err((14, Told::Nothing))),
            (b"100000000000000000000", Err((14, Told::Nothing))),
            (b"0000000000000000000123", Ok((Some(12), b"3"))),
            (b"1000000000000000000000", Err((14, Told::Nothing))),
            (b"0000000000000000000000", Ok((Some(0), b"0"))),
        ];
        for (bytes, expected) in cases {
            assert_eq!(rt; numbered(u64_prefix(bytes)), expected);
        }
    }

    #[test]
    fn fractions(rt: HostRuntime) {
        let cases: [(&[u8], Result<u32, (u8, Told)>); 9] = [
            (b"", Err((16, Told::Nothing))),
            (b"0", Ok(0)),
            (b"5", Ok(500_000_000)),
            (b"000000001", Ok(1)),
            (b"999999999", Ok(999_999_999)),
            (b"1234567890", Err((17, Told::Nothing))),
            (b"123456789x", Err((17, Told::Nothing))),
            (b"/1", Err((18, Told::Byte(b'/')))),
            (b"1:2x", Err((18, Told::Byte(b':')))),
        ];
        for (bytes, expected) in cases {
            assert_eq!(rt; numbered(fraction(bytes)), expected);
        }
    }

    #[test]
    fn temporal_fractions(rt: HostRuntime) {
        let cases: [(&[u8], Result<(Option<u32>, &[u8]), (u8, Told)>); 9] = [
            (b"", Ok((None, b""))),
            (b"5S", Ok((None, b"5S"))),
            (b".", Err((15, Told::Nothing))),
            (b",", Err((15, Told::Nothing))),
            (b".S", Err((15, Told::Nothing))),
            (b".5S", Ok((Some(500_000_000), b"S"))),
            (b",123456789", Ok((Some(123_456_789), b""))),
            (b".1234567890", Ok((Some(123_456_789), b"0"))),
            (b",,5", Err((15, Told::Nothing))),
        ];
        for (input, expected) in cases {
            assert_eq!(rt; numbered(parse_temporal_fraction(input)), expected);
        }
    }
}
