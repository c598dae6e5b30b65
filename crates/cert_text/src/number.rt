//! Numbers: decimal digits, with no 0 in front of others.

ghost use Rattle.std.specs.Prelude.{◌≡◌, ℕ, ◌+◌, ◌*◌, ◌^◌, ◌<◌, ◌≤◌, nat_lt, Some, None, IfOk, if◌then◌else◌};
ghost use Rattle.cert_text.specs.Reading.{Gives, digits_at, positive_at, number_at};

use crate::fail::TextFail;
use crate::word::strip;

/// Magnitudes are below this one, 2^126.
pub const MAGNITUDE_LIMIT: u128 = 1 << 126;

// The number with one more digit, below the limit.
fn with_digit(limit: u128, value: u128, digit: u128) -> Result<u128, TextFail>
    requires small { limit ≤ 2 ^ 126 }
    requires digit { digit < 10 }
    ensures { Gives (λ v. v) result (if nat_lt (10 * value + digit) limit then Some (10 * value + digit) else None) }
{
    if value > limit / 10 {
        return Err(TextFail::Bad);
    }
    let next = 10 * value + digit;
    if next < limit {
        Ok(next)
    } else {
        Err(TextFail::Bad)
    }
}

// The number whose digits so far have this value, and what follows it.
#[tactic(auto, unfolding(crate::specs::Reading::digits_at))]
fn digits(limit: u128, first: u128, bytes: &[u8]) -> Result<(u128, &[u8]), TextFail>
    requires small { limit ≤ 2 ^ 126 }
    requires below { first < limit }
    ensures number { Gives (λ x. (x.0, x.1.now)) result (digits_at limit first bytes.now) }
    ensures below { IfOk result (λ x. x.0 < limit) }
{
    let mut value = first;
    for (place, byte) in bytes.iter().enumerate() {
        if !byte.is_ascii_digit() {
            return Ok((value, &bytes[place..]));
        }
        value = with_digit(limit, value, u128::from(*byte - b'0'))?;
    }
    Ok((value, &[]))
}

/// A number from 1 below the limit, and what follows it.
#[tactic(auto, unfolding(crate::specs::Reading::positive_at))]
pub fn positive(limit: u128, bytes: &[u8]) -> Result<(u128, &[u8]), TextFail>
    requires above { 9 < limit }
    requires small { limit ≤ 2 ^ 126 }
    ensures number { Gives (λ x. (x.0, x.1.now)) result (positive_at limit bytes.now) }
    ensures below { IfOk result (λ x. x.0 < limit) }
{
    match bytes {
        [first @ b'1'..=b'9', rest @ ..] => digits(limit, u128::from(*first - b'0'), rest),
        _ => Err(TextFail::Bad),
    }
}

/// A number of 32 bits, and what follows it.
#[tactic(auto, unfolding(crate::specs::Reading::number_at))]
pub fn number(bytes: &[u8]) -> Result<(u32, &[u8]), TextFail>
    ensures { Gives (λ x. (x.0, x.1.now)) result (number_at (2 ^ 32) bytes.now) }
{
    if let Some(rest) = strip(bytes, b"0") {
        return Ok((0, rest));
    }
    let (number, rest) = positive(1 << 32, bytes)?;
    Ok((number as u32, rest))
}
