//! Numbers: decimal digits, with no 0 in front of others.

ghost use Rattle.std.specs.Prelude.{◌≡◌, ℕ, ◌+◌, ◌*◌, ◌^◌, ◌<◌, ◌≤◌, nat_lt, Some, None, IfSome, if◌then◌else◌};
ghost use Rattle.std.specs.Option.{option_map};
ghost use Rattle.cert_text.specs.Reading.{digits_at, positive_at, number_at};
ghost use Rattle.report_text.specs.machine.Reading.{number_after, small_at};

use crate::word::strip;

// Small numbers have magnitudes below this one, 2^126.
const SMALL_LIMIT: u128 = 1 << 126;

// Free numbers are below this one, 2^64.
const FREE_LIMIT: u128 = 1 << 64;

// The number with one more digit, below the limit.
fn with_digit(limit: u128, value: u128, digit: u128) -> Option<u128>
    requires small { limit ≤ 2 ^ 126 }
    requires digit { digit < 10 }
    ensures { result ≡ (if nat_lt (10 * value + digit) limit then Some (10 * value + digit) else None) }
{
    if value > limit / 10 {
        return None;
    }
    let next = 10 * value + digit;
    if next < limit { Some(next) } else { None }
}

// The number whose digits so far have this value, and what follows it.
#[tactic(auto, unfolding(cert_text::specs::Reading::digits_at))]
fn digits(limit: u128, first: u128, bytes: &[u8]) -> Option<(u128, &[u8])>
    requires small { limit ≤ 2 ^ 126 }
    requires below { first < limit }
    ensures number { option_map (λ x. (x.0, x.1.now)) result ≡ digits_at limit first bytes.now }
    ensures below { IfSome result (λ x. x.0 < limit) }
{
    let mut value = first;
    for (place, byte) in bytes.iter().enumerate() {
        if !byte.is_ascii_digit() {
            return Some((value, &bytes[place..]));
        }
        value = with_digit(limit, value, u128::from(*byte - b'0'))?;
    }
    Some((value, &[]))
}

// A number from 1 below the limit, and what follows it.
#[tactic(auto, unfolding(cert_text::specs::Reading::positive_at))]
fn positive(limit: u128, bytes: &[u8]) -> Option<(u128, &[u8])>
    requires above { 9 < limit }
    requires small { limit ≤ 2 ^ 126 }
    ensures number { option_map (λ x. (x.0, x.1.now)) result ≡ positive_at limit bytes.now }
    ensures below { IfSome result (λ x. x.0 < limit) }
{
    match bytes {
        [first @ b'1'..=b'9', rest @ ..] => digits(limit, u128::from(*first - b'0'), rest),
        _ => None,
    }
}

// A number below the limit, and what follows it.
#[tactic(auto, unfolding(cert_text::specs::Reading::number_at))]
fn number(limit: u128, bytes: &[u8]) -> Option<(u128, &[u8])>
    requires above { 9 < limit }
    requires small { limit ≤ 2 ^ 126 }
    ensures number { option_map (λ x. (x.0, x.1.now)) result ≡ number_at limit bytes.now }
    ensures below { IfSome result (λ x. x.0 < limit) }
{
    if let Some(rest) = strip(bytes, b"0") {
        return Some((0, rest));
    }
    positive(limit, bytes)
}

/// A number below 2^64 after the word, and what follows it.
pub fn number_after<'a>(bytes: &'a [u8], word: &[u8]) -> Option<(u64, &'a [u8])>
    ensures { option_map (λ x. (x.0, x.1.now)) result ≡ number_after word.now bytes.now }
{
    let rest = strip(bytes, word)?;
    let (number, rest) = number(FREE_LIMIT, rest)?;
    Some((number as u64, rest))
}

/// A small number, and what follows it.
pub fn small(bytes: &[u8]) -> Option<(i128, &[u8])>
    ensures { option_map (λ x. (x.0, x.1.now)) result ≡ small_at bytes.now }
{
    if let Some(rest) = strip(bytes, b"-") {
        let (magnitude, rest) = positive(SMALL_LIMIT, rest)?;
        return Some((-(magnitude as i128), rest));
    }
    let (number, rest) = number(SMALL_LIMIT, bytes)?;
    Some((number as i128, rest))
}
