//! Terms with their signs.

ghost use Rattle.std.specs.Prelude.{◌≡◌, ℕ, ◌^◌, ◌<◌};
ghost use Rattle.std.specs.Option.{option_map};
ghost use Rattle.cert_text.specs.Reading.{Gives, multiple_at, signed, term_at, first_sign_at, next_sign_at};

use crate::fail::TextFail;
use crate::monomial::monomial;
use crate::number::{MAGNITUDE_LIMIT, positive};
use crate::word::strip;
use mm_poly::{Mono, Term};
use std::alloc::Global;

// The monomial after a magnitude. A magnitude of 1 isn't written before a variable.
#[tactic(auto, unfolding(crate::specs::Reading::multiple_at))]
fn multiple(alloc: Global, magnitude: u128, bytes: &[u8]) -> Result<(Mono, &[u8]), TextFail>
    ensures { Gives (λ x. (x.0, x.1.now)) result (multiple_at magnitude bytes.now) }
{
    let Some(rest) = strip(bytes, b"*x") else {
        return Ok((Mono::one(alloc), bytes));
    };
    if magnitude == 1 {
        return Err(TextFail::Bad);
    }
    monomial(alloc, rest)
}

// The number of this sign and magnitude.
fn with_sign(negative: bool, magnitude: u128) -> i128
    requires { magnitude < 2 ^ 126 }
    ensures { result ≡ signed negative magnitude }
{
    let coeff = magnitude as i128;
    if negative { -coeff } else { coeff }
}

/// A term, after its sign, and what follows it.
#[tactic(auto, unfolding(crate::specs::Reading::term_at))]
pub fn term(alloc: Global, negative: bool, bytes: &[u8]) -> Result<(Term, &[u8]), TextFail>
    ensures { Gives (λ x. (x.0, x.1.now)) result (term_at negative bytes.now) }
{
    if let Some(rest) = strip(bytes, b"x") {
        let (mono, rest) = monomial(alloc, rest)?;
        let coeff = with_sign(negative, 1);
        return Ok((Term { coeff, mono }, rest));
    }
    let (magnitude, rest) = positive(MAGNITUDE_LIMIT, bytes)?;
    let coeff = with_sign(negative, magnitude);
    let (mono, rest) = multiple(alloc, magnitude, rest)?;
    Ok((Term { coeff, mono }, rest))
}

/// Whether the first term is negative, and what follows its sign.
pub fn first_sign(bytes: &[u8]) -> (bool, &[u8])
    ensures { (result.0, result.1.now) ≡ first_sign_at bytes.now }
{
    match strip(bytes, b"-") {
        Some(rest) => (true, rest),
        None => (false, bytes),
    }
}

/// Whether a next term is negative, and what follows its sign: none where there is no next term.
pub fn next_sign(bytes: &[u8]) -> Option<(bool, &[u8])>
    ensures { option_map (λ x. (x.0, x.1.now)) result ≡ next_sign_at bytes.now }
{
    if let Some(rest) = strip(bytes, b" + ") {
        return Some((false, rest));
    }
    let rest = strip(bytes, b" - ")?;
    Some((true, rest))
}
