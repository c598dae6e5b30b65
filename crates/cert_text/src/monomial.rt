//! Monomials: factors with rising variables.

ghost use Rattle.std.specs.Prelude.{◌≡◌, ◌<◌};
ghost use Rattle.cert_text.specs.Reading.{Gives, exponent_at, factor_at, factors_at, rising, monomial_at};

use crate::fail::TextFail;
use crate::number::{number, positive};
use crate::word::strip;
use mm_poly::{Factors, Mono};
use smallvec::SmallVec;
use std::alloc::Global;

// Exponents are below this one.
const EXPONENT_LIMIT: u128 = 256;

// A monomial has at most this many factors.
const MOST_FACTORS: u32 = 255;

// The exponent at the front of the bytes, 1 where none is written, and what follows it.
#[tactic(auto, unfolding(crate::specs::Reading::exponent_at))]
fn exponent(bytes: &[u8]) -> Result<(u8, &[u8]), TextFail>
    ensures { Gives (λ x. (x.0, x.1.now)) result (exponent_at bytes.now) }
{
    let Some(rest) = strip(bytes, b"^") else {
        return Ok((1, bytes));
    };
    let (exponent, rest) = positive(EXPONENT_LIMIT, rest)?;
    if exponent == 1 {
        return Err(TextFail::Bad);
    }
    Ok((exponent as u8, rest))
}

// A variable and its exponent, after the x, and what follows them.
#[tactic(auto, unfolding(crate::specs::Reading::factor_at))]
fn factor(bytes: &[u8]) -> Result<((u32, u8), &[u8]), TextFail>
    ensures { Gives (λ x. (x.0, x.1.now)) result (factor_at bytes.now) }
{
    let (variable, rest) = number(bytes)?;
    let (exponent, rest) = exponent(rest)?;
    Ok(((variable, exponent), rest))
}

// Factors, one after the other.
#[tactic(auto, unfolding(crate::specs::Reading::factors_at))]
fn factors(alloc: Global, bytes: &[u8]) -> Result<(Factors, &[u8]), TextFail>
    ensures { Gives (λ x. (x.0.items, x.1.now)) result (factors_at bytes.now) }
{
    let (first, mut rest) = factor(bytes)?;
    let mut factors = SmallVec::new(alloc);
    factors.push(first)?;
    for _ in 0..MOST_FACTORS {
        let Some(after) = strip(rest, b"*x") else {
            return Ok((factors, rest));
        };
        let (next, after) = factor(after)?;
        factors.push(next)?;
        rest = after;
    }
    Ok((factors, rest))
}

// The monomial with these factors, where the variables rise and the exponents sum to at most 255.
fn with_factors(factors: Factors) -> Result<Mono, TextFail>
    ensures { Gives (λ m. m) result (rising factors.items) }
{
    Mono::from_factors(factors).ok_or(TextFail::Bad)
}

/// A monomial, after its first x, and what follows it.
#[tactic(auto, unfolding(crate::specs::Reading::monomial_at))]
pub fn monomial(alloc: Global, bytes: &[u8]) -> Result<(Mono, &[u8]), TextFail>
    ensures { Gives (λ x. (x.0, x.1.now)) result (monomial_at bytes.now) }
{
    let (factors, rest) = factors(alloc, bytes)?;
    Ok((with_factors(factors)?, rest))
}
