//! Polynomials: terms in monomial order.

ghost use Rattle.std.specs.Prelude.{◌≡◌};
ghost use Rattle.cert_text.specs.Reading.{Gives, terms_at, fitting, poly_at};

use crate::fail::TextFail;
use crate::term::{first_sign, next_sign, term};
use crate::word::strip;
use mm_poly::{Poly, SPREAD_LIMIT, Term};
use std::alloc::Global;

// Terms, one after the other.
#[tactic(auto, unfolding(crate::specs::Reading::terms_at))]
fn terms(alloc: Global, bytes: &[u8]) -> Result<(Vec<Term>, &[u8]), TextFail>
    ensures { Gives (λ x. (x.0.items, x.1.now)) result (terms_at bytes.now) }
{
    let (negative, rest) = first_sign(bytes);
    let (first, mut rest) = term(alloc, negative, rest)?;
    // Many polynomials have but one term.
    let mut terms = Vec::with_capacity(alloc, 1)?;
    terms.push(first)?;
    for _ in 0..SPREAD_LIMIT {
        let Some((negative, after)) = next_sign(rest) else {
            return Ok((terms, rest));
        };
        let (next, after) = term(alloc, negative, after)?;
        terms.push(next)?;
        rest = after;
    }
    Ok((terms, rest))
}

// The polynomial with these terms, where they are in order and within the bounds.
fn with_terms(terms: Vec<Term>) -> Result<Poly, TextFail>
    ensures { Gives (λ p. p) result (fitting terms.items) }
{
    Poly::from_terms(terms).ok_or(TextFail::Bad)
}

/// A polynomial, and what follows it.
#[inline(never)]
#[tactic(auto, unfolding(crate::specs::Reading::poly_at))]
pub fn polynomial(alloc: Global, bytes: &[u8]) -> Result<(Poly, &[u8]), TextFail>
    ensures { Gives (λ x. (x.0, x.1.now)) result (poly_at bytes.now) }
{
    if let Some(rest) = strip(bytes, b"0") {
        return Ok((Poly::constant(alloc, 0)?, rest));
    }
    let (terms, rest) = terms(alloc, bytes)?;
    Ok((with_terms(terms)?, rest))
}
