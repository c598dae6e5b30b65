//! Polynomials printed.

ghost use Rattle.std.specs.Prelude.{◌≡◌, ◌≢◌, ◌++◌, [], ◌∷◌, drop, unsigned_abs, OnOk};
ghost use Rattle.cert_text.specs.Text.{factor_text, more_factors, magnitude_text, term_text, first_sign, next_sign, more_terms, poly_text};

use crate::print::number::push_number;
use mm_poly::{Mono, Poly, Term};
use std::alloc::AllocError;

// A variable, with its exponent where that is above 1.
fn push_factor(out: &mut Vec<u8>, factor: (u32, u8)) -> Result<(), AllocError>
    ensures { OnOk result (out.new.items ≡ out.old.items ++ factor_text factor) }
{
    out.extend_from_slice(b"x")?;
    push_number(out, u128::from(factor.0))?;
    if factor.1 == 1 {
        return Ok(());
    }
    out.extend_from_slice(b"^")?;
    push_number(out, u128::from(factor.1))
}

// A factor after another one.
fn push_next_factor(out: &mut Vec<u8>, factor: (u32, u8)) -> Result<(), AllocError>
    ensures { OnOk result (out.new.items ≡ out.old.items ++ more_factors (factor ∷ [])) }
{
    out.extend_from_slice(b"*")?;
    push_factor(out, factor)
}

// The factors after the first one.
fn push_more_factors(out: &mut Vec<u8>, mono: &Mono) -> Result<(), AllocError>
    ensures { OnOk result (out.new.items ≡ out.old.items ++ more_factors (drop 1 mono.now)) }
{
    for n in 1..mono.len() {
        push_next_factor(out, mono.factor(n))?;
    }
    Ok(())
}

// The magnitude before factors, left out where it is 1.
fn push_magnitude(out: &mut Vec<u8>, magnitude: u128) -> Result<(), AllocError>
    ensures { OnOk result (out.new.items ≡ out.old.items ++ magnitude_text magnitude) }
{
    if magnitude == 1 {
        return Ok(());
    }
    push_number(out, magnitude)?;
    out.extend_from_slice(b"*")
}

// A magnitude and a monomial.
fn push_product(out: &mut Vec<u8>, magnitude: u128, mono: &Mono) -> Result<(), AllocError>
    ensures { OnOk result (out.new.items ≡ out.old.items ++ term_text magnitude mono.now) }
{
    if mono.is_empty() {
        return push_number(out, magnitude);
    }
    push_magnitude(out, magnitude)?;
    push_factor(out, mono.factor(0))?;
    push_more_factors(out, mono)
}

/// Appends the sign of a first number.
pub fn push_first_sign(out: &mut Vec<u8>, coeff: i128) -> Result<(), AllocError>
    ensures { OnOk result (out.new.items ≡ out.old.items ++ first_sign coeff) }
{
    if coeff >= 0 {
        return Ok(());
    }
    out.extend_from_slice(b"-")
}

fn push_next_sign(out: &mut Vec<u8>, coeff: i128) -> Result<(), AllocError>
    ensures { OnOk result (out.new.items ≡ out.old.items ++ next_sign coeff) }
{
    out.extend_from_slice(if coeff < 0 { b" - " } else { b" + " })
}

// The first term with its sign.
fn push_first_term(out: &mut Vec<u8>, term: &Term) -> Result<(), AllocError>
    ensures { OnOk result (out.new.items ≡ out.old.items ++ poly_text (term.now ∷ [])) }
{
    push_first_sign(out, term.coeff)?;
    push_product(out, term.coeff.unsigned_abs(), &term.mono)
}

// A term after another one.
fn push_next_term(out: &mut Vec<u8>, term: &Term) -> Result<(), AllocError>
    ensures { OnOk result (out.new.items ≡ out.old.items ++ more_terms (term.now ∷ [])) }
{
    push_next_sign(out, term.coeff)?;
    push_product(out, term.coeff.unsigned_abs(), &term.mono)
}

// The terms after the first one.
fn push_more_terms(out: &mut Vec<u8>, poly: &Poly) -> Result<(), AllocError>
    ensures { OnOk result (out.new.items ≡ out.old.items ++ more_terms (drop 1 poly.now)) }
{
    for n in 1..poly.spread() {
        push_next_term(out, poly.term(n))?;
    }
    Ok(())
}

/// Appends a polynomial.
pub fn push_polynomial(out: &mut Vec<u8>, poly: &Poly) -> Result<(), AllocError>
    ensures { OnOk result (out.new.items ≡ out.old.items ++ poly_text poly.now) }
{
    if poly.spread() == 0 {
        return out.extend_from_slice(b"0");
    }
    push_first_term(out, poly.term(0))?;
    push_more_terms(out, poly)
}
