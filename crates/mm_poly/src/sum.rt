ghost use Rattle.std.specs.Prelude.{◌≡◌, ◌+◌, ◌*◌, ◌^◌, ◌<◌, [], ◌∷◌, ◌++◌, ◌+ℤ◌, ◌*ℤ◌, negsuc, unsigned_abs, IfOk, OnOk};
ghost use Rattle.mm_num.specs.Small.{IsSmall};
ghost use Rattle.mm_poly.specs.Poly.{IsPoly, norm, plus, scaled, with_coeff};

use crate::mono::Mono;
use crate::term::Term;
use std::alloc::{AllocError, Global};
use std::cmp::Ordering;

/// The terms of both, in monomial order, with the sum for a monomial that both have.
pub fn merge(alloc: Global, left: &[Term], right: &[Term]) -> Result<Vec<Term>, AllocError>
    requires left { IsPoly left.now }
    requires right { IsPoly right.now }
    requires small { norm left.now + norm right.now < 2 ^ 126 }
    ensures { IfOk result (λ terms. terms.items ≡ plus left.now right.now) }
{
    let mut out = Vec::with_capacity(alloc, left.len().saturating_add(right.len()))?;
    let mut i = 0;
    let mut j = 0;
    while i < left.len() && j < right.len() {
        let first = &left[i];
        let second = &right[j];
        match first.mono.order(&second.mono) {
            Ordering::Less => {
                push_copy(&mut out, first)?;
                i += 1;
            }
            Ordering::Equal => {
                push_sum(&mut out, first, second)?;
                i += 1;
                j += 1;
            }
            Ordering::Greater => {
                push_copy(&mut out, second)?;
                j += 1;
            }
        }
    }
    push_copies(&mut out, &left[i..])?;
    push_copies(&mut out, &right[j..])?;
    Ok(trimmed(out))
}

/// The terms of one side times a number and those of the other side times another number, in monomial order, with
/// the sum for a monomial that both have.
pub fn combine(
    alloc: Global,
    left: &[Term],
    a: i128,
    right: &[Term],
    b: i128,
) -> Result<Vec<Term>, AllocError>
    requires left { IsPoly left.now }
    requires right { IsPoly right.now }
    requires small { norm left.now * unsigned_abs a + norm right.now * unsigned_abs b < 2 ^ 126 }
    ensures { IfOk result (λ terms. terms.items ≡ plus (scaled a left.now) (scaled b right.now)) }
{
    let mut out = Vec::with_capacity(alloc, left.len().saturating_add(right.len()))?;
    let mut i = 0;
    let mut j = 0;
    while i < left.len() && j < right.len() {
        let first = &left[i];
        let second = &right[j];
        match first.mono.order(&second.mono) {
            Ordering::Less => {
                push_multiple(&mut out, a, first)?;
                i += 1;
            }
            Ordering::Equal => {
                push_combined(&mut out, a, first, b, second)?;
                i += 1;
                j += 1;
            }
            Ordering::Greater => {
                push_multiple(&mut out, b, second)?;
                j += 1;
            }
        }
    }
    push_multiples(&mut out, &left[i..], a)?;
    push_multiples(&mut out, &right[j..], b)?;
    Ok(trimmed(out))
}

// The terms, with no more room than they need where they use at most half of it.
fn trimmed(mut terms: Vec<Term>) -> Vec<Term>
    ensures { result.items ≡ terms.items }
{
    if terms.len() <= terms.capacity() / 2 {
        terms.shrink_to_fit();
    }
    terms
}

/// The terms times a number.
pub fn multiples(alloc: Global, terms: &[Term], c: i128) -> Result<Vec<Term>, AllocError>
    requires { norm terms.now * unsigned_abs c < 2 ^ 126 }
    ensures { IfOk result (λ out. out.items ≡ scaled c terms.now) }
{
    let mut out = Vec::with_capacity(alloc, terms.len())?;
    push_multiples(&mut out, terms, c)?;
    Ok(out)
}

fn push_multiples(out: &mut Vec<Term>, terms: &[Term], c: i128) -> Result<(), AllocError>
    requires { norm terms.now * unsigned_abs c < 2 ^ 126 }
    ensures { OnOk result (out.new.items ≡ out.old.items ++ scaled c terms.now) }
{
    for term in terms {
        push_multiple(out, c, term)?;
    }
    Ok(())
}

/// Equal terms.
pub fn copies(alloc: Global, terms: &[Term]) -> Result<Vec<Term>, AllocError>
    ensures { IfOk result (λ out. out.items ≡ terms.now) }
{
    let mut out = Vec::with_capacity(alloc, terms.len())?;
    push_copies(&mut out, terms)?;
    Ok(out)
}

fn push_copies(out: &mut Vec<Term>, terms: &[Term]) -> Result<(), AllocError>
    ensures { OnOk result (out.new.items ≡ out.old.items ++ terms.now) }
{
    for term in terms {
        push_copy(out, term)?;
    }
    Ok(())
}

fn push_copy(out: &mut Vec<Term>, term: &Term) -> Result<(), AllocError>
    ensures { OnOk result (out.new.items ≡ out.old.items ++ term.now ∷ []) }
{
    out.push(term.copy()?)?;
    Ok(())
}

// The sum of two terms with the same monomial.
fn push_sum(out: &mut Vec<Term>, first: &Term, second: &Term) -> Result<(), AllocError>
    requires { unsigned_abs first.now.coeff + unsigned_abs second.now.coeff < 2 ^ 126 }
    ensures { OnOk result (out.new.items ≡ out.old.items ++ with_coeff (first.now.coeff +ℤ second.now.coeff) second.now.mono []) }
{
    push_term(out, first.coeff + second.coeff, &second.mono)
}

fn push_multiple(out: &mut Vec<Term>, c: i128, term: &Term) -> Result<(), AllocError>
    requires { unsigned_abs c * unsigned_abs term.now.coeff < 2 ^ 126 }
    ensures { OnOk result (out.new.items ≡ out.old.items ++ with_coeff (c *ℤ term.now.coeff) term.now.mono []) }
{
    push_term(out, multiple(c, term.coeff), &term.mono)
}

// The combination of two terms with the same monomial.
fn push_combined(
    out: &mut Vec<Term>,
    a: i128,
    first: &Term,
    b: i128,
    second: &Term,
) -> Result<(), AllocError>
    requires first { unsigned_abs a * unsigned_abs first.now.coeff < 2 ^ 126 }
    requires second { unsigned_abs b * unsigned_abs second.now.coeff < 2 ^ 126 }
    ensures { OnOk result (out.new.items ≡ out.old.items ++ with_coeff (a *ℤ first.now.coeff +ℤ b *ℤ second.now.coeff) second.now.mono []) }
{
    push_term(out, combined(a, first.coeff, b, second.coeff), &second.mono)
}

fn combined(a: i128, first: i128, b: i128, second: i128) -> i128
    requires first { unsigned_abs a * unsigned_abs first < 2 ^ 126 }
    requires second { unsigned_abs b * unsigned_abs second < 2 ^ 126 }
    ensures { result ≡ a *ℤ first +ℤ b *ℤ second }
{
    multiple(a, first) + multiple(b, second)
}

fn multiple(a: i128, b: i128) -> i128
    requires { unsigned_abs a * unsigned_abs b < 2 ^ 126 }
    ensures value { result ≡ a *ℤ b }
    ensures small { IsSmall result }
{
    a * b
}

// No term where the coefficient is 0.
fn push_term(out: &mut Vec<Term>, coeff: i128, mono: &Mono) -> Result<(), AllocError>
    ensures { OnOk result (out.new.items ≡ out.old.items ++ with_coeff coeff mono.now []) }
{
    if coeff != 0 {
        out.push(Term {
            coeff,
            mono: mono.copy()?,
        })?;
    }
    Ok(())
}

/// The terms times -1, in their own list.
pub fn opposites(mut terms: Vec<Term>) -> Vec<Term>
    requires order { IsPoly terms.items }
    requires small { norm terms.items < 2 ^ 126 }
    ensures { result.items ≡ scaled (negsuc 0) terms.items }
{
    for n in 0..terms.len() {
        terms[n].coeff = -terms[n].coeff;
    }
    terms
}
