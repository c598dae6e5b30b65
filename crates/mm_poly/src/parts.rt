ghost use Rattle.std.specs.Prelude.{◌≡◌, ◌++◌, ◌^◌, ◌<◌, ◌≤ℤ◌, neg_ℤ, pos, [], ◌∷◌, unsigned_abs, length, IfOk, OnOk};
ghost use Rattle.std.specs.Ordering.{int_eq};
ghost use Rattle.std.specs.Cmp.Lexicographic.{slice_cmp};
ghost use Rattle.mm_num.specs.Small.{IsSmall};
ghost use Rattle.mm_num.specs.Quotient.{floor_by};
ghost use Rattle.mm_poly.specs.Poly.{IsPoly, AllMono, norm, coeff_of, constant_part, without_constant, with_coeff, floor_divided, is_opposite, term_cmp, HasPlaces};
ghost use Rattle.mm_poly.specs.Renaming.{by_table, renamed_terms};

use crate::mono::Mono;
use crate::sum::copies;
use crate::term::Term;
use mm_num::floor_div;
use std::alloc::{AllocError, Global};
use std::cmp::Ordering;

/// The terms that aren't constant: the constant stands last.
pub fn unknowns(terms: &[Term]) -> &[Term]
    requires order { IsPoly terms.now }
    requires monos { AllMono terms.now }
    ensures { result.now ≡ without_constant terms.now }
{
    let count = terms.len();
    if count == 0 {
        return terms;
    }
    let last = &terms[count - 1];
    if last.mono.is_empty() {
        &terms[..count - 1]
    } else {
        terms
    }
}

/// The coefficient of the constant monomial, 0 where there is none.
pub fn constant(terms: &[Term]) -> i128
    requires order { IsPoly terms.now }
    requires monos { AllMono terms.now }
    requires small { norm terms.now < 2 ^ 126 }
    ensures { result ≡ constant_part terms.now }
{
    let count = terms.len();
    if count == 0 {
        return 0;
    }
    let last = &terms[count - 1];
    if last.mono.is_empty() { last.coeff } else { 0 }
}

/// The coefficient of a monomial, 0 where it doesn't occur.
pub fn coefficient(terms: &[Term], mono: &Mono) -> i128
    requires { norm terms.now < 2 ^ 126 }
    ensures { result ≡ coeff_of terms.now mono.now }
{
    for term in terms {
        if term.mono.same(mono) {
            return term.coeff;
        }
    }
    0
}

/// Whether the second terms are the first times -1.
pub fn are_opposite(first: &[Term], second: &[Term]) -> bool
    requires first { norm first.now < 2 ^ 126 }
    requires second { norm second.now < 2 ^ 126 }
    ensures { result ≡ is_opposite first.now second.now }
{
    if first.len() != second.len() {
        return false;
    }
    for n in 0..first.len() {
        if !is_opposite_term(&first[n], &second[n]) {
            return false;
        }
    }
    true
}

// Whether the second term is the first times -1.
fn is_opposite_term(first: &Term, second: &Term) -> bool
    requires first { IsSmall first.now.coeff }
    requires second { IsSmall second.now.coeff }
    ensures { result ≡ is_opposite (first.now ∷ []) (second.now ∷ []) }
{
    first.mono.same(&second.mono) && sum_to_0(first.coeff, second.coeff)
}

// Whether the second number is the first times -1.
fn sum_to_0(first: i128, second: i128) -> bool
    requires first { IsSmall first }
    requires second { IsSmall second }
    ensures { result ≡ int_eq second (neg_ℤ first) }
{
    first + second == 0
}

/// How terms compare: the first that differ decide, and else the shorter list comes first.
pub fn order(left: &[Term], right: &[Term]) -> Ordering
    ensures { result ≡ slice_cmp term_cmp left.now right.now }
{
    for n in 0..left.len().min(right.len()) {
        let order = left[n].order(&right[n]);
        if order != Ordering::Equal {
            return order;
        }
    }
    left.len().cmp(&right.len())
}

/// Each coefficient divided and rounded down.
pub fn quotients(alloc: Global, terms: &[Term], divisor: i128) -> Result<Vec<Term>, AllocError>
    requires terms { norm terms.now < 2 ^ 126 }
    requires order { IsPoly terms.now }
    requires divisor { IsSmall divisor }
    requires positive { pos 1 ≤ℤ divisor }
    ensures { IfOk result (λ out. out.items ≡ floor_divided (unsigned_abs divisor) terms.now) }
{
    if divisor == 1 {
        return copies(alloc, terms);
    }
    let mut out = Vec::with_capacity(alloc, terms.len())?;
    for term in terms {
        push_quotient(&mut out, term, divisor)?;
    }
    Ok(out)
}

// No term where the quotient is 0.
fn push_quotient(out: &mut Vec<Term>, term: &Term, divisor: i128) -> Result<(), AllocError>
    requires coeff { IsSmall term.now.coeff }
    requires divisor { IsSmall divisor }
    requires positive { pos 1 ≤ℤ divisor }
    ensures { OnOk result (out.new.items ≡ out.old.items ++ with_coeff (floor_by term.now.coeff (unsigned_abs divisor)) term.now.mono []) }
{
    let coeff = floor_div(term.coeff, divisor);
    if coeff != 0 {
        out.push(Term {
            coeff,
            mono: term.mono.copy()?,
        })?;
    }
    Ok(())
}

/// Each term with its variables exchanged by those of a table.
pub fn renamed_terms(alloc: Global, terms: &[Term], table: &[u32]) -> Result<Vec<Term>, AllocError>
    requires { HasPlaces (length table.now) terms.now }
    ensures { IfOk result (λ out. out.items ≡ renamed_terms (by_table table.now) terms.now) }
{
    let mut out = Vec::with_capacity(alloc, terms.len())?;
    for term in terms {
        out.push(Term {
            coeff: term.coeff,
            mono: term.mono.renamed(table)?,
        })?;
    }
    Ok(out)
}
