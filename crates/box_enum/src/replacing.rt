ghost use Rattle.std.specs.Prelude.{◌≡◌, ◌+◌, ◌*◌, ◌^◌, ◌<◌, ◌≤◌, ◌++◌, ◌*ℤ◌, neg_ℤ, unsigned_abs, true, nat_lt, IfOk, OnOk};
ghost use Rattle.mm_num.specs.Power.{power};
ghost use Rattle.mm_poly.specs.Mono.{mono_degree, exponent_of};
ghost use Rattle.mm_poly.specs.Poly.{norm, spread, joined};
ghost use Rattle.box_enum.specs.machine.Putting.{IsTame, IsWithinReach, weight, put_value, put_terms, has_variable, quotient_terms, cofactor_terms, cofactor};

use crate::numbered::Choice;
use mm_poly::{Poly, PolyFail, Term};
use std::alloc::{AllocError, Global};

/// What a choice's value makes of a polynomial.
#[derive(Debug, Drop)]
pub struct Replaced {
    /// By what the choice's row is multiplied so that its sum with the polynomial is what is left.
    pub cofactor: Poly,
    /// The polynomial with the value put for the variable.
    pub left: Poly,
}

// The terms of both, in any order.
#[derive(Debug, Drop)]
pub struct ReplacedTerms {
    pub cofactor: Vec<Term>,
    pub left: Vec<Term>,
}

/// Whether a variable occurs in a polynomial.
pub(crate) fn has_variable(poly: &Poly, variable: u32) -> bool
    ensures { result ≡ has_variable variable poly.now }
{
    poly.terms().iter().any(|term| is_in_term(term, variable))
}

fn is_in_term(term: &Term, variable: u32) -> bool
    ensures { result ≡ nat_lt 0 (exponent_of term.now.mono variable) }
{
    term.mono.exponent(variable) > 0
}

/// Puts a choice's value for its variable, which occurs.
pub(crate) fn replace(
    alloc: Global,
    poly: &Poly,
    choice: &Choice,
    reach: u128,
) -> Result<Replaced, AllocError>
    requires tame { IsTame reach poly.now }
    requires within { IsWithinReach reach choice.now }
    requires occurs { has_variable choice.now.variable poly.now ≡ true }
    ensures cofactor { IfOk result (λ r. r.cofactor ≡ cofactor choice.now.variable choice.now.value poly.now) }
    ensures left { IfOk result (λ r. r.left ≡ put_value choice.now.variable choice.now.value poly.now) }
{
    let terms = replaced_terms(alloc, poly.terms(), choice, reach)?;
    Ok(Replaced {
        cofactor: sum(alloc, terms.cofactor)?,
        left: sum(alloc, terms.left)?,
    })
}

// What terms within the limits sum to.
fn sum(alloc: Global, terms: Vec<Term>) -> Result<Poly, AllocError>
    requires small { norm terms.items < 2 ^ 126 }
    requires few { spread terms.items ≤ 65536 }
    ensures { IfOk result (λ p. p ≡ joined terms.items) }
{
    match Poly::joined(alloc, terms) {
        Ok(sum) => Ok(sum),
        Err(PolyFail::NoMemory) => Err(AllocError),
        Err(PolyFail::Big) => unreachable!(),
    }
}

fn replaced_terms(
    alloc: Global,
    terms: &[Term],
    choice: &Choice,
    reach: u128,
) -> Result<ReplacedTerms, AllocError>
    requires reach { reach < 2 ^ 100 }
    requires small { weight reach terms.now < 2 ^ 100 }
    requires within { IsWithinReach reach choice.now }
    ensures cofactor { IfOk result (λ r. r.cofactor.items ≡ cofactor_terms choice.now.variable choice.now.value terms.now) }
    ensures left { IfOk result (λ r. r.left.items ≡ put_terms choice.now.variable choice.now.value terms.now) }
{
    let mut cofactor = Vec::new(alloc);
    let mut left = Vec::with_capacity(alloc, terms.len())?;
    for term in terms {
        let coeff = push_quotient(&mut cofactor, term, choice, reach)?;
        left.push(Term {
            coeff,
            mono: term.mono.without(choice.variable)?,
        })?;
    }
    Ok(ReplacedTerms { cofactor, left })
}

// Pushes the cofactor's terms for a term; the coefficient of what is left of it.
fn push_quotient(
    out: &mut Vec<Term>,
    term: &Term,
    choice: &Choice,
    reach: u128,
) -> Result<i128, AllocError>
    requires reach { reach < 2 ^ 100 }
    requires small { unsigned_abs term.now.coeff * (1 + reach) ^ mono_degree term.now.mono < 2 ^ 100 }
    requires within { IsWithinReach reach choice.now }
    ensures pushed { OnOk result (out.new.items ≡ out.old.items ++ quotient_terms choice.now.variable choice.now.value (neg_ℤ term.now.coeff) (exponent_of term.now.mono choice.now.variable) term.now.mono) }
    ensures left { IfOk result (λ c. c ≡ term.now.coeff *ℤ power choice.now.value (exponent_of term.now.mono choice.now.variable)) }
{
    let _ = (term.mono.len(), reach);
    let mut coeff = -term.coeff;
    for k in (0..term.mono.exponent(choice.variable)).rev() {
        out.push(Term {
            coeff,
            mono: term.mono.with_power(choice.variable, k)?,
        })?;
        coeff *= choice.value;
    }
    Ok(-coeff)
}
