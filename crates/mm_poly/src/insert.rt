ghost use Rattle.std.specs.Prelude.{◌≡◌, ◌+◌, ◌^◌, ◌<◌, ◌≤◌, unsigned_abs, length, IfOk, OnOk};
ghost use Rattle.mm_poly.specs.Insertion.{place, added};
ghost use Rattle.mm_poly.specs.Poly.{IsPoly, norm, plus, add_term};

use crate::mono::Mono;
use crate::sum::merge;
use crate::term::Term;
use std::alloc::{AllocError, Global};

/// The terms of both, in monomial order, with the sum for a monomial that both have. Where one list is much longer,
/// the terms of the other are put into it; else both are merged.
pub fn joined_lists(
    alloc: Global,
    left: Vec<Term>,
    right: Vec<Term>,
) -> Result<Vec<Term>, AllocError>
    requires left { IsPoly left.items }
    requires right { IsPoly right.items }
    requires small { norm left.items + norm right.items < 2 ^ 126 }
    ensures { IfOk result (λ terms. terms.items ≡ plus left.items right.items) }
{
    if left.len() < right.len() / 8 {
        put_all(left, right)
    } else if right.len() < left.len() / 8 {
        put_all(right, left)
    } else {
        merge(alloc, &left, &right)
    }
}

// Each of a few terms, put into its place among many.
fn put_all(mut few: Vec<Term>, mut many: Vec<Term>) -> Result<Vec<Term>, AllocError>
    requires few { IsPoly few.items }
    requires many { IsPoly many.items }
    requires small { norm few.items + norm many.items < 2 ^ 126 }
    ensures { IfOk result (λ terms. terms.items ≡ plus few.items many.items) }
{
    while let Some(term) = few.pop() {
        put(&mut many, term)?;
    }
    Ok(many)
}

// A term, put into its place.
fn put(terms: &mut Vec<Term>, term: Term) -> Result<(), AllocError>
    requires order { IsPoly terms.old.items }
    requires small { unsigned_abs term.coeff + norm terms.old.items < 2 ^ 126 }
    ensures { OnOk result (terms.new.items ≡ add_term term terms.old.items) }
{
    let n = place_of(terms, &term.mono);
    if n < terms.len() && terms[n].mono.same(&term.mono) {
        add_at(terms, n, term.coeff);
        Ok(())
    } else {
        Ok(terms.insert(n, term)?)
    }
}

// A number, added to the coefficient of the term at this place.
fn add_at(terms: &mut Vec<Term>, n: usize, c: i128)
    requires place { n < length terms.old.items }
    requires small { unsigned_abs c + norm terms.old.items < 2 ^ 126 }
    ensures { terms.new.items ≡ added c n terms.old.items }
{
    let coeff = c + terms[n].coeff;
    if coeff == 0 {
        terms.remove(n);
    } else {
        terms[n].coeff = coeff;
    }
}

// How many terms come before a monomial.
fn place_of(terms: &[Term], mono: &Mono) -> usize
    requires { IsPoly terms.now }
    ensures place { result ≡ place mono.now terms.now }
    ensures within { result ≤ length terms.now }
{
    terms.partition_point(|term| term.mono.order(mono).is_lt())
}
