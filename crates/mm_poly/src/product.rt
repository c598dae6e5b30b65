ghost use Rattle.std.specs.Prelude.{◌≡◌, ◌≢◌, ◌+◌, ◌*◌, ◌^◌, ◌<◌, ◌≤◌, pos, [], ◌∷◌, ◌++◌, unsigned_abs, length, IfOk, OnOk};
ghost use Rattle.std.specs.List.{All};
ghost use Rattle.mm_poly.specs.Mono.{mono_degree};
ghost use Rattle.mm_poly.specs.Poly.{IsPoly, AllMono, norm, degree, with_coeff, plus, times};
ghost use Rattle.mm_poly.specs.Product.{AllNonZero, NotAfter, term_products, all_products};

use crate::mono::Mono;
use crate::term::Term;
use std::alloc::{AllocError, Global};

/// The product, in monomial order, with one term for each monomial.
pub fn product(alloc: Global, left: &[Term], right: &[Term]) -> Result<Vec<Term>, AllocError>
    requires left { IsPoly left.now }
    requires right { IsPoly right.now }
    requires left_monos { AllMono left.now }
    requires right_monos { AllMono right.now }
    requires small { norm left.now * norm right.now < 2 ^ 126 }
    requires degree { degree left.now + degree right.now ≤ 255 }
    ensures { IfOk result (λ terms. terms.items ≡ times left.now right.now) }
{
    // Each term of the first factor gives a run in order: few long runs are merged in less time than many short ones.
    if left.len() <= right.len() {
        product_of_runs(alloc, left, right)
    } else {
        product_of_runs(alloc, right, left)
    }
}

// The product: each term of the left gives a run in order, since multiplying by a monomial keeps the order.
fn product_of_runs(alloc: Global, left: &[Term], right: &[Term]) -> Result<Vec<Term>, AllocError>
    requires left { IsPoly left.now }
    requires right { IsPoly right.now }
    requires left_monos { AllMono left.now }
    requires right_monos { AllMono right.now }
    requires small { norm left.now * norm right.now < 2 ^ 126 }
    requires degree { degree left.now + degree right.now ≤ 255 }
    ensures { IfOk result (λ terms. terms.items ≡ times left.now right.now) }
{
    let terms = products(alloc, left, right)?;
    if left.len() <= 1 {
        return Ok(terms);
    }
    join(alloc, terms)
}

/// Terms in any order, put in monomial order, with the sum for a monomial that several have. Long runs that are in
/// order already are only merged.
pub fn join(alloc: Global, mut terms: Vec<Term>) -> Result<Vec<Term>, AllocError>
    requires nonzero { AllNonZero terms.items }
    requires small { norm terms.items < 2 ^ 126 }
    ensures { IfOk result (λ out. out.items ≡ plus terms.items []) }
{
    terms.sort_by(|first, second| first.mono.order(&second.mono))?;
    let mut out = Vec::with_capacity(alloc, terms.len())?;
    for term in terms {
        push_joined(&mut out, term)?;
    }
    out.shrink_to_fit();
    Ok(out)
}

// One more term, none of the others after it; joined to the last where that has its monomial.
fn push_joined(out: &mut Vec<Term>, term: Term) -> Result<(), AllocError>
    requires order { IsPoly out.old.items }
    requires after { All (NotAfter term.mono) out.old.items }
    requires nonzero { term.coeff ≢ pos 0 }
    requires small { norm out.old.items + unsigned_abs term.coeff < 2 ^ 126 }
    ensures { OnOk result (out.new.items ≡ plus out.old.items (term ∷ [])) }
{
    match out.pop() {
        Some(last) => push_both(out, last, term),
        None => Ok(out.push(term)?),
    }
}

fn push_both(out: &mut Vec<Term>, last: Term, term: Term) -> Result<(), AllocError>
    requires order { IsPoly (out.old.items ++ last ∷ []) }
    requires after { NotAfter term.mono last }
    requires nonzero { term.coeff ≢ pos 0 }
    requires small { unsigned_abs last.coeff + unsigned_abs term.coeff < 2 ^ 126 }
    ensures { OnOk result (out.new.items ≡ plus (out.old.items ++ last ∷ []) (term ∷ [])) }
{
    if last.mono.same(&term.mono) {
        push_nonzero(out, last.coeff + term.coeff, term.mono)
    } else {
        out.push(last)?;
        Ok(out.push(term)?)
    }
}

// No term where the coefficient is 0.
fn push_nonzero(out: &mut Vec<Term>, coeff: i128, mono: Mono) -> Result<(), AllocError>
    ensures { OnOk result (out.new.items ≡ out.old.items ++ with_coeff coeff mono []) }
{
    if coeff != 0 {
        out.push(Term { coeff, mono })?;
    }
    Ok(())
}

// Each term of one times each term of the other.
fn products(alloc: Global, left: &[Term], right: &[Term]) -> Result<Vec<Term>, AllocError>
    requires small { norm left.now * norm right.now < 2 ^ 126 }
    requires degree { degree left.now + degree right.now ≤ 255 }
    ensures { IfOk result (λ out. out.items ≡ all_products left.now right.now) }
{
    let mut out = Vec::with_capacity(alloc, left.len().saturating_mul(right.len()))?;
    for first in left {
        push_products(&mut out, first, right)?;
    }
    Ok(out)
}

fn push_products(out: &mut Vec<Term>, first: &Term, right: &[Term]) -> Result<(), AllocError>
    requires small { unsigned_abs first.now.coeff * norm right.now < 2 ^ 126 }
    requires degree { mono_degree first.now.mono + degree right.now ≤ 255 }
    ensures { OnOk result (out.new.items ≡ out.old.items ++ term_products first.now right.now) }
{
    for second in right {
        out.push(first.times(second)?)?;
    }
    Ok(())
}
