ghost use Rattle.std.specs.Prelude.{◌≡◌, ◌||◌, IfOk};
ghost use Rattle.zify.specs.Measure.{measure_of};
ghost use Rattle.clause_form.specs.Polynomial.{poly_of, IsWithinLimits};
ghost use Rattle.clause_form.specs.machine.Fitting.{fitted, fitted_constant, fitted_sum, opposite_fitted, sum_fitted, positive_power, fitted_product, is_zero, product_fitted, times_fitted, turns_product, is_unit, fitted_power};

use mm_poly::{Poly, PolyFail};
use std::alloc::{AllocError, Global};
use zify::ZTerm;

// The polynomial of a term; None where some step has no room.
pub(crate) fn poly(alloc: Global, term: &ZTerm) -> Result<Option<Poly>, AllocError>
    ensures { IfOk result (λ o. o ≡ fitted term.now) }
{
    match term {
        ZTerm::Lit(n) => constant(alloc, *n),
        ZTerm::Var(v) => Ok(Some(Poly::var(alloc, *v)?)),
        ZTerm::Neg(a) => negated(alloc, poly(alloc, a.get())?),
        ZTerm::Add(a, b) => {
            let first = poly(alloc, a.get())?;
            let second = poly(alloc, b.get())?;
            sum(alloc, first, second)
        }
        ZTerm::Sub(a, b) => {
            let first = poly(alloc, a.get())?;
            let second = poly(alloc, b.get())?;
            let second = negated(alloc, second)?;
            sum(alloc, first, second)
        }
        ZTerm::Mul(a, b) => {
            let first = poly(alloc, a.get())?;
            let second = poly(alloc, b.get())?;
            product(alloc, first, second)
        }
        ZTerm::Pow(_, 0) => constant(alloc, 1),
        ZTerm::Pow(a, k) => {
            let base = poly(alloc, a.get())?;
            power(alloc, base, k.unsigned_abs())
        }
    }
}

fn constant(alloc: Global, n: i128) -> Result<Option<Poly>, AllocError>
    ensures { IfOk result (λ o. o ≡ fitted_constant n) }
{
    if n.unsigned_abs() < 1 << 126 {
        Ok(Some(Poly::constant(alloc, n)?))
    } else {
        Ok(None)
    }
}

fn negated(alloc: Global, part: Option<Poly>) -> Result<Option<Poly>, AllocError>
    ensures { IfOk result (λ o. o ≡ opposite_fitted part) }
{
    match part {
        None => Ok(None),
        Some(p) => Ok(Some(p.multiple(alloc, -1)?)),
    }
}

fn sum(alloc: Global, first: Option<Poly>, second: Option<Poly>) -> Result<Option<Poly>, AllocError>
    ensures { IfOk result (λ o. o ≡ sum_fitted first second) }
{
    match (first, second) {
        (Some(p), Some(q)) => sum_of(alloc, &p, &q),
        _ => Ok(None),
    }
}

fn sum_of(alloc: Global, first: &Poly, second: &Poly) -> Result<Option<Poly>, AllocError>
    ensures { IfOk result (λ o. o ≡ fitted_sum first.now second.now) }
{
    match first.add(alloc, second) {
        Ok(p) => Ok(Some(p)),
        Err(PolyFail::Big) => Ok(None),
        Err(PolyFail::NoMemory) => Err(AllocError),
    }
}

fn product_of(alloc: Global, first: &Poly, second: &Poly) -> Result<Option<Poly>, AllocError>
    ensures { IfOk result (λ o. o ≡ fitted_product first.now second.now) }
{
    match first.mul(alloc, second) {
        Ok(p) => Ok(Some(p)),
        Err(PolyFail::Big) => Ok(None),
        Err(PolyFail::NoMemory) => Err(AllocError),
    }
}

fn is_zero(part: &Option<Poly>) -> bool
    ensures { result ≡ is_zero part.now }
{
    match part {
        None => false,
        Some(p) => p.spread() == 0,
    }
}

fn has_zero(first: &Option<Poly>, second: &Option<Poly>) -> bool
    ensures { result ≡ (is_zero first.now || is_zero second.now) }
{
    is_zero(first) || is_zero(second)
}

fn product(
    alloc: Global,
    first: Option<Poly>,
    second: Option<Poly>,
) -> Result<Option<Poly>, AllocError>
    ensures { IfOk result (λ o. o ≡ times_fitted first second) }
{
    if has_zero(&first, &second) {
        return constant(alloc, 0);
    }
    product_of_parts(alloc, first, second)
}

fn product_of_parts(
    alloc: Global,
    first: Option<Poly>,
    second: Option<Poly>,
) -> Result<Option<Poly>, AllocError>
    ensures { IfOk result (λ o. o ≡ product_fitted first second) }
{
    match (first, second) {
        (Some(p), Some(q)) => product_of(alloc, &p, &q),
        _ => Ok(None),
    }
}

fn power(alloc: Global, base: Option<Poly>, k: u128) -> Result<Option<Poly>, AllocError>
    ensures { IfOk result (λ o. o ≡ positive_power base k) }
{
    match base {
        None => Ok(None),
        Some(p) => power_of(alloc, &p, k),
    }
}

fn power_of(alloc: Global, base: &Poly, k: u128) -> Result<Option<Poly>, AllocError>
    ensures { IfOk result (λ o. o ≡ fitted_power base.now k) }
{
    if is_unit(base) {
        turns(alloc, base, 2 - (k % 2) as u32)
    } else if k < 100 {
        turns(alloc, base, k as u32)
    } else {
        Ok(None)
    }
}

// Whether it is 0, 1 or -1.
fn is_unit(base: &Poly) -> bool
    ensures { result ≡ is_unit base.now }
{
    base.degree() == 0 && base.norm() <= 1
}

fn turns(alloc: Global, base: &Poly, count: u32) -> Result<Option<Poly>, AllocError>
    ensures { IfOk result (λ o. o ≡ turns_product base.now count) }
{
    let mut power = Poly::constant(alloc, 1)?;
    for _ in 0..count {
        match product_of(alloc, base, &power)? {
            Some(next) => power = next,
            None => return Ok(None),
        }
    }
    Ok(Some(power))
}

// The polynomial of a term within the limits.
#[tactic(auto, using(crate::proofs::AnswerLaws::found_within))]
pub(crate) fn polynomial(alloc: Global, term: &ZTerm) -> Result<Poly, AllocError>
    requires { IsWithinLimits (measure_of term.now) }
    ensures { IfOk result (λ p. p ≡ poly_of term.now) }
{
    match poly(alloc, term)? {
        Some(p) => Ok(p),
        None => unreachable!(),
    }
}
