ghost use Rattle.std.specs.Prelude.{◌≡◌, ◌∷◌, [], ◌++◌, map, true, IfOk, OnOk};
ghost use Rattle.std.specs.List.{list_all};
ghost use Rattle.nia_products.specs.Squares.{is_even, is_square, poly_squares, row_squares, squares_of, half_of, poly_of, square_row, square_source};
ghost use Rattle.nia_products.specs.machine.Lending.{lent};

use crate::enriched::Enriched;
use cert_kit::{Op, PRow, Psatz};
use mm_poly::{Factors, Mono, Poly, Term};
use smallvec::SmallVec;
use std::alloc::{AllocError, Global};
use std::cmp::Ordering;

/// Adds that each square monomial of rows is at least 0, in monomial order.
pub fn add_squares(alloc: Global, enriched: &mut Enriched, rows: &[PRow]) -> Result<(), AllocError>
    ensures rows { OnOk result (enriched.new.clause.rows ≡ enriched.old.clause.rows ++ map square_row (squares_of rows.now)) }
    ensures sources { OnOk result (enriched.new.sources.items ≡ enriched.old.sources.items ++ map square_source (squares_of rows.now)) }
{
    let monos = squares(alloc, rows)?;
    push_squares(alloc, enriched, &monos)
}

// The square monomials of rows, in monomial order, each once.
fn squares(alloc: Global, rows: &[PRow]) -> Result<Vec<&Mono>, AllocError>
    ensures value { IfOk result (λ monos. lent monos.items ≡ squares_of rows.now) }
    ensures even { IfOk result (λ monos. list_all is_square (lent monos.items) ≡ true) }
{
    let mut monos = squares_as_they_stand(alloc, rows)?;
    monos.sort_unstable_by(|first, second| first.order(second));
    monos.dedup_by(|next, last| next.order(last) == Ordering::Equal);
    Ok(monos)
}

// The square monomials of rows, row after row.
fn squares_as_they_stand(alloc: Global, rows: &[PRow]) -> Result<Vec<&Mono>, AllocError>
    ensures { IfOk result (λ monos. lent monos.items ≡ row_squares rows.now) }
{
    let mut monos = Vec::new(alloc);
    for row in rows {
        lend_squares(&mut monos, row.poly.terms())?;
    }
    Ok(monos)
}

fn lend_squares<'a>(monos: &mut Vec<&'a Mono>, terms: &'a [Term]) -> Result<(), AllocError>
    ensures { OnOk result (lent monos.new.items ≡ lent monos.old.items ++ poly_squares terms.now) }
{
    for term in terms {
        if is_square(&term.mono) {
            monos.push(&term.mono)?;
        }
    }
    Ok(())
}

// Whether it isn't constant and each exponent is even.
fn is_square(mono: &Mono) -> bool
    ensures { result ≡ is_square mono.now }
{
    !mono.is_empty() && are_even(mono.factors())
}

fn are_even(factors: &[(u32, u8)]) -> bool
    ensures { result ≡ list_all is_even factors.now }
{
    for factor in factors {
        if factor.1 % 2 != 0 {
            return false;
        }
    }
    true
}

fn push_squares(alloc: Global, enriched: &mut Enriched, monos: &[&Mono]) -> Result<(), AllocError>
    requires { list_all is_square (lent monos.now) ≡ true }
    ensures rows { OnOk result (enriched.new.clause.rows ≡ enriched.old.clause.rows ++ map square_row (lent monos.now)) }
    ensures sources { OnOk result (enriched.new.sources.items ≡ enriched.old.sources.items ++ map square_source (lent monos.now)) }
{
    for mono in monos {
        push_square(alloc, enriched, mono)?;
    }
    Ok(())
}

fn push_square(alloc: Global, enriched: &mut Enriched, mono: &Mono) -> Result<(), AllocError>
    requires { is_square mono.now ≡ true }
    ensures rows { OnOk result (enriched.new.clause.rows ≡ enriched.old.clause.rows ++ square_row mono.now ∷ []) }
    ensures sources { OnOk result (enriched.new.sources.items ≡ enriched.old.sources.items ++ square_source mono.now ∷ []) }
{
    let row = PRow {
        poly: single(alloc, mono.copy()?)?,
        op: Op::Ge,
    };
    let root = single(alloc, half(alloc, mono)?)?;
    enriched.push(row, Psatz::Square(root))
}

// The polynomial of a monomial.
fn single(alloc: Global, mono: Mono) -> Result<Poly, AllocError>
    ensures { IfOk result (λ p. p ≡ poly_of mono) }
{
    prove!(mono.degree() <= 255);
    let mut terms = Vec::with_capacity(alloc, 1)?;
    terms.push(Term { coeff: 1, mono })?;
    match Poly::from_terms(terms) {
        Some(poly) => Ok(poly),
        None => unreachable!(),
    }
}

// The monomial with halved exponents.
fn half(alloc: Global, mono: &Mono) -> Result<Mono, AllocError>
    requires { is_square mono.now ≡ true }
    ensures { IfOk result (λ m. m ≡ half_of mono.now) }
{
    let factors = halved(alloc, mono.factors())?;
    match Mono::from_factors(factors) {
        Some(half) => Ok(half),
        None => unreachable!(),
    }
}

fn halved(alloc: Global, factors: &[(u32, u8)]) -> Result<Factors, AllocError>
    ensures { IfOk result (λ out. out.items ≡ half_of factors.now) }
{
    let mut out = SmallVec::with_capacity(alloc, factors.len())?;
    for factor in factors {
        out.push((factor.0, factor.1 / 2))?;
    }
    Ok(out)
}
