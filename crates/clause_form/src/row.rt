ghost use Rattle.std.specs.Prelude.{◌≡◌, IfOk, map, [], ◌∷◌, if◌then◌else◌};
ghost use Rattle.clause_form.specs.Polynomial.{difference, opposite_of};
ghost use Rattle.clause_form.specs.Alternatives.{at_least, above, equal, first_positive, alone, comparison, ComparisonHasRoom};

use cert_kit::{Op, PRow};
use goal_ast::Cmp;
use mm_poly::Poly;
use std::alloc::{AllocError, Global};

// The rows of a comparison, each an alternative by itself.
pub(crate) fn comparison(
    alloc: Global,
    cmp: Cmp,
    left: &Poly,
    right: &Poly,
) -> Result<Vec<PRow>, AllocError>
    requires { ComparisonHasRoom left.now right.now }
    ensures { IfOk result (λ rows. map alone rows.items ≡ comparison cmp left.now right.now) }
{
    match cmp {
        Cmp::Eq => one(alloc, equal(alloc, left, right)?),
        Cmp::Ne => two(
            alloc,
            above(alloc, left, right)?,
            above(alloc, right, left)?,
        ),
        Cmp::Lt => one(alloc, above(alloc, right, left)?),
        Cmp::Le => one(alloc, at_least(alloc, right, left)?),
        Cmp::Gt => one(alloc, above(alloc, left, right)?),
        Cmp::Ge => one(alloc, at_least(alloc, left, right)?),
    }
}

fn one(alloc: Global, row: PRow) -> Result<Vec<PRow>, AllocError>
    ensures { IfOk result (λ rows. rows.items ≡ row ∷ []) }
{
    let mut rows = Vec::new(alloc);
    rows.push(row)?;
    Ok(rows)
}

fn two(alloc: Global, first: PRow, second: PRow) -> Result<Vec<PRow>, AllocError>
    ensures { IfOk result (λ rows. rows.items ≡ first ∷ second ∷ []) }
{
    let mut rows = Vec::new(alloc);
    rows.push(first)?;
    rows.push(second)?;
    Ok(rows)
}

// left >= right
fn at_least(alloc: Global, left: &Poly, right: &Poly) -> Result<PRow, AllocError>
    requires { ComparisonHasRoom left.now right.now }
    ensures { IfOk result (λ row. row ≡ at_least left.now right.now) }
{
    Ok(PRow {
        poly: difference(alloc, left, right)?,
        op: Op::Ge,
    })
}

// left > right
#[tactic(auto, using(crate::proofs::RowLaws::one_less))]
fn above(alloc: Global, left: &Poly, right: &Poly) -> Result<PRow, AllocError>
    requires { ComparisonHasRoom left.now right.now }
    ensures { IfOk result (λ row. row ≡ above left.now right.now) }
{
    let difference = difference(alloc, left, right)?;
    let minus_one = Poly::constant(alloc, -1)?;
    Ok(PRow {
        poly: difference.sum(alloc, &minus_one)?,
        op: Op::Ge,
    })
}

// left = right
fn equal(alloc: Global, left: &Poly, right: &Poly) -> Result<PRow, AllocError>
    requires { ComparisonHasRoom left.now right.now }
    ensures { IfOk result (λ row. row ≡ equal left.now right.now) }
{
    let difference = difference(alloc, left, right)?;
    Ok(PRow {
        poly: first_positive(alloc, difference)?,
        op: Op::Eq,
    })
}

#[tactic(auto, using(crate::proofs::RowLaws::difference_room))]
fn difference(alloc: Global, left: &Poly, right: &Poly) -> Result<Poly, AllocError>
    requires { ComparisonHasRoom left.now right.now }
    ensures { IfOk result (λ p. p ≡ difference left.now right.now) }
{
    let opposite = right.multiple(alloc, -1)?;
    left.sum(alloc, &opposite)
}

// Times -1 where the first coefficient is negative.
fn first_positive(alloc: Global, poly: Poly) -> Result<Poly, AllocError>
    ensures { IfOk result (λ p. p ≡ first_positive poly) }
{
    if has_negative_first(&poly) {
        poly.multiple(alloc, -1)
    } else {
        Ok(poly)
    }
}

fn has_negative_first(poly: &Poly) -> bool
    ensures { first_positive poly.now ≡ (if result then opposite_of poly.now else poly.now) }
{
    poly.spread() > 0 && poly.term(0).coeff < 0
}
