ghost use Rattle.std.specs.Prelude.{◌≡◌, ◌≤◌, IsTrue, IfOk, IfSome};
ghost use Rattle.std.specs.List.{AllByRecursion};
ghost use Rattle.mm_num.specs.Small.{IsSmall};
ghost use Rattle.mm_poly.specs.Point.{point_of};
ghost use Rattle.mm_poly.specs.Poly.{value};
ghost use Rattle.cert_kit.specs.Row.{Compares, Holds, Solves};
ghost use Rattle.cert_kit.specs.Acceptance.{IsGood};
ghost use Rattle.cert_kit.specs.Depth.{cert_depth, MakesCert};

use crate::table::is_small;
use cert_check::{Verdict, check};
use cert_kit::{Cert, Clause, Op, PRow, depth};
use mm_poly::Poly;
use std::alloc::{AllocError, Global};

/// The certificate, where the rules accept it for the clause and it is at most 4,000 deep.
pub fn accepted(alloc: Global, clause: &Clause, cert: Cert) -> Result<Option<Cert>, AllocError>
    ensures good { IfOk result (λ found. IfSome found (IsGood clause.now.rows)) }
    ensures makes { IfOk result (λ found. IfSome found (λ c. MakesCert c.steps c.close)) }
    ensures shallow { IfOk result (λ found. IfSome found (λ c. cert_depth c ≤ 4000)) }
{
    if depth(&cert) > 4000 || !Cert::can_make(cert.steps.as_slice(), &cert.close) {
        return Ok(None);
    }
    match check(alloc, clause, &cert)? {
        Verdict::Accepted => Ok(Some(cert)),
        Verdict::Rejected => Ok(None),
        Verdict::Size => Ok(None),
    }
}

/// Whether small values solve the rows.
pub fn solve(alloc: Global, rows: &[PRow], values: &[i128]) -> Result<bool, AllocError>
    ensures small { IfOk result (λ b. IsTrue b → AllByRecursion IsSmall values.now) }
    ensures solves { IfOk result (λ b. IsTrue b → Solves (point_of values.now) rows.now) }
{
    if !are_small(values) {
        return Ok(false);
    }
    for row in rows {
        if !holds(alloc, row, values)? {
            return Ok(false);
        }
    }
    Ok(true)
}

fn are_small(values: &[i128]) -> bool
    ensures { IsTrue result → AllByRecursion IsSmall values.now }
{
    values.iter().all(|value| is_small(*value))
}

fn holds(alloc: Global, row: &PRow, values: &[i128]) -> Result<bool, AllocError>
    ensures { IfOk result (λ b. IsTrue b → Holds (point_of values.now) row.now) }
{
    match value_at(alloc, &row.poly, values)? {
        Some(value) => Ok(compares(row.op, value)),
        None => Ok(false),
    }
}

// The value at the point, where it is small. The constant is apart, so that the bound on values leaves it out.
#[tactic(auto, using(mm_poly::proofs::CutLaws::value_parts))]
fn value_at(alloc: Global, poly: &Poly, values: &[i128]) -> Result<Option<i128>, AllocError>
    ensures { IfOk result (λ o. IfSome o (λ v. v ≡ value (point_of values.now) poly.now)) }
{
    let unknowns = poly.without_constant(alloc)?;
    if !unknowns.has_places(values.len()) {
        return Ok(None);
    }
    match unknowns.value(values) {
        Some(value) => Ok(value.checked_add(poly.constant_term())),
        None => Ok(None),
    }
}

fn compares(op: Op, value: i128) -> bool
    ensures { IsTrue result → Compares op value }
{
    match op {
        Op::Ge => value >= 0,
        Op::Eq => value == 0,
    }
}
