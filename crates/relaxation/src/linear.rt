ghost use Rattle.std.specs.Prelude.{◌≡◌, ◌<◌, ◌^◌, IfOk, length, map};
ghost use Rattle.mm_poly.specs.Poly.{coeff_of};
ghost use Rattle.relaxation.specs.Relaxing.{is_equality, IsFormOf, AreFormsOf};

use cert_kit::{Op, PRow};
use mm_poly::{Mono, Poly};
use simplex_core::LinRow;
use std::alloc::{AllocError, Global};

/// The rows as linear forms of the unknowns, in order.
pub fn forms(alloc: Global, rows: &[PRow], unknowns: &[Mono]) -> Result<Vec<LinRow>, AllocError>
    ensures { IfOk result (λ ls. AreFormsOf unknowns.now rows.now ls.items) }
{
    let mut forms = Vec::with_capacity(alloc, rows.len())?;
    for row in rows {
        forms.push(form(alloc, row, unknowns)?)?;
    }
    Ok(forms)
}

fn form(alloc: Global, row: &PRow, unknowns: &[Mono]) -> Result<LinRow, AllocError>
    ensures { IfOk result (IsFormOf unknowns.now row.now) }
{
    let coeffs = coefficients(alloc, &row.poly, unknowns)?;
    Ok(LinRow {
        coeffs,
        constant: row.poly.coefficient(&Mono::one(alloc)),
        equal: is_equality(row.op),
    })
}

fn is_equality(op: Op) -> bool
    ensures { result ≡ is_equality op }
{
    match op {
        Op::Ge => false,
        Op::Eq => true,
    }
}

fn coefficients(alloc: Global, poly: &Poly, unknowns: &[Mono]) -> Result<Vec<i128>, AllocError>
    ensures { IfOk result (λ cs. cs.items ≡ map (coeff_of poly.now) unknowns.now) }
{
    let mut coeffs = Vec::with_capacity(alloc, unknowns.len())?;
    for unknown in unknowns {
        coeffs.push(poly.coefficient(unknown))?;
    }
    Ok(coeffs)
}
