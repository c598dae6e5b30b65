ghost use Rattle.std.specs.Prelude.{◌≡◌, true, ◌&&◌, OnOk};
ghost use Rattle.cert_kit.specs.Meaning.{own_bounds, are_within, at_least_0};
ghost use Rattle.cert_kit.specs.Acceptance.{with_row, below_0, below_bounds};
ghost use Rattle.cert_kit.specs.declared.node.Fault.TheVariants.{Bound};
ghost use Rattle.cert_kit.specs.FirstFault.{unless};
ghost use Rattle.cert_check.specs.Checking.{Finds};

use crate::fail::CheckFail;
use crate::node::within;
use crate::rows::Rows;
use cert_kit::{Bounds, Op, PRow};
use mm_poly::Poly;
use std::alloc::{AllocError, Global};

/// Tests the bounds of the polynomial, and those of its negation less 1.
pub fn test_split(poly: &Poly) -> Result<(), CheckFail>
    ensures { Finds result (unless (are_within (own_bounds poly.now) && are_within (below_bounds poly.now)) Bound) }
{
    within(Bounds::of(poly).tested())?;
    within(Bounds::below(poly).tested())?;
    Ok(())
}

/// Appends the row that the polynomial is at least 0.
pub fn push_upper_side(alloc: Global, rows: &mut Rows<'_>, poly: &Poly) -> Result<(), AllocError>
    ensures { OnOk result (rows.new ≡ with_row rows.old (at_least_0 poly.now)) }
{
    rows.push(PRow {
        poly: poly.copy(alloc)?,
        op: Op::Ge,
    })
}

/// Appends the row that the polynomial's negation less 1 is at least 0.
pub fn push_lower_side(alloc: Global, rows: &mut Rows<'_>, poly: &Poly) -> Result<(), AllocError>
    requires { are_within (below_bounds poly.now) ≡ true }
    ensures { OnOk result (rows.new ≡ with_row rows.old (at_least_0 (below_0 poly.now))) }
{
    let negated = poly.multiple(alloc, -1)?;
    let poly = negated.into_sum(alloc, Poly::constant(alloc, -1)?)?;
    rows.push(PRow { poly, op: Op::Ge })
}
