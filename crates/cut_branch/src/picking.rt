ghost use Rattle.std.specs.Prelude.{◌≡◌, ◌↔◌, pos, ◌<ℤ◌, length, IfOk, IfSome, IsNone};
ghost use Rattle.std.specs.List.Sorted.{IsStrictlySortedBy};
ghost use Rattle.std.specs.Ordering.{nat_cmp};
ghost use Rattle.mm_num.specs.Small.{IsSmall};
ghost use Rattle.cert_kit.specs.Variables.{variables_of};
ghost use Rattle.cut_branch.specs.Points.{AreLinear, IsIntegral};
ghost use Rattle.cut_branch.specs.Picking.{PicksIntegral, IfCut, IfSplit, IsCutOff, FitsStep, IsBetween, FitsSplit};
ghost use Rattle.cut_branch.specs.machine.Combining.{HasFalseRow};

use crate::own::own_cut;
use crate::range::ranges;
use crate::rounding::rounded;
use crate::scaled::{Scaled, have_fractions, over_one};
use crate::splitting::{is_integral, narrowest, split};
use crate::types::Pick;
use cert_kit::{Clause, PRow, Psatz, have_bounds, variables};
use mm_num::Frac;
use mm_poly::Poly;
use std::alloc::{AllocError, Global};

/// What comes next at a point that gives the variables of a linear clause, in order, these values: a row's cut that is
/// false there, of the row with the least value; else the cut of a sum of small multiples of two rows that are 0 there;
/// else a split of a value that isn't whole, that of the variable with the narrowest range. Rows with numbers that reach
/// 2^126 are passed over.
pub fn pick(alloc: Global, clause: &Clause, point: &[Frac]) -> Result<Pick, AllocError>
    requires linear { AreLinear clause.now.rows }
    requires count { length point.now ≡ length (variables_of clause.now.rows) }
    ensures integral { IfOk result (λ picked. PicksIntegral picked ↔ IsIntegral point.now) }
    ensures cut { IfOk result (IfCut (IsCutOff clause.now.rows point.now)) }
    ensures cut_fits { IfOk result (IfCut (FitsStep clause.now.rows)) }
    ensures split { IfOk result (IfSplit (IsBetween clause.now.rows point.now)) }
    ensures split_fits { IfOk result (IfSplit FitsSplit) }
{
    if is_integral(point) {
        return Ok(Pick::Integral);
    }
    let rows = clause.rows.as_slice();
    let vars = variables(alloc, rows)?;
    if let Some(cut) = cut_off(alloc, rows, &vars, point)? {
        return Ok(Pick::Cut(cut));
    }
    let poly = split_off(alloc, rows, &vars, point)?;
    Ok(Pick::Split(poly))
}

/// The split that comes next at such a point where no cut is wanted; none where all values are whole.
pub fn pick_split(
    alloc: Global,
    clause: &Clause,
    point: &[Frac],
) -> Result<Option<Poly>, AllocError>
    requires { length point.now ≡ length (variables_of clause.now.rows) }
    ensures integral { IfOk result (λ found. IsNone found ↔ IsIntegral point.now) }
    ensures split { IfOk result (λ found. IfSome found (IsBetween clause.now.rows point.now)) }
    ensures split_fits { IfOk result (λ found. IfSome found FitsSplit) }
{
    if is_integral(point) {
        return Ok(None);
    }
    let rows = clause.rows.as_slice();
    let vars = variables(alloc, rows)?;
    Ok(Some(split_off(alloc, rows, &vars, point)?))
}

// An expression whose row's cut is false at the point.
fn cut_off(
    alloc: Global,
    rows: &[PRow],
    vars: &[u32],
    point: &[Frac],
) -> Result<Option<Psatz>, AllocError>
    requires linear { AreLinear rows.now }
    requires vars { vars.now ≡ variables_of rows.now }
    requires count { length point.now ≡ length vars.now }
    ensures cut { IfOk result (λ found. IfSome found (IsCutOff rows.now point.now)) }
    ensures fits { IfOk result (λ found. IfSome found (FitsStep rows.now)) }
{
    let Some(at) = over_one(alloc, point)? else {
        return Ok(None);
    };
    false_row(alloc, rows, vars, &at)
}

// An expression whose row has a cut that is false at the point: a row's own number is tried first.
fn false_row(
    alloc: Global,
    rows: &[PRow],
    vars: &[u32],
    at: &Scaled,
) -> Result<Option<Psatz>, AllocError>
    requires linear { AreLinear rows.now }
    requires rising { IsStrictlySortedBy nat_cmp vars.now }
    requires each { length at.now.nums.items ≡ length vars.now }
    requires positive { pos 0 <ℤ at.now.den }
    requires small { IsSmall at.now.den }
    ensures { IfOk result (λ found. IfSome found (HasFalseRow rows.now vars.now at.now)) }
{
    have_bounds(rows);
    match own_cut(rows, vars, at) {
        Some(number) => Ok(Some(Psatz::Hyp(number))),
        None => rounded(alloc, rows, vars, at),
    }
}

// A split at the point, where some value isn't whole.
fn split_off(alloc: Global, rows: &[PRow], vars: &[u32], point: &[Frac]) -> Result<Poly, AllocError>
    requires vars { vars.now ≡ variables_of rows.now }
    requires count { length point.now ≡ length vars.now }
    requires some { IsIntegral point.now → ⊥ }
    ensures split { IfOk result (IsBetween rows.now point.now) }
    ensures fits { IfOk result FitsSplit }
{
    have_fractions(point);
    let ranges = ranges(alloc, rows, vars)?;
    let Some(place) = narrowest(point, &ranges) else {
        unreachable!()
    };
    split(alloc, vars[place], &point[place])
}
