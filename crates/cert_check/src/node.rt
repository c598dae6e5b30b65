ghost use Rattle.std.specs.Prelude.{◌≡◌, IfOk, slice_get, []};
ghost use Rattle.mm_poly.specs.Poly.{times};
ghost use Rattle.cert_kit.specs.Meaning.{own_bounds, no_bounds, product_bounds, sum_bounds, constant_bounds, product_row, sum_row, product_op, sum_op, multiple_row, constant_row, at_least_0, equal_to_0};
ghost use Rattle.cert_kit.specs.FirstFault.{row_at, tested, tested_rule, bounds_of};
ghost use Rattle.cert_check.specs.Checking.{Gives, CoversRow, bounded};

use crate::fail::CheckFail;
use crate::rows::Rows;
use crate::walked::Walked;
use cert_kit::{Bounds, Fault, Op, PRow};
use mm_poly::Poly;
use sqlite_items::Boxed;
use std::alloc::Global;

/// Bounds within the limits, or their fault.
pub fn within(bounds: Option<Bounds>) -> Result<Bounds, CheckFail>
    ensures { Gives result (bounded bounds) }
{
    bounds.ok_or(CheckFail::Wrong(Fault::Bound))
}

/// The row of a number, with its own bounds.
pub fn row_node<'a>(
    alloc: Global,
    rows: &'a Rows<'_>,
    n: u32,
) -> Result<Boxed<Walked<'a>>, CheckFail>
    ensures gives { Gives result (row_at (slice_get rows.now n)) }
    ensures covers { IfOk result CoversRow }
{
    match rows.get(n as usize) {
        Some(row) => own_node(alloc, row),
        None => Err(CheckFail::Wrong(Fault::Rule)),
    }
}

// A row with its own bounds, which are within the limits.
fn own_node<'a>(alloc: Global, row: &'a PRow) -> Result<Boxed<Walked<'a>>, CheckFail>
    ensures gives { Gives result (tested row.now (own_bounds row.now.poly)) }
    ensures covers { IfOk result CoversRow }
{
    let bounds = within(Bounds::of(&row.poly).tested())?;
    Ok(Boxed::new(alloc, Walked::lent(row, bounds))?)
}

/// The square of a polynomial is at least 0.
pub fn square_node<'a>(alloc: Global, poly: &Poly) -> Result<Boxed<Walked<'a>>, CheckFail>
    ensures gives { Gives result (tested (at_least_0 (times poly.now poly.now)) (product_bounds (own_bounds poly.now) (own_bounds poly.now))) }
    ensures covers { IfOk result CoversRow }
{
    let own = Bounds::of(poly);
    let bounds = within(own.times(own))?;
    let square = poly.product(alloc, poly)?;
    Ok(Boxed::new(alloc, Walked::made(square, Op::Ge, bounds))?)
}

/// A polynomial times a part, which has to be an equality.
pub fn multiple_node<'a>(
    alloc: Global,
    poly: &Poly,
    part: &Walked<'_>,
) -> Result<Boxed<Walked<'a>>, CheckFail>
    requires { CoversRow part.now }
    ensures gives { Gives result (tested_rule (multiple_row poly.now part.now.row.op part.now.row.poly) (product_bounds (own_bounds poly.now) (bounds_of part.now))) }
    ensures covers { IfOk result CoversRow }
{
    let row = part.row();
    if row.op == Op::Ge {
        return Err(CheckFail::Wrong(Fault::Rule));
    }
    let bounds = within(Bounds::of(poly).times(part.bounds()))?;
    let multiple = poly.product(alloc, &row.poly)?;
    Ok(Boxed::new(alloc, Walked::made(multiple, Op::Eq, bounds))?)
}

/// The product of two parts.
pub fn product_node<'a>(
    alloc: Global,
    first: &Walked<'_>,
    second: &Walked<'_>,
) -> Result<Boxed<Walked<'a>>, CheckFail>
    requires first { CoversRow first.now }
    requires second { CoversRow second.now }
    ensures gives { Gives result (tested (product_row first.now.row second.now.row) (product_bounds (bounds_of first.now) (bounds_of second.now))) }
    ensures covers { IfOk result CoversRow }
{
    let bounds = within(first.bounds().times(second.bounds()))?;
    let (first, second) = (first.row(), second.row());
    let poly = first.poly.product(alloc, &second.poly)?;
    let op = op_of_product(first.op, second.op);
    Ok(Boxed::new(alloc, Walked::made(poly, op, bounds))?)
}

/// The sum of two parts, made of their own terms.
pub fn sum_node<'a>(
    alloc: Global,
    first: Walked<'_>,
    second: Walked<'_>,
) -> Result<Boxed<Walked<'a>>, CheckFail>
    requires first { CoversRow first }
    requires second { CoversRow second }
    ensures gives { Gives result (tested (sum_row first.entry.row second.entry.row) (sum_bounds (bounds_of first.entry) (bounds_of second.entry))) }
    ensures covers { IfOk result CoversRow }
{
    let bounds = within(first.bounds().plus(second.bounds()))?;
    let op = op_of_sum(first.row().op, second.row().op);
    let poly = first.into_sum(alloc, second)?;
    Ok(Boxed::new(alloc, Walked::made(poly, op, bounds))?)
}

/// A constant of at least 1 is at least 0.
pub fn constant_node<'a>(alloc: Global, c: i128) -> Result<Boxed<Walked<'a>>, CheckFail>
    ensures gives { Gives result (tested_rule (constant_row c) (constant_bounds c)) }
    ensures covers { IfOk result CoversRow }
{
    if c < 1 {
        return Err(CheckFail::Wrong(Fault::Rule));
    }
    let bounds = within(Bounds::of_constant(c).tested())?;
    let poly = Poly::constant(alloc, c)?;
    Ok(Boxed::new(alloc, Walked::made(poly, Op::Ge, bounds))?)
}

/// 0 is 0.
pub fn zero_node<'a>(alloc: Global) -> Result<Boxed<Walked<'a>>, CheckFail>
    ensures gives { Gives result (tested (equal_to_0 []) no_bounds) }
    ensures covers { IfOk result CoversRow }
{
    let bounds = Bounds::none();
    let poly = Poly::constant(alloc, 0)?;
    Ok(Boxed::new(alloc, Walked::made(poly, Op::Eq, bounds))?)
}

// A product is 0 where a factor is.
fn op_of_product(first: Op, second: Op) -> Op
    ensures { result ≡ product_op first second }
{
    match (first, second) {
        (Op::Ge, Op::Ge) => Op::Ge,
        _ => Op::Eq,
    }
}

// A sum is 0 where both parts are.
fn op_of_sum(first: Op, second: Op) -> Op
    ensures { result ≡ sum_op first second }
{
    match (first, second) {
        (Op::Eq, Op::Eq) => Op::Eq,
        _ => Op::Ge,
    }
}
