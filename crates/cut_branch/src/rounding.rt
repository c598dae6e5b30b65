ghost use Rattle.std.specs.Prelude.{◌≡◌, ℕ, ◌<◌, pos, ◌<ℤ◌, length, IfOk, IfSome, IsTrue, OnOk};
ghost use Rattle.std.specs.List.{AllByRecursion};
ghost use Rattle.std.specs.List.Sorted.{IsStrictlySortedBy};
ghost use Rattle.std.specs.Ordering.{nat_cmp};
ghost use Rattle.mm_num.specs.Small.{IsSmall};
ghost use Rattle.cert_kit.specs.Meaning.{sum_op};
ghost use Rattle.cut_branch.specs.Points.{AreLinear};
ghost use Rattle.cut_branch.specs.machine.Combining.{HasFalseRow, IsFalseSum, MayMultiply, MaySum};

use crate::own::false_cut;
use crate::scaled::{Scaled, value_over};
use crate::summing::sum_expression;
use cert_kit::{Op, PRow, Psatz, have_bounds};
use mm_poly::PolyFail;
use std::alloc::{AllocError, Global};

// At most this many rows that are 0 at the point are combined.
const MOST_TIGHT: usize = 12;

// The multipliers that are tried, those below 0 for equalities alone.
const MULTIPLIERS: [i64; 6] = [1, 2, 3, -1, -2, -3];

/// A sum of small multiples of two rows that are 0 at the point, whose cut is false there (Chvátal and Gomory).
pub(crate) fn rounded(
    alloc: Global,
    rows: &[PRow],
    vars: &[u32],
    at: &Scaled,
) -> Result<Option<Psatz>, AllocError>
    requires linear { AreLinear rows.now }
    requires rising { IsStrictlySortedBy nat_cmp vars.now }
    requires each { length at.now.nums.items ≡ length vars.now }
    requires positive { pos 0 <ℤ at.now.den }
    requires small { IsSmall at.now.den }
    ensures { IfOk result (λ found. IfSome found (HasFalseRow rows.now vars.now at.now)) }
{
    let tight = tight_rows(alloc, rows, vars, at)?;
    for first in &tight {
        if let Some(found) = with_later(alloc, rows, vars, at, *first, &tight)? {
            return Ok(Some(found));
        }
    }
    Ok(None)
}

// The numbers of the first rows that are 0 at the point.
fn tight_rows(
    alloc: Global,
    rows: &[PRow],
    vars: &[u32],
    at: &Scaled,
) -> Result<Vec<u32>, AllocError>
    requires rising { IsStrictlySortedBy nat_cmp vars.now }
    requires each { length at.now.nums.items ≡ length vars.now }
    ensures { IfOk result (λ tight. AllByRecursion (λ n. n < length rows.now) tight.items) }
{
    let mut tight = Vec::new(alloc);
    for (place, row) in rows.iter().enumerate() {
        push_tight(&mut tight, place, row, vars, at)?;
    }
    Ok(tight)
}

// Pushes the number of a row at a place, where it is 0 at the point and there are few yet.
fn push_tight(
    tight: &mut Vec<u32>,
    place: usize,
    row: &PRow,
    vars: &[u32],
    at: &Scaled,
) -> Result<(), AllocError>
    requires rising { IsStrictlySortedBy nat_cmp vars.now }
    requires each { length at.now.nums.items ≡ length vars.now }
    ensures { OnOk result ((k : ℕ) → place < k → AllByRecursion (λ n. n < k) tight.old.items → AllByRecursion (λ n. n < k) tight.new.items) }
{
    if tight.len() < MOST_TIGHT && is_tight(row, vars, at) {
        return push_number(tight, place);
    }
    Ok(())
}

// Whether a row with variables is 0 at the point.
fn is_tight(row: &PRow, vars: &[u32], at: &Scaled) -> bool
    requires rising { IsStrictlySortedBy nat_cmp vars.now }
    requires each { length at.now.nums.items ≡ length vars.now }
{
    !row.poly.is_constant() && value_over(&row.poly, vars, at) == Some(0)
}

// Pushes a row's number, where it is one.
fn push_number(numbers: &mut Vec<u32>, place: usize) -> Result<(), AllocError>
    ensures { OnOk result ((k : ℕ) → place < k → AllByRecursion (λ n. n < k) numbers.old.items → AllByRecursion (λ n. n < k) numbers.new.items) }
{
    if let Ok(number) = u32::try_from(place) {
        numbers.push(number)?;
    }
    Ok(())
}

// The first such sum of a row and a later one of these.
fn with_later(
    alloc: Global,
    rows: &[PRow],
    vars: &[u32],
    at: &Scaled,
    first: u32,
    tight: &[u32],
) -> Result<Option<Psatz>, AllocError>
    requires linear { AreLinear rows.now }
    requires first { first < length rows.now }
    requires tight { AllByRecursion (λ n. n < length rows.now) tight.now }
    requires rising { IsStrictlySortedBy nat_cmp vars.now }
    requires each { length at.now.nums.items ≡ length vars.now }
    requires positive { pos 0 <ℤ at.now.den }
    requires small { IsSmall at.now.den }
    ensures { IfOk result (λ found. IfSome found (HasFalseRow rows.now vars.now at.now)) }
{
    for second in tight {
        if *second > first {
            if let Some(found) = with_other(alloc, rows, vars, at, first, *second)? {
                return Ok(Some(found));
            }
        }
    }
    Ok(None)
}

// The first such sum of two rows.
fn with_other(
    alloc: Global,
    rows: &[PRow],
    vars: &[u32],
    at: &Scaled,
    first: u32,
    second: u32,
) -> Result<Option<Psatz>, AllocError>
    requires linear { AreLinear rows.now }
    requires first { first < length rows.now }
    requires second { second < length rows.now }
    requires rising { IsStrictlySortedBy nat_cmp vars.now }
    requires each { length at.now.nums.items ≡ length vars.now }
    requires positive { pos 0 <ℤ at.now.den }
    requires small { IsSmall at.now.den }
    ensures { IfOk result (λ found. IfSome found (HasFalseRow rows.now vars.now at.now)) }
{
    for a in MULTIPLIERS.iter() {
        for b in MULTIPLIERS.iter() {
            if let Some(found) = multiples(alloc, rows, vars, at, (first, *a), (second, *b))? {
                return Ok(Some(found));
            }
        }
    }
    Ok(None)
}

// The sum of multiples of two rows, each a number and a multiplier, where its cut is false at the point.
fn multiples(
    alloc: Global,
    rows: &[PRow],
    vars: &[u32],
    at: &Scaled,
    first: (u32, i64),
    second: (u32, i64),
) -> Result<Option<Psatz>, AllocError>
    requires linear { AreLinear rows.now }
    requires first { first.0 < length rows.now }
    requires second { second.0 < length rows.now }
    requires rising { IsStrictlySortedBy nat_cmp vars.now }
    requires each { length at.now.nums.items ≡ length vars.now }
    requires positive { pos 0 <ℤ at.now.den }
    requires small { IsSmall at.now.den }
    ensures { IfOk result (λ found. IfSome found (HasFalseRow rows.now vars.now at.now)) }
{
    have_bounds(rows);
    let one = &rows[first.0 as usize];
    let other = &rows[second.0 as usize];
    if !may_sum(alloc, one, first.1, other, second.1, vars, at)? {
        return Ok(None);
    }
    let sum = sum_expression(
        alloc,
        (first.1, first.0, one.op),
        (second.1, second.0, other.op),
    )?;
    Ok(Some(sum))
}

// Whether two rows may be multiplied by these numbers, and the cut of the sum is false at the point.
fn may_sum(
    alloc: Global,
    one: &PRow,
    a: i64,
    other: &PRow,
    b: i64,
    vars: &[u32],
    at: &Scaled,
) -> Result<bool, AllocError>
    requires rising { IsStrictlySortedBy nat_cmp vars.now }
    requires each { length at.now.nums.items ≡ length vars.now }
    requires positive { pos 0 <ℤ at.now.den }
    requires small { IsSmall at.now.den }
    ensures { IfOk result (λ may. IsTrue may → MaySum a one.now b other.now vars.now at.now) }
{
    if may_multiply(one.op, a) && may_multiply(other.op, b) {
        is_false_sum(alloc, one, a, other, b, vars, at)
    } else {
        Ok(false)
    }
}

// Whether a row may be multiplied by a number, which isn't 0.
fn may_multiply(op: Op, times: i64) -> bool
    ensures { IsTrue result → MayMultiply op times }
{
    match op {
        Op::Ge => times > 0,
        Op::Eq => times != 0,
    }
}

// Whether the sum of multiples of two rows is within the limits, and its cut false at the point.
fn is_false_sum(
    alloc: Global,
    one: &PRow,
    a: i64,
    other: &PRow,
    b: i64,
    vars: &[u32],
    at: &Scaled,
) -> Result<bool, AllocError>
    requires rising { IsStrictlySortedBy nat_cmp vars.now }
    requires each { length at.now.nums.items ≡ length vars.now }
    requires positive { pos 0 <ℤ at.now.den }
    requires small { IsSmall at.now.den }
    ensures { IfOk result (λ found. IsTrue found → IsFalseSum a one.now b other.now vars.now at.now) }
{
    let sum = one
        .poly
        .combination(alloc, i128::from(a), &other.poly, i128::from(b));
    match sum {
        Ok(poly) => {
            let row = PRow {
                poly,
                op: sum_op(one.op, other.op),
            };
            Ok(false_cut(&row, vars, at).is_some())
        }
        Err(PolyFail::Big) => Ok(false),
        Err(PolyFail::NoMemory) => Err(AllocError),
    }
}

// A sum is 0 where both parts are.
fn sum_op(one: Op, other: Op) -> Op
    ensures { result ≡ sum_op one other }
{
    match (one, other) {
        (Op::Eq, Op::Eq) => Op::Eq,
        _ => Op::Ge,
    }
}
