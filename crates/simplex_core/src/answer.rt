ghost use Rattle.std.specs.Prelude.{◌≡◌, ◌+◌, ◌<◌, ◌^◌, pos, ◌<ℤ◌, neg_ℤ, IfOk, length};
ghost use Rattle.mm_num.specs.Frac.{IsFraction, HasValue};
ghost use Rattle.simplex_core.specs.Form.{at, one_of, IsPlaced, IsForm};
ghost use Rattle.simplex_core.specs.Walk.{AreNarrow, IsNarrow};
ghost use Rattle.simplex_core.specs.machine.Tableau.{negated, turned, slacks_of, IsValueOf, AreValues};

use crate::LinRow;
use crate::tableau::{Line, push_negated};
use mm_num::Frac;
use std::alloc::{AllocError, Global};

/// The numbers of the slacks, where the constant's number is turned above 0.
pub fn multipliers(
    alloc: Global,
    line: &Line,
    unknowns: usize,
    slacks: usize,
) -> Result<Vec<i128>, AllocError>
    requires placed { IsPlaced (unknowns + slacks) line.now }
    requires narrow { AreNarrow line.now.1 }
    ensures { IfOk result (λ ms. ms.items ≡ slacks_of unknowns slacks (turned (unknowns + slacks) line.now.1)) }
{
    let numbers = line.numbers();
    let part = &numbers[unknowns..unknowns + slacks];
    if numbers[unknowns + slacks] < 0 {
        return negated(alloc, part);
    }
    Vec::from_slice(alloc, part)
}

/// The numbers of the other sign.
fn negated(alloc: Global, numbers: &[i128]) -> Result<Vec<i128>, AllocError>
    requires { AreNarrow numbers.now }
    ensures { IfOk result (λ ms. ms.items ≡ negated numbers.now) }
{
    let mut turned = Vec::with_capacity(alloc, numbers.len())?;
    push_negated(&mut turned, numbers)?;
    Ok(turned)
}

/// The value of the line's variable at the basis's point.
fn basic_value(line: &Line, one: usize) -> Frac
    requires placed { IsPlaced one line.now }
    requires own { pos 0 <ℤ at line.now.1 line.now.0 }
    requires narrow { AreNarrow line.now.1 }
    ensures value { HasValue result (neg_ℤ (at line.now.1 one)) (at line.now.1 line.now.0) }
    ensures fraction { IsFraction result }
{
    let numbers = line.numbers();
    let own = numbers[line.basic() as usize];
    Frac::make(-numbers[one], own).unwrap()
}

/// The fraction 0.
fn zero() -> Frac
    ensures value { result.0 ≡ pos 0 }
    ensures fraction { IsFraction result }
{
    Frac::make(0, 1).unwrap()
}

/// The value of a variable at the basis's point.
fn value_of(lines: &[Line], rows: &[LinRow], unknowns: usize, variable: u32) -> Frac
    requires form { IsForm unknowns rows.now lines.now }
    requires narrow { IsNarrow lines.now }
    requires few { one_of unknowns rows.now < 2 ^ 32 }
    ensures { IsValueOf (one_of unknowns rows.now) lines.now variable result }
{
    for line in lines {
        if line.basic() == variable {
            return basic_value(line, unknowns + rows.len());
        }
    }
    zero()
}

/// The values of the unknowns at the basis's point.
pub fn point(
    alloc: Global,
    lines: &[Line],
    rows: &[LinRow],
    unknowns: usize,
) -> Result<Vec<Frac>, AllocError>
    requires form { IsForm unknowns rows.now lines.now }
    requires narrow { IsNarrow lines.now }
    requires few { one_of unknowns rows.now < 2 ^ 32 }
    ensures count { IfOk result (λ xs. length xs.items ≡ unknowns) }
    ensures values { IfOk result (λ xs. AreValues (one_of unknowns rows.now) lines.now 0 xs.items) }
{
    let mut values = Vec::with_capacity(alloc, unknowns)?;
    for variable in 0..unknowns {
        values.push(value_of(lines, rows, unknowns, variable as u32))?;
    }
    Ok(values)
}
