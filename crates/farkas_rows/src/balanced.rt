ghost use Rattle.std.specs.Prelude.{◌≡◌, ◌+◌, ◌^◌, ◌≤◌, length, IfOk};
ghost use Rattle.mm_num.specs.Small.{IsSmall};
ghost use Rattle.farkas_rows.specs.machine.Parts.{CanCombine, IsCombination, multiple_of, product_by, sum_of, times_row};

use cert_kit::{Op, PRow, Psatz};
use mm_poly::Poly;
use sqlite_items::Boxed;
use std::alloc::{AllocError, Global};

/// The expression for the combination of rows, numbered from `first` on: a sum of sums of each half. None where it
/// is 0.
pub fn combination(
    alloc: Global,
    rows: &[PRow],
    multipliers: &[i128],
    first: u32,
) -> Result<Option<Psatz>, AllocError>
    requires can { CanCombine rows.now multipliers.now }
    requires numbers { first + length rows.now ≤ 2 ^ 32 }
    ensures { IfOk result (IsCombination first rows.now multipliers.now) }
{
    if rows.is_empty() {
        return Ok(None);
    }
    if rows.len() == 1 {
        let only = multiple(alloc, &rows[0], multipliers[0], first)?;
        return Ok(only);
    }
    let half = rows.len() / 2;
    let (front, back) = rows.split_at(half);
    let (front_multipliers, back_multipliers) = multipliers.split_at(half);
    let left = combination(alloc, front, front_multipliers, first)?;
    let right = combination(alloc, back, back_multipliers, first + half as u32)?;
    let sum = added(alloc, left, right)?;
    Ok(sum)
}

// The multiple of the row of a number. None where it is 0.
fn multiple(
    alloc: Global,
    row: &PRow,
    multiplier: i128,
    number: u32,
) -> Result<Option<Psatz>, AllocError>
    requires { IsSmall multiplier }
    ensures { IfOk result (λ e. e ≡ multiple_of multiplier number row.now) }
{
    if multiplier == 0 || row.poly.spread() == 0 {
        return Ok(None);
    }
    let times = times_row(alloc, multiplier, number, row.op)?;
    Ok(Some(times))
}

fn times_row(alloc: Global, multiplier: i128, number: u32, op: Op) -> Result<Psatz, AllocError>
    requires { IsSmall multiplier }
    ensures { IfOk result (λ e. e ≡ times_row multiplier number op) }
{
    if multiplier == 1 {
        return Ok(Psatz::Hyp(number));
    }
    let product = product_by(alloc, multiplier, number, op)?;
    Ok(product)
}

fn product_by(alloc: Global, multiplier: i128, number: u32, op: Op) -> Result<Psatz, AllocError>
    requires { IsSmall multiplier }
    ensures { IfOk result (λ e. e ≡ product_by multiplier number op) }
{
    match op {
        Op::Ge => Ok(Psatz::Mul(
            Boxed::new(alloc, Psatz::Const(multiplier))?,
            Boxed::new(alloc, Psatz::Hyp(number))?,
        )),
        Op::Eq => Ok(Psatz::MulPoly(
            Poly::constant(alloc, multiplier)?,
            Boxed::new(alloc, Psatz::Hyp(number))?,
        )),
    }
}

// The sum of two parts, each of which may be nothing.
fn added(
    alloc: Global,
    left: Option<Psatz>,
    right: Option<Psatz>,
) -> Result<Option<Psatz>, AllocError>
    ensures { IfOk result (λ e. e ≡ sum_of left right) }
{
    let Some(left) = left else {
        return Ok(right);
    };
    let Some(right) = right else {
        return Ok(Some(left));
    };
    Ok(Some(Psatz::Add(Boxed::new(alloc, left)?, Boxed::new(alloc, right)?)))
}
