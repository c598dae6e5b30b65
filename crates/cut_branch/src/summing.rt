ghost use Rattle.std.specs.Prelude.{◌≡◌, IfOk};
ghost use Rattle.farkas_rows.specs.machine.Parts.{product_by, times_row};
ghost use Rattle.cut_branch.specs.machine.Combining.{sum_expression};

use cert_kit::{Op, Psatz};
use mm_poly::Poly;
use sqlite_items::Boxed;
use std::alloc::{AllocError, Global};

/// The expression for the sum of multiples of two rows: of each the multiplier, the number, and how it compares to 0.
pub(crate) fn sum_expression(
    alloc: Global,
    first: (i64, u32, Op),
    second: (i64, u32, Op),
) -> Result<Psatz, AllocError>
    ensures { IfOk result (λ e. e ≡ sum_expression first.0 first.1 first.2 second.0 second.1 second.2) }
{
    let left = times_row(alloc, first.0, first.1, first.2)?;
    let right = times_row(alloc, second.0, second.1, second.2)?;
    Ok(Psatz::Add(Boxed::new(alloc, left)?, Boxed::new(alloc, right)?))
}

// The multiple of the row of a number.
fn times_row(alloc: Global, times: i64, number: u32, op: Op) -> Result<Psatz, AllocError>
    ensures { IfOk result (λ e. e ≡ times_row times number op) }
{
    if times == 1 {
        return Ok(Psatz::Hyp(number));
    }
    product_by(alloc, times, number, op)
}

fn product_by(alloc: Global, times: i64, number: u32, op: Op) -> Result<Psatz, AllocError>
    ensures { IfOk result (λ e. e ≡ product_by times number op) }
{
    match op {
        Op::Ge => Ok(Psatz::Mul(
            Boxed::new(alloc, Psatz::Const(i128::from(times)))?,
            Boxed::new(alloc, Psatz::Hyp(number))?,
        )),
        Op::Eq => Ok(Psatz::MulPoly(
            Poly::constant(alloc, i128::from(times))?,
            Boxed::new(alloc, Psatz::Hyp(number))?,
        )),
    }
}
