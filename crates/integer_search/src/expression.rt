use crate::stop::Stop;
use crate::system::Part;
use crate::table::is_small;
use cert_kit::{Op, PRow, Psatz};
use mm_poly::{Poly, PolyFail};
use sqlite_items::Boxed;
use std::alloc::Global;

/// The row of a number, with its multiples of equalities.
pub fn with_parts(alloc: Global, row: u32, parts: &[Part]) -> Result<Psatz, Stop> {
    let mut sum = Psatz::Hyp(row);
    for part in parts {
        let times = constant(alloc, part.times)?;
        let multiple = Psatz::MulPoly(times, Boxed::new(alloc, Psatz::Hyp(part.number))?);
        sum = Psatz::Add(Boxed::new(alloc, sum)?, Boxed::new(alloc, multiple)?);
    }
    Ok(sum)
}

/// So many times the inequality of a number.
pub fn times_row(alloc: Global, times: i128, row: u32) -> Result<Psatz, Stop> {
    if times == 1 {
        return Ok(Psatz::Hyp(row));
    }
    let times = Boxed::new(alloc, Psatz::Const(times))?;
    Ok(Psatz::Mul(times, Boxed::new(alloc, Psatz::Hyp(row))?))
}

/// A constant of magnitude below 2^126.
pub fn constant(alloc: Global, c: i128) -> Result<Poly, Stop> {
    if !is_small(c) {
        return Err(Stop::Lost);
    }
    Ok(Poly::constant(alloc, c)?)
}

/// Hands on a polynomial that is within the limits.
pub fn within(made: Result<Poly, PolyFail>) -> Result<Poly, Stop> {
    match made {
        Ok(poly) => Ok(poly),
        Err(PolyFail::Big) => Err(Stop::Lost),
        Err(PolyFail::NoMemory) => Err(Stop::NoMemory),
    }
}

/// The expression with other numbers of rows: that of the row n is the n-th.
pub fn renumbered(alloc: Global, e: &Psatz, numbers: &[u32]) -> Result<Psatz, Stop> {
    match e {
        Psatz::Hyp(n) => match numbers.get(*n as usize) {
            Some(number) => Ok(Psatz::Hyp(*number)),
            None => Err(Stop::Lost),
        },
        Psatz::Square(_) => Err(Stop::Lost),
        Psatz::MulPoly(poly, a) => {
            if !poly.is_constant() {
                return Err(Stop::Lost);
            }
            let by = poly.copy(alloc)?;
            Ok(Psatz::MulPoly(by, Boxed::new(alloc, renumbered(alloc, a.get(), numbers)?)?))
        }
        Psatz::Mul(a, b) => {
            let left = renumbered(alloc, a.get(), numbers)?;
            let right = renumbered(alloc, b.get(), numbers)?;
            Ok(Psatz::Mul(Boxed::new(alloc, left)?, Boxed::new(alloc, right)?))
        }
        Psatz::Add(a, b) => {
            let left = renumbered(alloc, a.get(), numbers)?;
            let right = renumbered(alloc, b.get(), numbers)?;
            Ok(Psatz::Add(Boxed::new(alloc, left)?, Boxed::new(alloc, right)?))
        }
        Psatz::Const(c) => Ok(Psatz::Const(*c)),
        Psatz::Zero => Ok(Psatz::Zero),
    }
}

/// The row that an expression of constants, sums and products means over rows.
pub fn row_of(alloc: Global, e: &Psatz, rows: &[PRow]) -> Result<PRow, Stop> {
    match e {
        Psatz::Hyp(n) => match rows.get(*n as usize) {
            Some(row) => Ok(row.copy(alloc)?),
            None => Err(Stop::Lost),
        },
        Psatz::Square(_) => Err(Stop::Lost),
        Psatz::MulPoly(poly, a) => {
            let row = row_of(alloc, a.get(), rows)?;
            let poly = within(row.poly.mul(alloc, poly))?;
            Ok(PRow { poly, op: row.op })
        }
        Psatz::Mul(a, b) => {
            let (left, right) = (row_of(alloc, a.get(), rows)?, row_of(alloc, b.get(), rows)?);
            let poly = within(left.poly.mul(alloc, &right.poly))?;
            Ok(PRow {
                poly,
                op: joint(left.op, right.op),
            })
        }
        Psatz::Add(a, b) => {
            let (left, right) = (row_of(alloc, a.get(), rows)?, row_of(alloc, b.get(), rows)?);
            let poly = within(left.poly.add(alloc, &right.poly))?;
            Ok(PRow {
                poly,
                op: joint(left.op, right.op),
            })
        }
        Psatz::Const(c) => Ok(PRow {
            poly: constant(alloc, *c)?,
            op: Op::Ge,
        }),
        Psatz::Zero => Ok(PRow {
            poly: constant(alloc, 0)?,
            op: Op::Eq,
        }),
    }
}

// An equality where both are.
fn joint(a: Op, b: Op) -> Op {
    match (a, b) {
        (Op::Eq, Op::Eq) => Op::Eq,
        _ => Op::Ge,
    }
}
