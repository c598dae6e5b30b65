ghost use Rattle.std.specs.Prelude.{IsTrue};
ghost use Rattle.mm_num.specs.Small.{IsSmall};

use crate::stop::{Stop, push};
use mm_num::gcd;
use std::alloc::{AllocError, Global};

/// The limit of numbers, 2^126.
pub const SMALL_LIMIT: u128 = 1 << 126;

/// Numbers in rows of equal length.
pub type Table = Vec<Vec<i128>>;

/// So many zeros.
pub fn zeros(alloc: Global, count: usize) -> Result<Vec<i128>, AllocError> {
    let mut out = Vec::with_capacity(alloc, count)?;
    for _ in 0..count {
        out.push(0)?;
    }
    Ok(out)
}

/// The rows of the identity.
pub fn identity(alloc: Global, count: usize) -> Result<Table, AllocError> {
    let mut out = Vec::with_capacity(alloc, count)?;
    for place in 0..count {
        out.push(mark(alloc, place, count)?)?;
    }
    Ok(out)
}

fn mark(alloc: Global, place: usize, count: usize) -> Result<Vec<i128>, AllocError> {
    let mut out = Vec::with_capacity(alloc, count)?;
    for v in 0..count {
        out.push(i128::from(v == place))?;
    }
    Ok(out)
}

/// The same numbers.
pub fn copied(alloc: Global, numbers: &[i128]) -> Result<Vec<i128>, Stop> {
    let mut out = Vec::with_capacity(alloc, numbers.len())?;
    for number in numbers {
        push(&mut out, *number)?;
    }
    Ok(out)
}

/// Whether the magnitude is below 2^126.
pub fn is_small(number: i128) -> bool
    ensures { IsTrue result → IsSmall number }
{
    number.unsigned_abs() < SMALL_LIMIT
}

/// The greatest common divisor, 0 for two zeros.
pub fn divisor_of(a: i128, b: i128) -> Result<i128, Stop> {
    if is_small(a) && is_small(b) {
        Ok(gcd(a, b))
    } else {
        Err(Stop::Lost)
    }
}

/// The quotient by a divisor of the number.
pub fn over(number: i128, divisor: i128) -> Result<i128, Stop> {
    match number.checked_div(divisor) {
        Some(quotient) => Ok(quotient),
        None => Err(Stop::Lost),
    }
}

/// The number at a place, 0 where there is none.
pub fn number_at(row: &[i128], place: usize) -> i128 {
    match row.get(place) {
        Some(number) => *number,
        None => 0,
    }
}

/// `a + q * b`.
pub fn plus_times(a: i128, q: i128, b: i128) -> Result<i128, Stop> {
    let Some(product) = q.checked_mul(b) else {
        return Err(Stop::Lost);
    };
    match a.checked_add(product) {
        Some(sum) => Ok(sum),
        None => Err(Stop::Lost),
    }
}

/// Adds `q` times the column `from` to the column `to`.
pub fn add_column(table: &mut [Vec<i128>], to: usize, q: i128, from: usize) -> Result<(), Stop> {
    for row in table.iter_mut() {
        let sum = plus_times(number_at(row, to), q, number_at(row, from))?;
        put(row, to, sum);
    }
    Ok(())
}

/// Puts a number at a place, where there is one.
pub fn put(row: &mut [i128], place: usize, number: i128) {
    if place < row.len() {
        row[place] = number;
    }
}
