use crate::expression::with_parts;
use crate::stop::{Stop, push};
use crate::system::{Part, System, is_equality};
use crate::table::{add_column, divisor_of, number_at, plus_times, put};
use cert_kit::{PRow, Step};
use std::alloc::Global;

// So many rounds of remainders bring one unknown's number in an equality to 1.
const MOST_ROUNDS: u32 = 400;

/// What comes of the equalities.
#[derive(Clone, Copy, Debug, PartialEq, Eq)]
pub enum Reduced {
    /// The last step's row is false.
    False,
    /// Each is solved for an unknown, which is free no more.
    Solved,
}

/// Solves the equalities among the rows, one after another.
pub fn solve_equalities(
    alloc: Global,
    rows: &[PRow],
    system: &mut System,
) -> Result<Reduced, Stop> {
    for (place, row) in rows.iter().enumerate() {
        if is_equality(row) && solve_equality(alloc, rows.len(), system, place)? == Reduced::False {
            return Ok(Reduced::False);
        }
    }
    Ok(Reduced::Solved)
}

// Solves one equality for an unknown, once its numbers and its constant are divided by what divides the numbers.
fn solve_equality(
    alloc: Global,
    count: usize,
    system: &mut System,
    place: usize,
) -> Result<Reduced, Stop> {
    let Some(own) = system.rows.get(place) else {
        return Err(Stop::Lost);
    };
    let divisor = content(own)?;
    let constant = number_at(&system.constants, place);
    if divisor == 0 && constant == 0 {
        return Ok(Reduced::Solved);
    }
    let number = place_of_step(count, system.steps.len())?;
    push_own_cut(alloc, system, place)?;
    let Some(constant) = quotient(constant, divisor) else {
        return Ok(Reduced::False);
    };
    divide(system, place, divisor, constant)?;
    let pivot = isolate(system, place)?;
    remove(system, place, pivot, number)?;
    Ok(Reduced::Solved)
}

/// The number of the row that the next step appends.
pub fn place_of_step(rows: usize, steps: usize) -> Result<u32, Stop> {
    let Some(place) = rows.checked_add(steps) else {
        return Err(Stop::Lost);
    };
    match u32::try_from(place) {
        Ok(number) => Ok(number),
        Err(_) => Err(Stop::Lost),
    }
}

/// Appends the cut of a row without its solved unknowns.
pub fn push_own_cut(alloc: Global, system: &mut System, place: usize) -> Result<(), Stop> {
    let Ok(own) = u32::try_from(place) else {
        return Err(Stop::Lost);
    };
    let Some(parts) = system.parts.get(place) else {
        return Err(Stop::Lost);
    };
    let sum = with_parts(alloc, own, parts)?;
    push(&mut system.steps, Step::Cut(sum))
}

// The quotient, where the divisor divides.
fn quotient(a: i128, divisor: i128) -> Option<i128> {
    let rest = a.checked_rem(divisor)?;
    if rest != 0 {
        return None;
    }
    a.checked_div(divisor)
}

/// The greatest common divisor of numbers, 0 where all are 0.
pub fn content(numbers: &[i128]) -> Result<i128, Stop> {
    let mut divisor = 0;
    for number in numbers {
        divisor = divisor_of(divisor, *number)?;
    }
    Ok(divisor)
}

fn divide(system: &mut System, place: usize, divisor: i128, constant: i128) -> Result<(), Stop> {
    put(&mut system.constants, place, constant);
    let Some(row) = system.rows.get_mut(place) else {
        return Err(Stop::Lost);
    };
    for number in row.iter_mut() {
        match quotient(*number, divisor) {
            Some(part) => *number = part,
            None => return Err(Stop::Lost),
        }
    }
    Ok(())
}

// Changes the unknowns until one alone has a number in the row, which is 1 or -1.
fn isolate(system: &mut System, place: usize) -> Result<usize, Stop> {
    for _ in 0..MOST_ROUNDS {
        let Some(row) = system.rows.get(place) else {
            return Err(Stop::Lost);
        };
        let Some(pivot) = least(row) else {
            return Err(Stop::Lost);
        };
        let Some(at) = other(row, pivot) else {
            return Ok(pivot);
        };
        let q = nearest(number_at(row, at), number_at(row, pivot))?;
        exchange(system, at, pivot, q)?;
    }
    Err(Stop::Lost)
}

// The place of the number of least magnitude above 0.
fn least(row: &[i128]) -> Option<usize> {
    let mut best = None;
    let mut size = 0;
    for (place, number) in row.iter().enumerate() {
        let own = number.unsigned_abs();
        if own != 0 && (best.is_none() || own < size) {
            best = Some(place);
            size = own;
        }
    }
    best
}

// The first other place of a number that isn't 0.
fn other(row: &[i128], pivot: usize) -> Option<usize> {
    for (place, number) in row.iter().enumerate() {
        if place != pivot && *number != 0 {
            return Some(place);
        }
    }
    None
}

// The quotient by which the remainder is at most half of the divisor.
fn nearest(a: i128, b: i128) -> Result<i128, Stop> {
    let Some(q) = a.checked_div(b) else {
        return Err(Stop::Lost);
    };
    let rest = plus_times(a, q.saturating_neg(), b)?;
    if rest.unsigned_abs() <= b.unsigned_abs() / 2 {
        return Ok(q);
    }
    let towards = if (rest < 0) == (b < 0) { 1 } else { -1 };
    plus_times(q, towards, 1)
}

// The unknown `pivot` is replaced by itself and `q` times the unknown `at`, so that `at` counts for `q` times less of what
// `pivot` counts for.
fn exchange(system: &mut System, at: usize, pivot: usize, q: i128) -> Result<(), Stop> {
    let opposite = q.saturating_neg();
    add_column(&mut system.rows, at, opposite, pivot)?;
    add_column(&mut system.variables, at, opposite, pivot)?;
    add_column(&mut system.forms, pivot, q, at)
}

// Takes the unknown out of all rows and variables, by the equality that it is alone in.
fn remove(system: &mut System, place: usize, pivot: usize, number: u32) -> Result<(), Stop> {
    let constant = number_at(&system.constants, place);
    let Some(own) = system.rows.get(place) else {
        return Err(Stop::Lost);
    };
    let sign = number_at(own, pivot);
    let value = plus_times(0, sign.saturating_neg(), constant)?;
    for (n, row) in system.rows.iter_mut().enumerate() {
        let times = plus_times(0, number_at(row, pivot), sign)?.saturating_neg();
        if n != place && times != 0 {
            if let (Some(k), Some(parts)) = (system.constants.get_mut(n), system.parts.get_mut(n)) {
                *k = plus_times(*k, times, constant)?;
                push(parts, Part { number, times })?;
            }
        }
        put(row, pivot, 0);
    }
    for (v, row) in system.variables.iter_mut().enumerate() {
        let sum = plus_times(number_at(&system.values, v), number_at(row, pivot), value)?;
        put(&mut system.values, v, sum);
        put(row, pivot, 0);
    }
    put(&mut system.constants, place, 0);
    Ok(())
}
