ghost use Rattle.std.specs.Prelude.{◌≡◌, ℕ, pos, negsuc, ◌<◌, ◌^◌, [], ◌∷◌, IfOk, IfSome, IsNone, unsigned_abs};
ghost use Rattle.std.specs.Ordering.{int_eq};
ghost use Rattle.cert_kit.specs.Cut.{cut_of};
ghost use Rattle.box_enum.specs.machine.Reading.{IsLone, IsReading, lower_as, upper_as};

use cert_kit::{Op, PRow, cut_row};
use mm_poly::{Mono, Poly};
use std::alloc::{AllocError, Global};

/// The bounds that a row of one variable gives it, and whether the variable's coefficient is 1.
#[derive(Clone, Copy, Debug)]
pub struct Reading {
    pub variable: u32,
    pub rising: bool,
    pub low: Option<i128>,
    pub high: Option<i128>,
}

/// The bounds of a variable so far.
#[derive(Clone, Copy, Debug)]
pub struct Span {
    pub low: Option<i128>,
    pub high: Option<i128>,
}

/// What the cut of a row says of the row's one variable.
pub(crate) fn read_cut(alloc: Global, row: &PRow) -> Result<Option<Reading>, AllocError>
    ensures { IfOk result (λ o. IsReading (cut_of row.now) o) }
{
    let _ = row.poly.spread();
    let unknowns = row.poly.unknowns();
    if unknowns.len() != 1 {
        return Ok(None);
    }
    let divisor = row.poly.content();
    if divisor <= 1 {
        return Ok(read_row(row));
    }
    let cut = cut_row(alloc, row)?;
    Ok(read_row(&cut))
}

// What a row says of its one variable.
fn read_row(row: &PRow) -> Option<Reading>
    ensures { IsReading row.now result }
{
    let (variable, coeff) = lone(&row.poly)?;
    let constant = row.poly.constant_term();
    let rising = is_one(coeff);
    let falling = is_minus_one(coeff);
    Some(Reading {
        variable,
        rising,
        low: lower_as(row.op, rising, falling, constant),
        high: upper_as(row.op, rising, falling, constant),
    })
}

fn is_one(number: i128) -> bool
    ensures { result ≡ int_eq number (pos 1) }
{
    number == 1
}

fn is_minus_one(number: i128) -> bool
    ensures { result ≡ int_eq number (negsuc 0) }
{
    number == -1
}

// The variable and its coefficient where there is no other term but a constant.
fn lone(poly: &Poly) -> Option<(u32, i128)>
    ensures { IsLone poly.now result }
{
    let unknowns = poly.unknowns();
    if unknowns.len() != 1 {
        return None;
    }
    let term = &unknowns[0];
    match variable_in(&term.mono) {
        Some(variable) => Some((variable, term.coeff)),
        None => None,
    }
}

// The variable that a monomial is.
fn variable_in(mono: &Mono) -> Option<u32>
    ensures some { IfSome result (λ v. mono.now ≡ (v, 1) ∷ []) }
    ensures none { IsNone result → (v : ℕ) → mono.now ≡ (v, 1) ∷ [] → ⊥ }
{
    if mono.len() != 1 {
        return None;
    }
    let (variable, exponent) = mono.factor(0);
    if exponent == 1 { Some(variable) } else { None }
}

fn lower_as(op: Op, up: bool, down: bool, constant: i128) -> Option<i128>
    requires { unsigned_abs constant < 2 ^ 126 }
    ensures { result ≡ lower_as up down op constant }
{
    match op {
        Op::Ge if up => Some(-constant),
        Op::Ge => None,
        Op::Eq if up => Some(-constant),
        Op::Eq if down => Some(constant),
        Op::Eq => None,
    }
}

fn upper_as(op: Op, up: bool, down: bool, constant: i128) -> Option<i128>
    requires { unsigned_abs constant < 2 ^ 126 }
    ensures { result ≡ upper_as up down op constant }
{
    match op {
        Op::Ge if down => Some(constant),
        Op::Ge => None,
        Op::Eq if down => Some(constant),
        Op::Eq if up => Some(-constant),
        Op::Eq => None,
    }
}
