ghost use Rattle.std.specs.Prelude.{◌≡◌, pos, ◌<◌, ◌^◌, ◌%◌, ◌==◌, unsigned_abs, IfOk};
ghost use Rattle.mm_poly.specs.Poly.{Fits, content, constant_part, floor_divided};
ghost use Rattle.cert_kit.specs.Cut.{contradiction, cut_of};

use crate::row::{Op, PRow};
use mm_poly::Poly;
use std::alloc::{AllocError, Global};

impl PRow {
    /// The cut of a row that is given up for it: the row itself, moved, where its content is 0 or 1.
    #[tactic(auto, using(crate::proofs::CutSameLaws::cut_itself))]
    pub fn into_cut(self, alloc: Global) -> Result<PRow, AllocError>
        ensures { IfOk result (λ r. r ≡ cut_of self) }
    {
        let divisor = self.poly.content();
        if divisor <= 1 {
            return Ok(self);
        }
        cut_by(alloc, &self, divisor)
    }
}

/// The cut of a row: what isn't constant divided by the content, and the constant divided by it and rounded down. A
/// row without unknowns stays; an equality whose constant the content doesn't divide gives `-1 >= 0`.
#[tactic(auto, using(crate::proofs::CutSameLaws::cut_itself))]
pub fn cut_row(alloc: Global, row: &PRow) -> Result<PRow, AllocError>
    ensures { IfOk result (λ r. r ≡ cut_of row.now) }
{
    let divisor = row.poly.content();
    if divisor <= 1 {
        return row.copy(alloc);
    }
    cut_by(alloc, row, divisor)
}

// The cut of a row whose content is this, from 1 on.
#[tactic(auto, using(crate::proofs::CutSameLaws::inequality_cut, crate::proofs::CutSameLaws::equality_cut, crate::proofs::CutSameLaws::no_cut))]
fn cut_by(alloc: Global, row: &PRow, divisor: i128) -> Result<PRow, AllocError>
    requires fits { Fits row.now.poly }
    requires content { divisor ≡ pos (content row.now.poly) }
    requires positive { 0 < content row.now.poly }
    requires small { content row.now.poly < 2 ^ 126 }
    ensures { IfOk result (λ r. r ≡ cut_of row.now) }
{
    match row.op {
        Op::Ge => quotient(alloc, &row.poly, divisor, Op::Ge),
        Op::Eq => {
            if is_constant_divided(&row.poly, divisor) {
                quotient(alloc, &row.poly, divisor, Op::Eq)
            } else {
                contradictory(alloc)
            }
        }
    }
}

// The row of each coefficient divided and rounded down.
fn quotient(alloc: Global, poly: &Poly, divisor: i128, op: Op) -> Result<PRow, AllocError>
    requires content { divisor ≡ pos (content poly.now) }
    requires positive { 0 < content poly.now }
    requires small { content poly.now < 2 ^ 126 }
    ensures { IfOk result (λ r. r ≡ record { poly = floor_divided (content poly.now) poly.now; op = op }) }
{
    Ok(PRow {
        poly: poly.floor_divided(alloc, divisor)?,
        op,
    })
}

// Whether the content, which isn't 0, divides the constant.
fn is_constant_divided(poly: &Poly, divisor: i128) -> bool
    requires content { divisor ≡ pos (content poly.now) }
    requires positive { 0 < content poly.now }
    ensures { result ≡ (unsigned_abs (constant_part poly.now) % content poly.now == 0) }
{
    poly.constant_term().unsigned_abs() % divisor.unsigned_abs() == 0
}

// The row -1 >= 0.
fn contradictory(alloc: Global) -> Result<PRow, AllocError>
    ensures { IfOk result (λ r. r ≡ contradiction) }
{
    Ok(PRow {
        poly: Poly::constant(alloc, -1)?,
        op: Op::Ge,
    })
}
