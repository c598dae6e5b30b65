ghost use Rattle.std.specs.Prelude.{◌≡◌, ◌≤◌, IfOk};
ghost use Rattle.std.specs.List.{AllByRecursion};
ghost use Rattle.mm_num.specs.Small.{IsSmall};
ghost use Rattle.mm_poly.specs.Poly.{constant_of};
ghost use Rattle.cert_kit.specs.declared.cert.Psatz.TheVariants.{Add as IsAdd, MulPoly as IsMulPoly, Hyp as IsHyp};
ghost use Rattle.cert_kit.specs.Acceptance.{IsGood};
ghost use Rattle.cert_kit.specs.Depth.{cert_depth, MakesCert};
ghost use Rattle.fm_elim.specs.machine.Logging.{times_row, times_equality, expression, step_of, steps_of, IsSized, HasSizes, Contradict};

use crate::source::{Combination, Source};
use cert_kit::{Cert, Close, PRow, Psatz, Step};
use mm_poly::Poly;
use sqlite_items::Boxed;
use std::alloc::{AllocError, Global};

/// The certificate of given rows and of sources, the last of which makes a row that is constant and false. There is a
/// step for each source.
pub fn certificate(alloc: Global, given: &[PRow], sources: &[Source]) -> Result<Cert, AllocError>
    requires { Contradict given.now sources.now }
    ensures good { IfOk result (IsGood given.now) }
    ensures makes { IfOk result (λ c. MakesCert c.steps c.close) }
    ensures shallow { IfOk result (λ c. cert_depth c ≤ 4000) }
{
    let _ = given;
    let steps = steps_of(alloc, sources)?;
    match Cert::make(steps, Close::Done) {
        Ok(cert) => Ok(cert),
        Err(_) => unreachable!(),
    }
}

// A step for each source.
fn steps_of(alloc: Global, sources: &[Source]) -> Result<Vec<Step>, AllocError>
    requires { AllByRecursion HasSizes sources.now }
    ensures { IfOk result (λ steps. steps.items ≡ steps_of sources.now) }
{
    let mut steps = Vec::with_capacity(alloc, sources.len())?;
    for source in sources {
        steps.push(step_of(alloc, *source)?)?;
    }
    Ok(steps)
}

fn step_of(alloc: Global, source: Source) -> Result<Step, AllocError>
    requires { HasSizes source }
    ensures { IfOk result (λ s. s ≡ step_of source) }
{
    let expression = expression(alloc, source.combination)?;
    if source.is_cut {
        Ok(Step::Cut(expression))
    } else {
        Ok(Step::Rat(expression))
    }
}

// The expression that means a combination.
fn expression(alloc: Global, combination: Combination) -> Result<Psatz, AllocError>
    requires { IsSized combination }
    ensures { IfOk result (λ e. e ≡ expression combination) }
{
    match combination {
        Combination::Given(row) => Ok(Psatz::Hyp(row)),
        Combination::Sum(row, times, equality) => {
            let second = times_equality(alloc, times, equality)?;
            let sum = added(alloc, Psatz::Hyp(row), second)?;
            Ok(sum)
        }
        Combination::Pair(first_times, first, second_times, second) => {
            let first = times_row(alloc, first_times, first)?;
            let second = times_row(alloc, second_times, second)?;
            let sum = added(alloc, first, second)?;
            Ok(sum)
        }
        Combination::Half(row) => {
            let half = added(
                alloc,
                Psatz::Hyp(row),
                Psatz::Square(Poly::constant(alloc, 0)?),
            )?;
            Ok(half)
        }
        Combination::OtherHalf(row) => {
            let negation = multiplied(alloc, -1, row)?;
            let half = added(alloc, negation, Psatz::Square(Poly::constant(alloc, 0)?))?;
            Ok(half)
        }
    }
}

// A multiple of an inequality.
fn times_row(alloc: Global, times: i128, row: u32) -> Result<Psatz, AllocError>
    ensures { IfOk result (λ e. e ≡ times_row times row) }
{
    if times == 1 {
        return Ok(Psatz::Hyp(row));
    }
    Ok(Psatz::Mul(
        Boxed::new(alloc, Psatz::Const(times))?,
        Boxed::new(alloc, Psatz::Hyp(row))?,
    ))
}

// A multiple of an equality.
fn times_equality(alloc: Global, times: i128, row: u32) -> Result<Psatz, AllocError>
    requires { IsSmall times }
    ensures { IfOk result (λ e. e ≡ times_equality times row) }
{
    if times == 1 {
        return Ok(Psatz::Hyp(row));
    }
    let product = multiplied(alloc, times, row)?;
    Ok(product)
}

fn multiplied(alloc: Global, times: i128, row: u32) -> Result<Psatz, AllocError>
    requires { IsSmall times }
    ensures { IfOk result (λ e. e ≡ IsMulPoly (constant_of times) (IsHyp row)) }
{
    Ok(Psatz::MulPoly(
        Poly::constant(alloc, times)?,
        Boxed::new(alloc, Psatz::Hyp(row))?,
    ))
}

fn added(alloc: Global, first: Psatz, second: Psatz) -> Result<Psatz, AllocError>
    ensures { IfOk result (λ e. e ≡ IsAdd first second) }
{
    Ok(Psatz::Add(Boxed::new(alloc, first)?, Boxed::new(alloc, second)?))
}
