ghost use Rattle.std.specs.Prelude.{◌≡◌, length, take, OnOk};
ghost use Rattle.cert_kit.specs.FirstFault.{step_walk};
ghost use Rattle.cert_check.specs.Checking.{Gives, close_fault};
ghost use Rattle.cert_check.specs.Uses.{KnowsUses, LetsGo, Steps, Leaves, rest_fault};

use crate::fail::CheckFail;
use crate::rows::Rows;
use crate::uses::{LastUses, last_uses};
use crate::walk::walk_through;
use cert_kit::{Close, PRow, Psatz, Step};
use std::alloc::{AllocError, Global};

/// Appends the rows of the steps, in order. Where there are levels left, each is let go once neither a later step nor the
/// close names it.
#[inline(never)]
pub fn push_steps(
    alloc: Global,
    rows: &mut Rows<'_>,
    levels: u32,
    steps: &[Step],
    close: &Close,
) -> Result<(), CheckFail>
    ensures leaves { Leaves result (close_fault close.now rows.new) (rest_fault steps.now close.now rows.old) }
    ensures front { OnOk result (take (length rows.old) rows.new ≡ rows.old) }
{
    let uses = last_uses(alloc, rows.len(), levels, steps, close)?;
    push_each(alloc, rows, &uses, steps, close)
}

// Appends the rows of the steps, and lets each go after its last use.
fn push_each(
    alloc: Global,
    rows: &mut Rows<'_>,
    uses: &LastUses,
    steps: &[Step],
    close: &Close,
) -> Result<(), CheckFail>
    requires first { uses.now.first ≡ length rows.old }
    requires known { KnowsUses uses.now.first uses.now.times.items steps.now close.now }
    ensures leaves { Leaves result (close_fault close.now rows.new) (rest_fault steps.now close.now rows.old) }
    ensures front { OnOk result (take (length rows.old) rows.new ≡ rows.old) }
{
    let _ = close;
    for (time, step) in steps.iter().enumerate() {
        push_step(alloc, rows, step)?;
        let_go(alloc, rows, uses, time, step)?;
    }
    Ok(())
}

// Appends the row of a step.
fn push_step(alloc: Global, rows: &mut Rows<'_>, step: &Step) -> Result<(), CheckFail>
    ensures { Steps result rows.old rows.new (step_walk step.now rows.old) }
{
    let row = row_of_step(alloc, rows, step)?;
    rows.push(row)?;
    Ok(())
}

// The row that a step appends.
fn row_of_step(alloc: Global, rows: &Rows<'_>, step: &Step) -> Result<PRow, CheckFail>
    ensures { Gives result (step_walk step.now rows.now) }
{
    match step {
        Step::Rat(e) => Ok(walk_through(alloc, rows, e)?.into_inner().into_row(alloc)?),
        Step::Cut(e) => Ok(walk_through(alloc, rows, e)?.into_inner().into_cut(alloc)?),
    }
}

// Lets go of those rows that are used after this time no more: of those that the step of this time names, and of the
// row before its own.
#[tactic(auto, using(crate::proofs::LetGoLaws::nothing_goes, crate::proofs::LetGoLaws::both_go, crate::proofs::LetGoLaws::one_goes))]
fn let_go(
    alloc: Global,
    rows: &mut Rows<'_>,
    uses: &LastUses,
    time: usize,
    step: &Step,
) -> Result<(), AllocError>
    ensures { OnOk result (LetsGo uses.now.first uses.now.times.items time rows.old rows.new) }
{
    match step {
        Step::Rat(e) | Step::Cut(e) => let_go_of_named(alloc, rows, uses, time, e)?,
    }
    let count = rows.len();
    if count < 2 {
        return Ok(());
    }
    let_go_of_row(alloc, rows, uses, time, count - 2)
}

// Lets go of those rows that an expression names and that are used after this time no more.
#[tactic(auto, using(crate::proofs::LetGoLaws::nothing_goes, crate::proofs::LetGoLaws::both_go, crate::proofs::LetGoLaws::one_goes))]
fn let_go_of_named(
    alloc: Global,
    rows: &mut Rows<'_>,
    uses: &LastUses,
    time: usize,
    e: &Psatz,
) -> Result<(), AllocError>
    ensures { OnOk result (LetsGo uses.now.first uses.now.times.items time rows.old rows.new) }
{
    match e {
        Psatz::Hyp(n) => let_go_of_row(alloc, rows, uses, time, *n as usize),
        Psatz::Square(_) | Psatz::Const(_) | Psatz::Zero => Ok(()),
        Psatz::MulPoly(_, part) => let_go_of_named(alloc, rows, uses, time, part.get()),
        Psatz::Mul(left, right) | Psatz::Add(left, right) => {
            let_go_of_named(alloc, rows, uses, time, left.get())?;
            let_go_of_named(alloc, rows, uses, time, right.get())
        }
    }
}

// Lets go of a row that is used after this time no more.
#[tactic(auto, using(crate::proofs::LetGoLaws::nothing_goes, crate::proofs::LetGoLaws::both_go, crate::proofs::LetGoLaws::one_goes))]
fn let_go_of_row(
    alloc: Global,
    rows: &mut Rows<'_>,
    uses: &LastUses,
    time: usize,
    n: usize,
) -> Result<(), AllocError>
    ensures { OnOk result (LetsGo uses.now.first uses.now.times.items time rows.old rows.new) }
{
    if !uses.is_idle(time, n) {
        return Ok(());
    }
    rows.let_go(alloc, n)
}
