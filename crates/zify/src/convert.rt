ghost use Rattle.std.specs.Prelude.{◌≡◌, ◌+◌, ◌≤◌, ◌<◌, ◌^◌, ◌↔◌, ◌++◌, length, take, IfOk, OnOk, IsErrOf};
ghost use Rattle.goal_ast.specs.Range.{IsValid, sorts_of};
ghost use Rattle.goal_ast.specs.Sorted.{IsWellFormed};
ghost use Rattle.zify.specs.Measure.{IsTooHeavy, IsTooWide, IsTooSteep, IsWithinLimits};
ghost use Rattle.zify.specs.Translation.{range_of, ranges_from, translated};
ghost use Rattle.zify.specs.Truth.{IsValidTranslated};
ghost use Rattle.zify.specs.machine.Refusal.{refused, Zified};

use crate::fail::ZFail;
use crate::form::ZForm;
use crate::formulas::formula;
use crate::goal::ZGoal;
use crate::table::Table;
use crate::term::ZTerm;
use goal_ast::{Assignment, Bound, Cmp, Goal, Sort};
use goal_measure::{DEGREE, Measure, SPREAD, WEIGHT, weigh_formula};
use sqlite_items::Items;
use std::alloc::{AllocError, Global};

fn bound_by(alloc: Global, c: Cmp, v: u32, k: i128) -> Result<ZForm, AllocError>
    ensures { IfOk result (λ f. f ≡ ZForm.Atom c (ZTerm.Var v) (ZTerm.Lit k)) }
{
    ZForm::atom(alloc, c, ZTerm::Var(v), ZTerm::Lit(k))
}

fn push_range(alloc: Global, out: &mut Items<ZForm>, v: u32, sort: Sort) -> Result<(), AllocError>
    ensures { OnOk result (out.new ≡ out.old ++ range_of v sort) }
{
    match sort {
        Sort::Int => Ok(()),
        Sort::Bin | Sort::Nat => out.push(bound_by(alloc, Cmp::Ge, v, 0)?),
        Sort::Pos => out.push(bound_by(alloc, Cmp::Ge, v, 1)?),
        Sort::Bool => {
            out.push(bound_by(alloc, Cmp::Ge, v, 0)?)?;
            out.push(bound_by(alloc, Cmp::Le, v, 1)?)
        }
    }
}

// The ranges of the bound variables, in their order.
#[tactic(auto, using(crate::proofs::WholeLaws::ranges_on, crate::proofs::WholeLaws::ranges_end))]
fn ranges(alloc: Global, vars: &[Bound]) -> Result<Items<ZForm>, AllocError>
    requires { length vars.now ≤ 256 }
    ensures { IfOk result (λ out. out ≡ ranges_from 0 (sorts_of vars.now)) }
{
    let mut out = Items::new(alloc);
    for (at, bound) in vars.iter().enumerate() {
        push_range(alloc, &mut out, at as u32, bound.sort)?;
    }
    Ok(out)
}

#[tactic(auto, using(goal_ast::proofs::SortedLaws::goal_fits))]
fn translate(alloc: Global, goal: &Goal) -> Result<ZGoal, AllocError>
    requires { IsWellFormed goal.now }
    ensures { IfOk result (λ z. z ≡ translated goal.now) }
{
    let bound = goal.vars.len() as u32;
    let mut table = Table::new(alloc, ranges(alloc, goal.vars.as_slice())?);
    let body = formula(alloc, bound, &mut table, &goal.body)?;
    let found = table.found();
    Ok(ZGoal {
        vars: bound + found.operations as u32,
        bound,
        hyps: found.conditions,
        body,
    })
}

// Which limit the greatest measures of a goal pass first.
fn refusal(m: Measure) -> Option<ZFail>
    ensures { result ≡ refused m }
{
    if m.weight >= WEIGHT {
        Some(ZFail::Weight)
    } else if m.spread >= SPREAD {
        Some(ZFail::Spread)
    } else if m.degree >= DEGREE {
        Some(ZFail::Degree)
    } else {
        None
    }
}

/// The goal over the integers.
///
/// Each operation that isn't polynomial has a further variable, numbered in the order of the operations' first places
/// in the body; equal ones share it. The hypotheses are the ranges of the bound variables and then the conditions that
/// define the further ones.
///
/// `Weight`, `Spread` and `Degree` where the first limit that is passed is that one, over the atoms of all hypotheses
/// and of the body: a weight of 2^100, a spread above 256, a degree above 8. `NoMemory` where there is no memory.
pub fn zify(alloc: Global, goal: &Goal) -> Result<ZGoal, ZFail>
    requires { IsWellFormed goal.now }
    ensures translated { IfOk result (λ z. z ≡ translated goal.now) }
    ensures law { IfOk result (λ z. IsValid goal.now ↔ IsValidTranslated z) }
    ensures limits { IfOk result (λ z. IsWithinLimits z) }
    ensures weight { IsErrOf result ZFail.Weight ↔ IsTooHeavy (translated goal.now) }
    ensures spread { IsErrOf result ZFail.Spread ↔ IsTooWide (translated goal.now) }
    ensures degree { IsErrOf result ZFail.Degree ↔ IsTooSteep (translated goal.now) }
{
    zify_within(alloc, goal, refusal(weigh_formula(&goal.body)))
}

fn zify_within(alloc: Global, goal: &Goal, refusal: Option<ZFail>) -> Result<ZGoal, ZFail>
    requires { IsWellFormed goal.now }
    ensures { Zified goal.now refusal result }
{
    match refusal {
        Some(fail) => Err(fail),
        None => match translate(alloc, goal) {
            Ok(z) => Ok(z),
            Err(_) => Err(ZFail::NoMemory),
        },
    }
}

/// The values of the bound variables, the first ones of the point.
///
/// `Err` where there is no memory.
pub fn back(alloc: Global, goal: &Goal, point: &[i128]) -> Result<Assignment, AllocError>
    requires { length goal.now.vars ≤ length point.now }
    ensures values { IfOk result (λ a. a.values ≡ take (length goal.now.vars) point.now) }
    ensures one_each { IfOk result (λ a. length a.values ≡ length goal.now.vars) }
{
    let values = Items::from_slice(alloc, &point[..goal.vars.len()])?;
    Ok(Assignment { values })
}
