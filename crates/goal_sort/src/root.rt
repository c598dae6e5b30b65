//! The goal.

ghost use Rattle.std.specs.Prelude.{◌≡◌, ◌≢◌, ◌++◌, ◌≤◌, [], length, map, Ok, IfOk, IfErr, OnOk};
ghost use Rattle.goal_ast.specs.declared.goal.Goal.{Goal};
ghost use Rattle.goal_ast.specs.Sorted.{IsWellFormed};
ghost use Rattle.goal_sort.specs.SortGiving.{Refuses, GivesPlaced};
ghost use Rattle.goal_sort.specs.IsSorted.{IsSorted};
ghost use Rattle.goal_sort.specs.Sorting.{second_binding, variable_of, goal_of, body_of, with_body, sorting, IsReadable};

use crate::fail::SortFail;
use crate::leaf::bound_to;
use crate::node::sorted;
use crate::parts::statement_of;
use crate::raw::{RawBound, RawGoal};
use crate::value::Statement;
use goal_ast::{Bound, Goal};
use sqlite_items::Items;
use std::alloc::{AllocError, Global};

// The place of the first name that is bound before.
fn second_binding(bound: &[RawBound]) -> Option<u64>
    ensures { result ≡ second_binding [] bound.now }
{
    for v in 0..bound.len() {
        if bound_to(&bound[v].name, &bound[..v]).is_some() {
            return Some(bound[v].at);
        }
    }
    None
}

fn variable_of(alloc: Global, bound: &RawBound) -> Result<Bound, AllocError>
    ensures { IfOk result (λ made. made ≡ variable_of bound.now) }
{
    Ok(Bound {
        name: bound.name.copy(alloc)?,
        sort: bound.sort,
    })
}

fn push_variables(alloc: Global, out: &mut Vec<Bound>, bound: &[RawBound]) -> Result<(), AllocError>
    ensures { OnOk result (out.new.items ≡ out.old.items ++ map variable_of bound.now) }
{
    for one in bound {
        out.push(variable_of(alloc, one)?)?;
    }
    Ok(())
}

fn variables(alloc: Global, bound: &[RawBound]) -> Result<Items<Bound>, AllocError>
    ensures { IfOk result (λ made. made ≡ map variable_of bound.now) }
{
    let mut out = Vec::with_capacity(alloc, bound.len())?;
    push_variables(alloc, &mut out, bound)?;
    Ok(Items::from_vec(out))
}

fn goal_of(alloc: Global, raw: &RawGoal, statement: Statement) -> Result<Goal, AllocError>
    ensures { IfOk result (λ made. made ≡ goal_of raw.now statement) }
{
    Ok(Goal {
        mode: raw.mode,
        vars: variables(alloc, raw.bound.as_slice())?,
        body: statement.formula,
    })
}

#[tactic(auto, unfolding(crate::specs::Sorting::body_of))]
fn body_of(alloc: Global, raw: &RawGoal) -> Result<Statement, SortFail>
    requires { length raw.now.bound ≤ 256 }
    ensures { GivesPlaced result (body_of raw.now) }
{
    let body = sorted(alloc, raw.bound.as_slice(), &raw.body)?;
    statement_of(raw.body.at, body)
}

// The goal, where no literal 0 in it is positive.
#[tactic(auto, unfolding(crate::specs::Sorting::with_body))]
fn with_body(alloc: Global, raw: &RawGoal, statement: Statement) -> Result<Goal, SortFail>
    ensures { GivesPlaced result (with_body raw.now statement) }
{
    if let Some(at) = statement.zero {
        return Err(SortFail::IllSorted { at });
    }
    Ok(goal_of(alloc, raw, statement)?)
}

fn sorted_goal(alloc: Global, raw: &RawGoal) -> Result<Goal, SortFail>
    requires { length raw.now.bound ≤ 256 }
    ensures { GivesPlaced result (sorting raw.now) }
{
    if let Some(at) = second_binding(raw.bound.as_slice()) {
        return Err(SortFail::IllSorted { at });
    }
    let statement = body_of(alloc, raw)?;
    with_body(alloc, raw, statement)
}

/// The goal that a goal as it was read is: each node has its sort from its operands, and numbers without a sort take that
/// of the numbers that they are joined with. It is refused at the place of the first of these that there is: a name that
/// is bound before, a node without a sort whose operands have sorts, a body that isn't a formula, a literal 0 of sort
/// positive.
pub fn sorts(alloc: Global, raw: &RawGoal) -> Result<Goal, SortFail>
    requires { IsReadable raw.now }
    ensures sorted { IfOk result (λ goal. IsSorted raw.now goal) }
    ensures given { IfOk result (λ goal. sorting raw.now ≡ Ok goal) }
    ensures well_formed { IfOk result IsWellFormed }
    ensures refused { IfErr result (λ fail. Refuses fail (sorting raw.now)) }
    ensures exact { IfErr result (λ fail. fail ≢ SortFail.NoMemory → (goal : Goal) → IsSorted raw.now goal → ⊥) }
{
    sorted_goal(alloc, raw)
}
