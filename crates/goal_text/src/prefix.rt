//! The prefixes of a goal.

ghost use Rattle.std.specs.Prelude.{◌≡◌, ◌++◌, ◌∷◌, [], IfOk};
ghost use Rattle.goal_ast.specs.declared.term.Sort.{Sort};
ghost use Rattle.goal_text.specs.declared.kind.Kind.TheVariants.{Colon};
ghost use Rattle.goal_text.specs.Giving.{Gives};
ghost use Rattle.goal_text.specs.Files.{bounds};
ghost use Rattle.goal_text.specs.Steps.{named, after_forall, in_bare, in_group, sort_next, comma_next, close_next, after_group};

use crate::fail::StepFail;
use crate::kind::Kind;
use crate::raw::RawBound;
use crate::state::{GoalState, Named, Part};
use goal_ast::{Name, Sort};
use sqlite_items::Items;
use std::alloc::{AllocError, Global};

// A name more.
fn with_name(mut names: Items<Named>, name: Name, at: u64) -> Result<Items<Named>, AllocError>
    ensures { IfOk result (λ all. all ≡ names ++ named name at ∷ []) }
{
    names.push(Named { name, at })?;
    Ok(names)
}

/// After `forall`: a name, or a group's parenthesis.
pub fn after_forall(
    alloc: Global,
    bound: Items<RawBound>,
    kind: Kind,
    at: u64,
) -> Result<GoalState, StepFail>
    ensures { Gives result (after_forall bound kind at) }
{
    match kind {
        Kind::Name(name) => {
            let names = with_name(Items::new(alloc), name, at)?;
            Ok((bound, Part::Bare(names)))
        }
        Kind::Open => Ok((bound, Part::Grouped(Items::new(alloc)))),
        _ => Err(StepFail::Bad),
    }
}

/// After the names of a group that stands alone: another name, or the colon.
pub fn in_bare(
    bound: Items<RawBound>,
    names: Items<Named>,
    kind: Kind,
    at: u64,
) -> Result<GoalState, StepFail>
    ensures { Gives result (in_bare bound names kind at) }
{
    match kind {
        Kind::Name(name) => {
            let names = with_name(names, name, at)?;
            Ok((bound, Part::Bare(names)))
        }
        Kind::Colon => Ok((bound, Part::BareSort(names))),
        _ => Err(StepFail::Bad),
    }
}

// The colon after the names of a group in parentheses, of which there is one or more.
fn group_colon(bound: Items<RawBound>, names: Items<Named>, at: u64) -> Result<GoalState, StepFail>
    ensures { Gives result (in_group bound names Colon at) }
{
    if names.is_empty() {
        return Err(StepFail::Bad);
    }
    Ok((bound, Part::GroupedSort(names)))
}

/// After the names of a group in parentheses: another name, or the colon after one or more.
pub fn in_group(
    bound: Items<RawBound>,
    names: Items<Named>,
    kind: Kind,
    at: u64,
) -> Result<GoalState, StepFail>
    ensures { Gives result (in_group bound names kind at) }
{
    match kind {
        Kind::Name(name) => {
            let names = with_name(names, name, at)?;
            Ok((bound, Part::Grouped(names)))
        }
        Kind::Colon => group_colon(bound, names, at),
        _ => Err(StepFail::Bad),
    }
}

// The names, bound to a sort. They are moved from the last on, and put in order at the end.
#[tactic(auto, using(crate::proofs::PrefixSteps::bounds_step))]
fn bounds(alloc: Global, mut names: Items<Named>, sort: Sort) -> Result<Items<RawBound>, AllocError>
    ensures { IfOk result (λ bound. bound ≡ bounds sort names) }
{
    let mut bound = Vec::new(alloc);
    while let Some(Named { name, at }) = names.pop() {
        bound.push(RawBound { name, sort, at })?;
    }
    bound.reverse();
    Ok(Items::from_vec(bound))
}

// All names bound, those of the group last.
fn with_bounds(
    alloc: Global,
    mut bound: Items<RawBound>,
    names: Items<Named>,
    sort: Sort,
) -> Result<Items<RawBound>, AllocError>
    ensures { IfOk result (λ all. all ≡ bound ++ bounds sort names) }
{
    bound.append(bounds(alloc, names, sort)?)?;
    Ok(bound)
}

/// The sort of a group, and what comes after it.
pub fn sort_next(
    alloc: Global,
    bound: Items<RawBound>,
    names: Items<Named>,
    next: Part,
    kind: Kind,
) -> Result<GoalState, StepFail>
    ensures { Gives result (sort_next bound names next kind) }
{
    let Kind::Sort(sort) = kind else {
        return Err(StepFail::Bad);
    };
    let bound = with_bounds(alloc, bound, names, sort)?;
    Ok((bound, next))
}

/// The comma after a prefix.
pub fn comma_next(bound: Items<RawBound>, kind: Kind) -> Result<GoalState, StepFail>
    ensures { Gives result (comma_next bound kind) }
{
    match kind {
        Kind::Comma => Ok((bound, Part::Head)),
        _ => Err(StepFail::Bad),
    }
}

/// The closing parenthesis of a group.
pub fn close_next(bound: Items<RawBound>, kind: Kind) -> Result<GoalState, StepFail>
    ensures { Gives result (close_next bound kind) }
{
    match kind {
        Kind::Close => Ok((bound, Part::NextGroup)),
        _ => Err(StepFail::Bad),
    }
}

/// After a group in parentheses: another, or the comma.
pub fn after_group(alloc: Global, bound: Items<RawBound>, kind: Kind) -> Result<GoalState, StepFail>
    ensures { Gives result (after_group bound kind) }
{
    match kind {
        Kind::Open => Ok((bound, Part::Grouped(Items::new(alloc)))),
        Kind::Comma => Ok((bound, Part::Head)),
        _ => Err(StepFail::Bad),
    }
}
