ghost use Rattle.std.specs.Prelude.{◌≡◌, ◌≢◌, ℕ, IfOk};
ghost use Rattle.goal_ast.specs.Range.{IsValid};
ghost use Rattle.goal_ast.specs.Sorted.{IsWellFormed};
ghost use Rattle.zify.specs.Measure.{IsWithinLimits};
ghost use Rattle.zify.specs.Translation.{translated};
ghost use Rattle.goal_serve.specs.Answering.{MeetsGoal, IfProved, IfRefuted};

use crate::answers::{Answer, Kind};
use crate::trying::answer_by;
use clause_form::{ClauseFail, clauses};
use goal_ast::Goal;
use std::alloc::{AllocError, Global};
use std::thread::Threads;
use zify::{ZFail, ZGoal, zify};

/// The answer to a goal, in so many turns for each clause; the number is the goal's in its session.
///
/// Each limit is tested before a clause is made. Where the goal is false somewhere in the cube, the first such assignment
/// refutes it; else a clause with a point at which the body is false does, and else the first clause that has no
/// certificate leaves it unsettled.
pub fn answer<R: Threads + Sync>(
    rt: &R,
    alloc: Global,
    goal: &Goal,
    number: u32,
    turns: u32,
) -> Result<Answer, AllocError>
    requires { IsWellFormed goal.now }
    ensures good { IfOk result (MeetsGoal goal.now turns) }
    ensures proved { IfOk result (IfProved (IsValid goal.now)) }
    ensures refuted { IfOk result (IfRefuted (λ a. IsValid goal.now → ⊥)) }
    // That a goal has no sort is said before it is a goal.
    ensures sorted { IfOk result (λ a. (at : ℕ) → a ≢ Answer.IllSorted at) }
{
    let _ = number;
    answered(rt, alloc, goal, turns)
}

fn answered<R: Threads + Sync>(
    rt: &R,
    alloc: Global,
    goal: &Goal,
    turns: u32,
) -> Result<Answer, AllocError>
    requires { IsWellFormed goal.now }
    ensures { IfOk result (MeetsGoal goal.now turns) }
{
    match zify(alloc, goal) {
        Ok(z) => answer_translated(rt, alloc, goal, &z, turns),
        Err(ZFail::Weight) => Ok(Answer::Oversize(Kind::Weight)),
        Err(ZFail::Spread) => Ok(Answer::Oversize(Kind::Spread)),
        Err(ZFail::Degree) => Ok(Answer::Oversize(Kind::Degree)),
        Err(ZFail::NoMemory) => Err(AllocError),
    }
}

// The answer to a goal whose measures are within the limits.
fn answer_translated<R: Threads + Sync>(
    rt: &R,
    alloc: Global,
    goal: &Goal,
    z: &ZGoal,
    turns: u32,
) -> Result<Answer, AllocError>
    requires formed { IsWellFormed goal.now }
    requires translated { z.now ≡ translated goal.now }
    requires measures { IsWithinLimits z.now }
    ensures { IfOk result (MeetsGoal goal.now turns) }
{
    match clauses(alloc, z) {
        Ok(list) => answer_by(rt, alloc, goal, list, turns),
        Err(ClauseFail::Splits(number)) => Ok(Answer::Oversize(Kind::Splits(number))),
        Err(ClauseFail::NoMemory) => Err(AllocError),
    }
}
