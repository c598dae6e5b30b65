//! The clauses that a report has to list for a proved goal.

ghost use Rattle.std.specs.Prelude.{IfOk};
ghost use Rattle.goal_ast.specs.Sorted.{IsWellFormed};
ghost use Rattle.zify.specs.Measure.{IsWithinLimits};
ghost use Rattle.zify.specs.Translation.{translated};
ghost use Rattle.report_check.specs.machine.Judging.{IsCounted, IsPlan};

use clause_form::{ClauseFail, Named, clauses};
use goal_ast::Goal;
use std::alloc::{AllocError, Global};
use zify::{ZFail, ZGoal, zify};

/// The clauses of a goal, where no limit refuses them and there are so many.
pub fn plan(alloc: Global, goal: &Goal, count: u64) -> Result<Option<Vec<Named>>, AllocError>
    requires { IsWellFormed goal.now }
    ensures { IfOk result (IsPlan (translated goal.now) count) }
{
    match zify(alloc, goal) {
        Ok(z) => plan_translated(alloc, &z, count),
        Err(ZFail::Weight | ZFail::Spread | ZFail::Degree) => Ok(None),
        Err(ZFail::NoMemory) => Err(AllocError),
    }
}

// The same for a goal over the integers whose measures are within the limits.
fn plan_translated(alloc: Global, z: &ZGoal, count: u64) -> Result<Option<Vec<Named>>, AllocError>
    requires { IsWithinLimits z.now }
    ensures { IfOk result (IsPlan z.now count) }
{
    match clauses(alloc, z) {
        Ok(list) => Ok(counted(list, count)),
        Err(ClauseFail::Splits(_)) => Ok(None),
        Err(ClauseFail::NoMemory) => Err(AllocError),
    }
}

// The list, where it has so many clauses.
fn counted(list: Vec<Named>, count: u64) -> Option<Vec<Named>>
    ensures { IsCounted list count result }
{
    if list.len() as u64 == count {
        Some(list)
    } else {
        None
    }
}
