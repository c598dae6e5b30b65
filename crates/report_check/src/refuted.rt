//! The lines of a refuted goal: the values of its variables.

ghost use Rattle.std.specs.Prelude.{◌↔◌, [], ◌∷◌, ◌++◌, IsTrue, IfOk, IfSome};
ghost use Rattle.goal_ast.specs.Truth.{Holds};
ghost use Rattle.goal_ast.specs.Range.{IsInRange, point_of};
ghost use Rattle.goal_ast.specs.Evaluation.{IsAllSmall};
ghost use Rattle.goal_ast.specs.Sorted.{IsWellFormed};
ghost use Rattle.goal_serve.specs.Answering.{Refutes};
ghost use Rattle.report_check.specs.machine.Judging.{AfterValue, Tests};

use crate::judging::{Judged, Place};
use goal_ast::{Assignment, Eval, Goal, eval, in_range};
use report_text::Line;
use sqlite_items::Items;
use std::alloc::{AllocError, Global};

/// The line that tells that values follow was read.
pub fn after_refuted(alloc: Global, goal: &Option<Goal>, place: Place) -> Judged
    requires { IfSome goal.now IsWellFormed }
    ensures { Tests goal.now place [] result }
{
    tested(goal, place, Vec::new(alloc))
}

/// One more line was read after these values.
pub fn after_value(
    goal: &Option<Goal>,
    place: Place,
    values: Vec<i128>,
    line: &Line,
) -> Result<Judged, AllocError>
    requires { IfSome goal.now IsWellFormed }
    ensures { IfOk result (AfterValue goal.now place values.items line.now) }
{
    match line {
        Line::Value(value) => with_value(goal, place, values, *value),
        _ => Ok(Judged::Good),
    }
}

fn with_value(
    goal: &Option<Goal>,
    place: Place,
    mut values: Vec<i128>,
    value: i128,
) -> Result<Judged, AllocError>
    requires { IfSome goal.now IsWellFormed }
    ensures { IfOk result (Tests goal.now place (values.items ++ value ∷ [])) }
{
    values.push(value)?;
    Ok(tested(goal, place, values))
}

// What is known once these values are read: nothing while some are missing, and else whether the goal is false there.
fn tested(goal: &Option<Goal>, place: Place, values: Vec<i128>) -> Judged
    requires { IfSome goal.now IsWellFormed }
    ensures { Tests goal.now place values.items result }
{
    let Some(goal) = goal else {
        return Judged::Good;
    };
    if values.len() < goal.vars.len() {
        return Judged::Values(values);
    }
    if refutes(goal, values) {
        Judged::Good
    } else {
        Judged::Bad(place)
    }
}

// Whether the values are in range, and the goal is false there.
fn refutes(goal: &Goal, values: Vec<i128>) -> bool
    requires { IsWellFormed goal.now }
    ensures { IsTrue result ↔ Refutes goal.now record { values = values.items } }
{
    let a = Assignment {
        values: Items::from_vec(values),
    };
    in_range(goal, &a) && is_false(goal, &a)
}

fn is_false(goal: &Goal, a: &Assignment) -> bool
    requires formed { IsWellFormed goal.now }
    requires in_range { IsInRange goal.now a.now }
    ensures { IsTrue result ↔ (IsAllSmall (point_of a.now.values) goal.now.body × (Holds (point_of a.now.values) goal.now.body → ⊥)) }
{
    matches!(eval(goal, a), Eval::False)
}
