//! The goals of a report, judged line by line.

ghost use Rattle.std.specs.Prelude.{◌≡◌, IfOk, IfSome};
ghost use Rattle.goal_ast.specs.Sorted.{IsWellFormed};
ghost use Rattle.report_check.specs.machine.Judging.{AfterGood, Judges, goal_after, place_after, verdict_of};

use crate::proved::{after_clause, after_proved, after_row};
use crate::refuted::{after_refuted, after_value};
use crate::types::Recheck;
use clause_form::Named;
use goal_ast::Goal;
use report_text::Line;
use std::alloc::{AllocError, Global};

/// Where a goal stands: the number of its session, and its own in the session.
#[derive(Clone, Copy, Debug, PartialEq, Eq)]
pub struct Place {
    pub session: u64,
    pub goal: u64,
}

/// What is known of the goals after some lines of a report.
#[derive(Debug, Drop)]
pub enum Judged {
    /// Each is good.
    Good,
    /// Each before the last one is good, which is refuted by values; those that are read.
    Values(Vec<i128>),
    /// Each before the last one is good, and so is each clause of that one before this clause of its plan.
    Clauses {
        plan: Vec<Named>,
        clause: usize,
    },
    /// The same, and so many rows are the first ones of this clause.
    Rows {
        plan: Vec<Named>,
        clause: usize,
        rows: usize,
    },
    /// The first that isn't good.
    Bad(Place),
}

/// The last goal that has sorts, after one more line.
pub fn goal_after(goal: Option<Goal>, line: Line) -> Option<Goal>
    ensures { result ≡ goal_after goal line }
{
    match line {
        Line::Asked {
            goal: Some(asked),
            ..
        } => Some(asked),
        _ => goal,
    }
}

/// The place of the last goal, after one more line.
pub fn place_after(place: Place, line: &Line) -> Place
    ensures { result ≡ place_after place line.now }
{
    match line {
        Line::Session { number, .. } => Place {
            session: *number,
            goal: 0,
        },
        Line::Asked { number, .. } => Place {
            session: place.session,
            goal: *number,
        },
        _ => place,
    }
}

/// What is known of the goals after one more line: the last goal that has sorts is this one, and the last one of all stands
/// at this place.
pub fn judge(
    alloc: Global,
    goal: &Option<Goal>,
    place: Place,
    judged: Judged,
    line: &Line,
) -> Result<Judged, AllocError>
    requires { IfSome goal.now IsWellFormed }
    ensures { IfOk result (Judges goal.now place judged line.now) }
{
    match judged {
        Judged::Good => after_good(alloc, goal, place, line),
        Judged::Values(values) => after_value(goal, place, values, line),
        Judged::Clauses { plan, clause } => after_clause(place, plan, clause, line),
        Judged::Rows { plan, clause, rows } => after_row(alloc, place, plan, clause, rows, line),
        Judged::Bad(first) => Ok(Judged::Bad(first)),
    }
}

fn after_good(
    alloc: Global,
    goal: &Option<Goal>,
    place: Place,
    line: &Line,
) -> Result<Judged, AllocError>
    requires { IfSome goal.now IsWellFormed }
    ensures { IfOk result (AfterGood goal.now place line.now) }
{
    match line {
        Line::Proved(count) => after_proved(alloc, goal, place, *count),
        Line::Refuted => Ok(after_refuted(alloc, goal, place)),
        _ => Ok(Judged::Good),
    }
}

/// What is said of a report with these goals.
pub fn verdict(judged: &Judged) -> Recheck
    ensures { result ≡ verdict_of judged.now }
{
    match judged {
        Judged::Bad(place) => Recheck::Rejected {
            session: place.session,
            goal: place.goal,
        },
        _ => Recheck::Accepted,
    }
}
