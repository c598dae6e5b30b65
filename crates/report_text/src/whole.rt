//! Bytes as a whole report.

ghost use Rattle.std.specs.Prelude.{◌≡◌, ◌↔◌, [], IfOk, IsTrue};
ghost use Rattle.report_text.specs.Progress.{vars_after};
ghost use Rattle.report_text.specs.Whole.{WrongAt, vars_in};

use crate::lines::Line;
use crate::next::next_line;
use crate::progress::{Due, Progress};
use goal_ast::{Bound, Goal};
use std::alloc::{AllocError, Global};

fn vars_of(goal: &Option<Goal>) -> &[Bound]
    ensures { result.now ≡ vars_in goal.now }
{
    match goal {
        Some(goal) => goal.vars.as_slice(),
        None => &[],
    }
}

// The last goal that has sorts, after this line.
fn goal_after(goal: Option<Goal>, line: Line) -> Option<Goal>
    ensures { vars_in result ≡ vars_after (vars_in goal) line }
{
    match line {
        Line::Asked {
            goal: Some(asked),
            ..
        } => Some(asked),
        _ => goal,
    }
}

// Whether no bytes are left after the last line.
fn is_ended(rest: &[u8], due: Due) -> bool
    ensures { IsTrue result ↔ ((rest.now ≡ []) × (due ≡ Due.Nothing)) }
{
    rest.is_empty() && matches!(due, Due::Nothing)
}

/// The place where bytes go wrong: that of the first line that doesn't fit, or their length where all lines fit and the
/// last one is missing. None where they are a report.
pub fn wrong_at(alloc: Global, bytes: &[u8]) -> Result<Option<usize>, AllocError>
    ensures { IfOk result (WrongAt bytes.now) }
{
    let mut goal = None;
    let mut progress = Progress::new();
    let mut rest = bytes;
    'lines: while let Some(next) = next_line(alloc, vars_of(&goal), progress, rest)? {
        goal = goal_after(goal, next.line);
        progress = next.progress;
        rest = next.rest;
    }
    if is_ended(rest, progress.due) {
        Ok(None)
    } else {
        Ok(Some(bytes.len() - rest.len()))
    }
}
