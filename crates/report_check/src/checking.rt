//! Bytes as a report whose goals are good.

ghost use Rattle.std.specs.Prelude.{◌≡◌, ◌↔◌, [], IfOk, IsTrue};
ghost use Rattle.report_text.specs.Whole.{vars_in};
ghost use Rattle.report_check.specs.Goodness.{Rechecks};

use crate::judging::{Judged, Place, goal_after, judge, place_after, verdict};
use crate::types::Recheck;
use goal_ast::{Bound, Goal};
use goal_sort::sorted_goals_are_well_formed;
use goal_text::readable;
use report_text::{Due, Progress, next_line, reading_goes_on, reports_are_lines};
use std::alloc::{AllocError, Global};

fn vars_of(goal: &Option<Goal>) -> &[Bound]
    ensures { result.now ≡ vars_in goal.now }
{
    match goal {
        Some(goal) => goal.vars.as_slice(),
        None => &[],
    }
}

// Whether no bytes are left after the last line.
fn is_ended(rest: &[u8], due: Due) -> bool
    ensures { IsTrue result ↔ ((rest.now ≡ []) × (due ≡ Due.Nothing)) }
{
    rest.is_empty() && matches!(due, Due::Nothing)
}

/// Whether bytes are a report, and which of its goals is the first that isn't good.
///
/// Bytes that are no report are `Bad` whatever stands in front of the line that doesn't fit. `Err` where there is no memory.
pub fn recheck(alloc: Global, bytes: &[u8]) -> Result<Recheck, AllocError>
    ensures { IfOk result (Rechecks bytes.now) }
{
    let mut goal = None;
    let mut place = Place {
        session: 0,
        goal: 0,
    };
    let mut judged = Judged::Good;
    let mut progress = Progress::new();
    let mut rest = bytes;
    'lines: while let Some(next) = next_line(alloc, vars_of(&goal), progress, rest)? {
        judged = judge(alloc, &goal, place, judged, &next.line)?;
        place = place_after(place, &next.line);
        goal = goal_after(goal, next.line);
        progress = next.progress;
        rest = next.rest;
    }
    if is_ended(rest, progress.due) {
        Ok(verdict(&judged))
    } else {
        Ok(Recheck::Bad {
            at: (bytes.len() - rest.len()) as u64,
        })
    }
}
