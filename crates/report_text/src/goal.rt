//! The text of a goal.

ghost use Rattle.std.specs.Prelude.{◌≡◌, codes, IfOk, IsTrue, ◌↔◌};
ghost use Rattle.std.specs.Option.{option_map};
ghost use Rattle.goal_sort.specs.Sorting.{IsReadable};
ghost use Rattle.goal_text.specs.GoalsRead.{AreReadable};
ghost use Rattle.goal_print.specs.Text.{goal_text};
ghost use Rattle.goal_print.specs.ReadsBack.{mode_text};
ghost use Rattle.report_text.specs.machine.Parts.{file_with, IsOnlyGoal, SortsTo, ReadsSessions, ReadsFile, ReadsGoal, SplitsDotted, ReadsDotted, ReadsAsked};

use crate::history::mode_text;
use crate::name::same;
use crate::part::split_line;
use crate::word::strip;
use goal_ast::{Goal, Mode};
use goal_print::print_goal;
use goal_text::{RawGoal, RawSession, SortFail, TextFail, read_file, readable, sorts};
use sqlite_items::Items;
use std::alloc::{AllocError, Global};

// A file with a goal of this text alone.
fn file_with(alloc: Global, mode: Mode, text: &[u8]) -> Result<Vec<u8>, AllocError>
    ensures { IfOk result (λ file. file.items ≡ file_with mode text.now) }
{
    let mut file = Vec::new(alloc);
    file.extend_from_slice(b"Session a. Goal ")?;
    file.extend_from_slice(text)?;
    file.extend_from_slice(b". ")?;
    file.extend_from_slice(mode_text(mode))?;
    file.extend_from_slice(b".")?;
    Ok(file)
}

// The goal that stands alone in a session of the name `a`.
fn only_goal(sessions: &[RawSession]) -> Option<&RawGoal>
    ensures { IsOnlyGoal sessions.now (option_map (λ raw. raw.now) result) }
{
    if sessions.len() != 1 {
        return None;
    }
    let session = &sessions[0];
    let goals = session.goals.as_slice();
    if goals.len() != 1 || !same(session.name.bytes.as_slice(), b"a") {
        return None;
    }
    Some(&goals[0])
}

fn sorted(alloc: Global, raw: &RawGoal) -> Result<Option<Goal>, AllocError>
    requires { IsReadable raw.now }
    ensures { IfOk result (SortsTo raw.now) }
{
    match sorts(alloc, raw) {
        Ok(goal) => Ok(Some(goal)),
        Err(SortFail::IllSorted { .. }) => Ok(None),
        Err(SortFail::NoMemory) => Err(AllocError),
    }
}

// The sessions of a file, or none where the bytes are no file within the limits.
fn sessions(alloc: Global, bytes: &[u8]) -> Result<Option<Items<RawSession>>, AllocError>
    ensures { IfOk result (ReadsSessions bytes.now) }
{
    match read_file(alloc, bytes) {
        Ok(sessions) => Ok(Some(sessions)),
        Err(TextFail::NoMemory) => Err(AllocError),
        Err(TextFail::Bad { .. } | TextFail::Long { .. } | TextFail::Many { .. }) => Ok(None),
    }
}

// The goal that stands alone in a file.
fn goal_of_file(alloc: Global, bytes: &[u8]) -> Result<Option<Goal>, AllocError>
    ensures { IfOk result (ReadsFile bytes.now) }
{
    let Some(sessions) = sessions(alloc, bytes)? else {
        return Ok(None);
    };
    let Some(raw) = only_goal(sessions.as_slice()) else {
        return Ok(None);
    };
    sorted(alloc, raw)
}

// Whether the goal has this mode and this text.
fn is_text(alloc: Global, goal: &Goal, mode: Mode, text: &[u8]) -> Result<bool, AllocError>
    ensures { IfOk result (λ is. IsTrue is ↔ ((goal.now.mode ≡ mode) × (goal_text goal.now ≡ text.now))) }
{
    if goal.mode != mode {
        return Ok(false);
    }
    let printed = print_goal(alloc, goal)?;
    Ok(same(&printed, text))
}

// The goal of a mode with this text, or none where it is the text of no goal.
fn goal(alloc: Global, mode: Mode, text: &[u8]) -> Result<Option<Goal>, AllocError>
    ensures { IfOk result (ReadsGoal mode text.now) }
{
    let file = file_with(alloc, mode, text)?;
    let Some(goal) = goal_of_file(alloc, &file)? else {
        return Ok(None);
    };
    if is_text(alloc, &goal, mode, text)? {
        Ok(Some(goal))
    } else {
        Ok(None)
    }
}

// The bytes of a line before the dot at its end, and what follows the line.
fn dotted_line(bytes: &[u8]) -> Option<(&[u8], &[u8])>
    ensures { SplitsDotted bytes.now (option_map (λ x. (x.0.now, x.1.now)) result) }
{
    let (line, rest) = split_line(bytes)?;
    let text = line.strip_suffix(b".")?;
    Some((text, rest))
}

// A goal's text with a dot, up to the end of the line, and what follows it.
fn dotted_goal(alloc: Global, mode: Mode, bytes: &[u8]) -> Result<Option<(Goal, &[u8])>, AllocError>
    ensures { IfOk result (λ o. ReadsDotted mode bytes.now (option_map (λ x. (x.0, x.1.now)) o)) }
{
    let Some((text, rest)) = dotted_line(bytes) else {
        return Ok(None);
    };
    match goal(alloc, mode, text)? {
        Some(goal) => Ok(Some((goal, rest))),
        None => Ok(None),
    }
}

/// What a goal's line says after the mode: the goal itself, or none where it has no sorts; and what follows the line.
pub fn asked(
    alloc: Global,
    mode: Mode,
    bytes: &[u8],
) -> Result<Option<(Option<Goal>, &[u8])>, AllocError>
    ensures { IfOk result (λ o. ReadsAsked mode bytes.now (option_map (λ x. (x.0, x.1.now)) o)) }
{
    if let Some(rest) = strip(bytes, b"\n") {
        return Ok(Some((None, rest)));
    }
    let Some(rest) = strip(bytes, b" ") else {
        return Ok(None);
    };
    match dotted_goal(alloc, mode, rest)? {
        Some((goal, rest)) => Ok(Some((Some(goal), rest))),
        None => Ok(None),
    }
}
