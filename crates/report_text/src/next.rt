//! The next line of a report.

ghost use Rattle.std.specs.Prelude.{◌≡◌, ◌≤◌, ◌<◌, ◌+◌, ◌-◌, ◌^◌, List, IfOk, IfSome};
ghost use Rattle.std.specs.Option.{option_map};
ghost use Rattle.goal_ast.specs.declared.goal.Bound.{Bound as BoundSpec};
ghost use Rattle.report_text.specs.Fitting.{Between as BetweenGoals, AtRow};
ghost use Rattle.report_text.specs.machine.Kinds.{IsRowLine, IsCertLine};
ghost use Rattle.report_text.specs.machine.Reading.{begin_at, answer_at, place_at, value_at, clause_at, call_at, cache_at};
ghost use Rattle.report_text.specs.Progress.{reading_at, reading_of, FindsNext};
ghost use Rattle.report_text.specs.machine.Steps.{FindsKind, moved_by, with_due, first_clause, answer_due, next_clause, call_due, asked_due, IsSessionKind, IsAskedKind, IsCacheKind};

use crate::answer::{answer, place};
use crate::between::{asked_line, certificate_line, row_line, session_line};
use crate::call::Call;
use crate::clause::clause;
use crate::history::{cache, call};
use crate::lines::Line;
use crate::progress::{Due, Progress};
use crate::value::value;
use crate::word::strip;
use goal_ast::{Bound, Mode};
use std::alloc::{AllocError, Global};

// A report has at most so many sessions and so many goals.
const SESSIONS: u64 = 64;

const GOALS: u64 = 1024;

/// A line that was read, what follows it, and how far the report is read after it.
#[derive(Debug, Drop)]
pub struct Next<'a> {
    pub line: Line,
    pub rest: &'a [u8],
    pub progress: Progress,
}

fn begin(bytes: &[u8]) -> Option<(Line, &[u8])>
    ensures { option_map (λ x. (x.0, x.1.now)) result ≡ begin_at bytes.now }
{
    let rest = strip(bytes, b"mm report 1\n")?;
    Some((Line::Begin, rest))
}

// The same, where something else may come next.
fn with_due(progress: Progress, due: Due) -> Progress
    ensures { result ≡ with_due progress due }
{
    Progress { due, ..progress }
}

fn begun(progress: Progress, bytes: &[u8]) -> Option<(Line, &[u8], Progress)>
    ensures { option_map (λ x. (x.0, x.1.now, x.2)) result ≡ moved_by progress (λ line. Due.Between) (begin_at bytes.now) }
{
    let (line, rest) = begin(bytes)?;
    Some((line, rest, with_due(progress, Due::Between)))
}

fn placed(progress: Progress, bytes: &[u8]) -> Option<(Line, &[u8], Progress)>
    ensures { option_map (λ x. (x.0, x.1.now, x.2)) result ≡ moved_by progress (λ line. Due.Between) (place_at bytes.now) }
{
    let (line, rest) = place(bytes)?;
    Some((line, rest, with_due(progress, Due::Between)))
}

// The value of the variable of this number.
fn valued<'a>(
    progress: Progress,
    number: usize,
    bound: &Bound,
    bytes: &'a [u8],
) -> Option<(Line, &'a [u8], Progress)>
    requires { number + 1 < 2 ^ 64 }
    ensures { option_map (λ x. (x.0, x.1.now, x.2)) result ≡ moved_by progress (λ line. Due.Value (number + 1)) (value_at bound.now bytes.now) }
{
    let (line, rest) = value(bound, bytes)?;
    Some((line, rest, with_due(progress, Due::Value(number + 1))))
}

fn claused(
    progress: Progress,
    number: u64,
    last: u64,
    bytes: &[u8],
) -> Option<(Line, &[u8], Progress)>
    ensures { option_map (λ x. (x.0, x.1.now, x.2)) result ≡ moved_by progress (λ line. Due.Row number 0 last) (clause_at number bytes.now) }
{
    let (line, rest) = clause(number, bytes)?;
    let rows = 0;
    let due = Due::Row { number, rows, last };
    Some((line, rest, with_due(progress, due)))
}

// So many clauses from the first on.
fn first_clause(count: u64) -> Due
    ensures { result ≡ first_clause count }
{
    if count == 0 {
        Due::Between
    } else {
        Due::Clause {
            number: 0,
            last: count - 1,
        }
    }
}

fn answer_due(line: &Line) -> Due
    ensures { result ≡ answer_due line.now }
{
    match line {
        Line::Proved(count) => first_clause(*count),
        Line::Refuted => Due::Value(0),
        _ => Due::Between,
    }
}

fn answered(progress: Progress, bytes: &[u8]) -> Option<(Line, &[u8], Progress)>
    ensures { option_map (λ x. (x.0, x.1.now, x.2)) result ≡ moved_by progress answer_due (answer_at bytes.now) }
{
    let (line, rest) = answer(bytes)?;
    let due = answer_due(&line);
    Some((line, rest, with_due(progress, due)))
}

fn call_due(mode: Mode, stores: u64, line: &Line) -> Due
    ensures { result ≡ call_due mode stores line.now }
{
    match line {
        Line::Cache { mode, stored, .. } => Due::Call {
            mode: *mode,
            stores: *stored,
        },
        Line::Called(Call::Find { .. }) => Due::Call { mode, stores },
        Line::Called(Call::Store { .. }) => Due::Call {
            mode,
            stores: stores.saturating_sub(1),
        },
        _ => Due::Nothing,
    }
}

fn called(
    progress: Progress,
    mode: Mode,
    stores: u64,
    bytes: &[u8],
) -> Option<(Line, &[u8], Progress)>
    ensures { option_map (λ x. (x.0, x.1.now, x.2)) result ≡ moved_by progress (call_due mode stores) (call_at mode stores bytes.now) }
{
    let (line, rest) = call(mode, stores, bytes)?;
    let due = call_due(mode, stores, &line);
    Some((line, rest, with_due(progress, due)))
}

// A row, after so many others.
fn row_next(
    alloc: Global,
    progress: Progress,
    number: u64,
    rows: u32,
    last: u64,
    bytes: &[u8],
) -> Result<Option<(Line, &[u8], Progress)>, AllocError>
    ensures { IfOk result (λ o. (vars : List BoundSpec) → FindsKind IsRowLine (reading_at progress (AtRow number rows (last - number))) vars bytes.now (option_map (λ x. (x.0, x.1.now, x.2)) o)) }
{
    if rows == u32::MAX {
        return Ok(None);
    }
    match row_line(alloc, bytes)? {
        Some((line, rest)) => {
            let rows = rows + 1;
            let due = Due::Row { number, rows, last };
            Ok(Some((line, rest, with_due(progress, due))))
        }
        None => Ok(None),
    }
}

// The clause after this one.
fn next_clause(number: u64, last: u64) -> Due
    ensures { result ≡ next_clause number last }
{
    if number < last {
        let number = number + 1;
        Due::Clause { number, last }
    } else {
        Due::Between
    }
}

// The certificate of a clause, after so many rows.
fn certificate_next(
    alloc: Global,
    progress: Progress,
    number: u64,
    rows: u32,
    last: u64,
    bytes: &[u8],
) -> Result<Option<(Line, &[u8], Progress)>, AllocError>
    ensures { IfOk result (λ o. (vars : List BoundSpec) → FindsKind IsCertLine (reading_at progress (AtRow number rows (last - number))) vars bytes.now (option_map (λ x. (x.0, x.1.now, x.2)) o)) }
{
    match certificate_line(alloc, bytes)? {
        Some((line, rest)) => {
            let due = next_clause(number, last);
            Ok(Some((line, rest, with_due(progress, due))))
        }
        None => Ok(None),
    }
}

// A row or the certificate of a clause, after so many rows.
fn rowed(
    alloc: Global,
    progress: Progress,
    number: u64,
    rows: u32,
    last: u64,
    bytes: &[u8],
) -> Result<Option<(Line, &[u8], Progress)>, AllocError>
    ensures { IfOk result (λ o. (vars : List BoundSpec) → FindsNext (reading_at progress (AtRow number rows (last - number))) vars bytes.now (option_map (λ x. (x.0, x.1.now, x.2)) o)) }
{
    if let Some(found) = row_next(alloc, progress, number, rows, last, bytes)? {
        return Ok(Some(found));
    }
    certificate_next(alloc, progress, number, rows, last, bytes)
}

// The next session.
fn session_next(
    alloc: Global,
    progress: Progress,
    bytes: &[u8],
) -> Result<Option<(Line, &[u8], Progress)>, AllocError>
    ensures { IfOk result (λ o. (vars : List BoundSpec) → FindsKind IsSessionKind (reading_at progress BetweenGoals) vars bytes.now (option_map (λ x. (x.0, x.1.now, x.2)) o)) }
{
    if progress.sessions >= SESSIONS {
        return Ok(None);
    }
    match session_line(alloc, progress.sessions, bytes)? {
        Some((line, rest)) => {
            let progress = Progress {
                sessions: progress.sessions + 1,
                goals: progress.goals,
                here: 0,
                due: Due::Between,
            };
            Ok(Some((line, rest, progress)))
        }
        None => Ok(None),
    }
}

fn asked_due(line: &Line) -> Due
    ensures { result ≡ asked_due line.now }
{
    match line {
        Line::Asked { goal: Some(_), .. } => Due::Answer,
        _ => Due::Place,
    }
}

// The next goal of the session.
fn asked_next(
    alloc: Global,
    progress: Progress,
    bytes: &[u8],
) -> Result<Option<(Line, &[u8], Progress)>, AllocError>
    requires { progress.here ≤ progress.goals }
    ensures { IfOk result (λ o. (vars : List BoundSpec) → FindsKind IsAskedKind (reading_at progress BetweenGoals) vars bytes.now (option_map (λ x. (x.0, x.1.now, x.2)) o)) }
{
    if progress.sessions == 0 || progress.goals >= GOALS {
        return Ok(None);
    }
    match asked_line(alloc, progress.here, bytes)? {
        Some((line, rest)) => {
            let progress = Progress {
                sessions: progress.sessions,
                goals: progress.goals + 1,
                here: progress.here + 1,
                due: asked_due(&line),
            };
            Ok(Some((line, rest, progress)))
        }
        None => Ok(None),
    }
}

// The first cache.
fn cache_next(progress: Progress, bytes: &[u8]) -> Option<(Line, &[u8], Progress)>
    ensures { option_map (λ x. (x.0, x.1.now, x.2)) result ≡ moved_by progress (call_due Mode.Lia 0) (cache_at Mode.Lia bytes.now) }
{
    let (line, rest) = cache(Mode::Lia, bytes)?;
    let due = call_due(Mode::Lia, 0, &line);
    Some((line, rest, with_due(progress, due)))
}

// What may come between goals.
fn between(
    alloc: Global,
    progress: Progress,
    bytes: &[u8],
) -> Result<Option<(Line, &[u8], Progress)>, AllocError>
    requires { progress.here ≤ progress.goals }
    ensures { IfOk result (λ o. (vars : List BoundSpec) → FindsNext (reading_at progress BetweenGoals) vars bytes.now (option_map (λ x. (x.0, x.1.now, x.2)) o)) }
{
    if let Some(found) = session_next(alloc, progress, bytes)? {
        return Ok(Some(found));
    }
    if let Some(found) = asked_next(alloc, progress, bytes)? {
        return Ok(Some(found));
    }
    Ok(cache_next(progress, bytes))
}

// The value of the variable of this number, or what may come between goals where there is no such variable.
fn value_next<'a>(
    alloc: Global,
    vars: &[Bound],
    progress: Progress,
    number: usize,
    bytes: &'a [u8],
) -> Result<Option<(Line, &'a [u8], Progress)>, AllocError>
    requires counted { progress.here ≤ progress.goals }
    requires due { progress.due ≡ Due.Value number }
    ensures { IfOk result (λ o. FindsNext (reading_of vars.now progress) vars.now bytes.now (option_map (λ x. (x.0, x.1.now, x.2)) o)) }
{
    if number < vars.len() {
        Ok(valued(progress, number, &vars[number], bytes))
    } else {
        between(alloc, progress, bytes)
    }
}

// The line that fits next, by what may come next.
fn by_due<'a>(
    alloc: Global,
    vars: &[Bound],
    progress: Progress,
    bytes: &'a [u8],
) -> Result<Option<(Line, &'a [u8], Progress)>, AllocError>
    requires { progress.here ≤ progress.goals }
    ensures { IfOk result (λ o. FindsNext (reading_of vars.now progress) vars.now bytes.now (option_map (λ x. (x.0, x.1.now, x.2)) o)) }
{
    match progress.due {
        Due::Begin => Ok(begun(progress, bytes)),
        Due::Between => between(alloc, progress, bytes),
        Due::Answer => Ok(answered(progress, bytes)),
        Due::Place => Ok(placed(progress, bytes)),
        Due::Value(number) => value_next(alloc, vars, progress, number, bytes),
        Due::Clause { number, last } => Ok(claused(progress, number, last, bytes)),
        Due::Row { number, rows, last } => rowed(alloc, progress, number, rows, last, bytes),
        Due::Call { mode, stores } => Ok(called(progress, mode, stores, bytes)),
        Due::Nothing => Ok(None),
    }
}

// The line that fits next.
fn found_next<'a>(
    alloc: Global,
    vars: &[Bound],
    progress: Progress,
    bytes: &'a [u8],
) -> Result<Option<(Line, &'a [u8], Progress)>, AllocError>
    requires { progress.here ≤ progress.goals }
    ensures next { IfOk result (λ o. FindsNext (reading_of vars.now progress) vars.now bytes.now (option_map (λ x. (x.0, x.1.now, x.2)) o)) }
    ensures counted { IfOk result (λ o. IfSome o (λ x. x.2.here ≤ x.2.goals)) }
{
    by_due(alloc, vars, progress, bytes)
}

/// The line that fits next, what follows it, and how far the report is read after it: none where no line that fits stands
/// at the front of the bytes. The variables are those of the last goal that has sorts.
pub fn next_line<'a>(
    alloc: Global,
    vars: &[Bound],
    progress: Progress,
    bytes: &'a [u8],
) -> Result<Option<Next<'a>>, AllocError>
    requires { progress.here ≤ progress.goals }
    ensures next { IfOk result (λ o. FindsNext (reading_of vars.now progress) vars.now bytes.now (option_map (λ x. (x.line, x.rest.now, x.progress)) o)) }
    ensures counted { IfOk result (λ o. IfSome o (λ x. x.progress.here ≤ x.progress.goals)) }
{
    match found_next(alloc, vars, progress, bytes)? {
        Some((line, rest, progress)) => Ok(Some(Next {
            line,
            rest,
            progress,
        })),
        None => Ok(None),
    }
}
