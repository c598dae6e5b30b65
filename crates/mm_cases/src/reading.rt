use crate::spelling::spelling;
use goal_ast::{Mode, Sort};
use goal_text::{Head, RawBound, RawExpr, RawGoal, RawSession, TextFail, read_file};
use std::alloc::{AllocError, Global};
use std::fmt::Write;

fn push(out: &mut Vec<u8>, text: &str) -> Result<(), AllocError> {
    out.extend_from_slice(text.as_bytes())
}

fn push_place(alloc: Global, out: &mut Vec<u8>, at: u64) -> Result<(), AllocError> {
    push(out, format!(in alloc; "@{at}")?.as_str())
}

fn push_head(alloc: Global, out: &mut Vec<u8>, head: &Head) -> Result<(), AllocError> {
    match head {
        Head::Lit(value) => push(out, format!(in alloc; "{value}")?.as_str()),
        Head::Name(name) => out.extend_from_slice(name.bytes.as_slice()),
        Head::Prefix(n) | Head::Infix(n) | Head::Apply(n) => push(out, spelling(*n)),
        Head::Chain(first, second) => {
            push(out, spelling(*first))?;
            push(out, " ")?;
            push(out, spelling(*second))
        }
    }
}

// A leaf as itself, another node in parentheses before its parts; each with its place.
fn push_expression(alloc: Global, out: &mut Vec<u8>, e: &RawExpr) -> Result<(), AllocError> {
    if e.parts.is_empty() {
        push_head(alloc, out, &e.head)?;
        return push_place(alloc, out, e.at);
    }
    push(out, "(")?;
    push_head(alloc, out, &e.head)?;
    push_place(alloc, out, e.at)?;
    for part in e.parts.as_slice() {
        push(out, " ")?;
        push_expression(alloc, out, part)?;
    }
    push(out, ")")
}

fn word_of(sort: Sort) -> &'static str {
    match sort {
        Sort::Int => "Z",
        Sort::Bin => "N",
        Sort::Nat => "nat",
        Sort::Pos => "positive",
        Sort::Bool => "bool",
    }
}

fn push_bound(alloc: Global, out: &mut Vec<u8>, bound: &RawBound) -> Result<(), AllocError> {
    out.extend_from_slice(bound.name.bytes.as_slice())?;
    push(out, ":")?;
    push(out, word_of(bound.sort))?;
    push_place(alloc, out, bound.at)?;
    push(out, " ")
}

fn push_goal(alloc: Global, out: &mut Vec<u8>, goal: &RawGoal) -> Result<(), AllocError> {
    push(
        out,
        match goal.mode {
            Mode::Lia => " lia",
            Mode::Nia => " nia",
        },
    )?;
    push_place(alloc, out, goal.at)?;
    push(out, " ")?;
    for bound in goal.bound.as_slice() {
        push_bound(alloc, out, bound)?;
    }
    push_expression(alloc, out, &goal.body)
}

fn push_session(alloc: Global, out: &mut Vec<u8>, session: &RawSession) -> Result<(), AllocError> {
    push(out, "[")?;
    out.extend_from_slice(session.name.bytes.as_slice())?;
    for goal in session.goals.as_slice() {
        push_goal(alloc, out, goal)?;
    }
    push(out, "]")
}

fn refusal(alloc: Global, why: &str, at: u64) -> Result<Vec<u8>, AllocError> {
    Ok(format!(in alloc; "{why} {at}")?.into_bytes())
}

/// How bytes are read as a goal file: each session in brackets with its name and its goals, each goal with its mode, its
/// place, its variables and its body; or the refusal and its place.
pub fn answer(alloc: Global, bytes: &[u8]) -> Result<Vec<u8>, AllocError> {
    let sessions = match read_file(alloc, bytes) {
        Ok(sessions) => sessions,
        Err(TextFail::Bad { at }) => return refusal(alloc, "bad", at),
        Err(TextFail::Long { at }) => return refusal(alloc, "long", at),
        Err(TextFail::Many { at }) => return refusal(alloc, "many", at),
        Err(TextFail::NoMemory) => return Err(AllocError),
    };
    let mut out = Vec::new(alloc);
    for session in sessions.as_slice() {
        push_session(alloc, &mut out, session)?;
    }
    Ok(out)
}
