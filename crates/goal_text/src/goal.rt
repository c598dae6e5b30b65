//! A goal: its prefixes, its body and its command.

ghost use Rattle.std.specs.Prelude.{◌≡◌, ◌<◌, ◌^◌, ◌-◌, IfSome, IfOk};
ghost use Rattle.goal_text.specs.Giving.{Gives};
ghost use Rattle.goal_text.specs.Counts.{part_count};
ghost use Rattle.goal_text.specs.Steps.{kind_of, is_dot, is_forall, mode_next, command_next, dot_next, body_next, in_goal, with_goal, goal_end, goal_next};

use crate::fail::StepFail;
use crate::kind::{Kind, kind_of};
use crate::operands::Operands;
use crate::prefix::{
    after_forall, after_group, close_next, comma_next, in_bare, in_group, sort_next,
};
use crate::raw::{RawBound, RawExpr, RawGoal, RawSession};
use crate::state::{Between, GoalState, Part, State};
use goal_ast::Mode;
use goal_token::{Keyword, Placed, Sign, Token};
use sqlite_items::Items;
use std::alloc::{AllocError, Global};

/// Whether a token is a dot.
pub fn is_dot(token: &Token) -> bool
    ensures { result ≡ is_dot (kind_of token.now) }
{
    matches!(token, Token::Sign(Sign::Dot))
}

fn is_forall(token: &Token) -> bool
    ensures { result ≡ is_forall (kind_of token.now) }
{
    matches!(token, Token::Keyword(Keyword::Forall))
}

// The mode of a goal.
fn mode_next(bound: Items<RawBound>, body: RawExpr, kind: Kind) -> Result<GoalState, StepFail>
    ensures { Gives result (mode_next bound body kind) }
{
    match kind {
        Kind::Keyword(Keyword::Lia) => Ok((bound, Part::ModeEnd(body, Mode::Lia))),
        Kind::Keyword(Keyword::Nia) => Ok((bound, Part::ModeEnd(body, Mode::Nia))),
        _ => Err(StepFail::Bad),
    }
}

// The command of a goal: its mode, maybe after `Proof`.
fn command_next(bound: Items<RawBound>, body: RawExpr, kind: Kind) -> Result<GoalState, StepFail>
    ensures { Gives result (command_next bound body kind) }
{
    match kind {
        Kind::Keyword(Keyword::Proof) => Ok((bound, Part::ProofEnd(body))),
        kind => mode_next(bound, body, kind),
    }
}

// A dot, and what comes after it.
fn dot_next(bound: Items<RawBound>, next: Part, kind: Kind) -> Result<GoalState, StepFail>
    ensures { Gives result (dot_next bound next kind) }
{
    match kind {
        Kind::Dot => Ok((bound, next)),
        _ => Err(StepFail::Bad),
    }
}

// One more token of the body, after so many.
fn body_next(
    alloc: Global,
    bound: Items<RawBound>,
    operands: Operands,
    count: u32,
    token: Placed,
) -> Result<GoalState, StepFail>
    requires { count < 2 ^ 32 - 1 }
    ensures { Gives result (body_next bound operands count token) }
{
    let operands = operands.step(alloc, token)?;
    Ok((bound, Part::Body(operands, count + 1)))
}

// The first token after a goal's prefixes so far: another prefix, or the body.
fn head_next(alloc: Global, bound: Items<RawBound>, token: Placed) -> Result<GoalState, StepFail>
    ensures { Gives result (in_goal bound Part.Head token) }
{
    if is_forall(&token.token) {
        return Ok((bound, Part::Binders));
    }
    body_next(alloc, bound, Operands::new(alloc), 0, token)
}

// A token of the body, or the dot after it.
fn in_body(
    alloc: Global,
    bound: Items<RawBound>,
    operands: Operands,
    count: u32,
    token: Placed,
) -> Result<GoalState, StepFail>
    requires { count < 2 ^ 32 - 1 }
    ensures { Gives result (in_goal bound (Part.Body operands count) token) }
{
    if is_dot(&token.token) {
        let body = operands.finish(alloc)?;
        return Ok((bound, Part::Command(body)));
    }
    body_next(alloc, bound, operands, count, token)
}

// A token of a goal.
fn in_goal(
    alloc: Global,
    bound: Items<RawBound>,
    part: Part,
    token: Placed,
) -> Result<GoalState, StepFail>
    requires { IfSome (part_count part) (λ n. n < 2 ^ 32 - 1) }
    ensures { Gives result (in_goal bound part token) }
{
    match part {
        Part::Head => head_next(alloc, bound, token),
        Part::Binders => after_forall(alloc, bound, kind_of(token.token), token.at),
        Part::Bare(names) => in_bare(bound, names, kind_of(token.token), token.at),
        Part::BareSort(names) => {
            sort_next(alloc, bound, names, Part::BareEnd, kind_of(token.token))
        }
        Part::BareEnd => comma_next(bound, kind_of(token.token)),
        Part::Grouped(names) => in_group(bound, names, kind_of(token.token), token.at),
        Part::GroupedSort(names) => {
            sort_next(alloc, bound, names, Part::GroupedEnd, kind_of(token.token))
        }
        Part::GroupedEnd => close_next(bound, kind_of(token.token)),
        Part::NextGroup => after_group(alloc, bound, kind_of(token.token)),
        Part::Body(operands, count) => in_body(alloc, bound, operands, count, token),
        Part::Command(body) => command_next(bound, body, kind_of(token.token)),
        Part::ProofEnd(body) => {
            dot_next(bound, Part::ModeAfterProof(body), kind_of(token.token))
        }
        Part::ModeAfterProof(body) => mode_next(bound, body, kind_of(token.token)),
        Part::ModeEnd(_, _) => Err(StepFail::Bad),
    }
}

// The session with one more goal.
fn with_goal(
    within: RawSession,
    at: u64,
    bound: Items<RawBound>,
    body: RawExpr,
    mode: Mode,
) -> Result<RawSession, AllocError>
    ensures { IfOk result (λ session. session ≡ with_goal within at bound body mode) }
{
    let RawSession { name, mut goals } = within;
    goals.push(RawGoal {
        mode,
        bound,
        body,
        at,
    })?;
    Ok(RawSession { name, goals })
}

// The dot after a goal's mode.
fn goal_end(
    within: RawSession,
    at: u64,
    bound: Items<RawBound>,
    body: RawExpr,
    mode: Mode,
    kind: Kind,
) -> Result<State, StepFail>
    ensures { Gives result (goal_end within at bound body mode kind) }
{
    match kind {
        Kind::Dot => {
            let session = with_goal(within, at, bound, body, mode)?;
            Ok(State::Within(session, Between::Ended))
        }
        _ => Err(StepFail::Bad),
    }
}

/// A token of a goal.
pub fn goal_next(
    alloc: Global,
    within: RawSession,
    at: u64,
    bound: Items<RawBound>,
    part: Part,
    token: Placed,
) -> Result<State, StepFail>
    requires { IfSome (part_count part) (λ n. n < 2 ^ 32 - 1) }
    ensures { Gives result (goal_next within at bound part token) }
{
    match part {
        Part::ModeEnd(body, mode) => goal_end(within, at, bound, body, mode, kind_of(token.token)),
        part => {
            let (bound, part) = in_goal(alloc, bound, part, token)?;
            Ok(State::Within(within, Between::Goal(at, bound, part)))
        }
    }
}
