//! A file and its sessions, outside their goals.

ghost use Rattle.std.specs.Prelude.{◌≡◌, ◌<◌, ◌^◌, ◌-◌, ◌++◌, ◌∷◌, [], IfSome, IfOk, map};
ghost use Rattle.goal_text.specs.Counts.{body_between, body_in};
ghost use Rattle.goal_text.specs.Giving.{Gives};
ghost use Rattle.goal_text.specs.Steps.{at_start, name_next, name_end, after_goals, after_goal, qed_end, in_session, in_file, ends_within};

use crate::fail::StepFail;
use crate::goal::goal_next;
use crate::kind::{Kind, kind_of};
use crate::raw::RawSession;
use crate::state::{Between, FileState, Named, Part, State};
use goal_token::{Keyword, Placed};
use sqlite_items::Items;
use std::alloc::{AllocError, Global};

// The first session, if there is one.
fn at_start(done: Items<RawSession>, kind: Kind) -> Result<FileState, StepFail>
    ensures { Gives result (at_start done kind) }
{
    match kind {
        Kind::Keyword(Keyword::Session) => Ok((done, State::Name)),
        _ => Err(StepFail::Bad),
    }
}

// A session's name.
fn name_next(done: Items<RawSession>, kind: Kind, at: u64) -> Result<FileState, StepFail>
    ensures { Gives result (name_next done kind at) }
{
    match kind {
        Kind::Name(name) => Ok((done, State::NameEnd(Named { name, at }))),
        _ => Err(StepFail::Bad),
    }
}

// The dot after it.
fn name_end(
    alloc: Global,
    done: Items<RawSession>,
    named: Named,
    kind: Kind,
) -> Result<FileState, StepFail>
    ensures { Gives result (name_end done named kind) }
{
    match kind {
        Kind::Dot => {
            let Named { name, at: _ } = named;
            let goals = Items::new(alloc);
            Ok((
                done,
                State::Within(RawSession { name, goals }, Between::Open),
            ))
        }
        _ => Err(StepFail::Bad),
    }
}

// The sessions with one more.
fn with_session(
    mut done: Items<RawSession>,
    session: RawSession,
) -> Result<Items<RawSession>, AllocError>
    ensures { IfOk result (λ all. all ≡ done ++ session ∷ []) }
{
    done.push(session)?;
    Ok(done)
}

// Where a goal or a session may come.
fn after_goals(
    alloc: Global,
    done: Items<RawSession>,
    within: RawSession,
    kind: Kind,
    at: u64,
) -> Result<FileState, StepFail>
    ensures { Gives result (after_goals done within kind at) }
{
    match kind {
        Kind::Keyword(Keyword::Goal) => {
            let goal = Between::Goal(at, Items::new(alloc), Part::Head);
            Ok((done, State::Within(within, goal)))
        }
        Kind::Keyword(Keyword::Session) => {
            let done = with_session(done, within)?;
            Ok((done, State::Name))
        }
        _ => Err(StepFail::Bad),
    }
}

// Where `Qed` may come too.
fn after_goal(
    alloc: Global,
    done: Items<RawSession>,
    within: RawSession,
    kind: Kind,
    at: u64,
) -> Result<FileState, StepFail>
    ensures { Gives result (after_goal done within kind at) }
{
    match kind {
        Kind::Keyword(Keyword::Qed) => Ok((done, State::Within(within, Between::QedEnd))),
        kind => after_goals(alloc, done, within, kind, at),
    }
}

// The dot after `Qed`.
fn qed_end(done: Items<RawSession>, within: RawSession, kind: Kind) -> Result<FileState, StepFail>
    ensures { Gives result (qed_end done within kind) }
{
    match kind {
        Kind::Dot => Ok((done, State::Within(within, Between::Open))),
        _ => Err(StepFail::Bad),
    }
}

// A token of a session.
fn in_session(
    alloc: Global,
    done: Items<RawSession>,
    within: RawSession,
    between: Between,
    token: Placed,
) -> Result<FileState, StepFail>
    requires { IfSome (body_between between) (λ n. n < 2 ^ 32 - 1) }
    ensures { Gives result (in_session done within between token) }
{
    match between {
        Between::Open => after_goals(alloc, done, within, kind_of(token.token), token.at),
        Between::Ended => after_goal(alloc, done, within, kind_of(token.token), token.at),
        Between::QedEnd => qed_end(done, within, kind_of(token.token)),
        Between::Goal(at, bound, part) => {
            let state = goal_next(alloc, within, at, bound, part, token)?;
            Ok((done, state))
        }
    }
}

/// A token of a file.
pub fn in_file(
    alloc: Global,
    done: Items<RawSession>,
    state: State,
    token: Placed,
) -> Result<FileState, StepFail>
    requires { IfSome (body_in state) (λ n. n < 2 ^ 32 - 1) }
    ensures { Gives result (in_file done state token) }
{
    match state {
        State::Start => at_start(done, kind_of(token.token)),
        State::Name => name_next(done, kind_of(token.token), token.at),
        State::NameEnd(named) => name_end(alloc, done, named, kind_of(token.token)),
        State::Within(within, between) => in_session(alloc, done, within, between, token),
    }
}

/// The sessions, where the file may end in this one.
pub fn ends_within(
    done: Items<RawSession>,
    within: RawSession,
    between: Between,
) -> Result<Items<RawSession>, StepFail>
    ensures { Gives result (ends_within done within between) }
{
    match between {
        Between::Open | Between::Ended => Ok(with_session(done, within)?),
        Between::QedEnd | Between::Goal(_, _, _) => Err(StepFail::Bad),
    }
}
