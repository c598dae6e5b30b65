//! Reading bytes as a goal file.

ghost use Rattle.std.specs.Prelude.{◌≡◌, ◌≤◌, length, [], IfOk, IfErr, IfSome};
ghost use Rattle.goal_token.specs.Tokens.{tokens_of};
ghost use Rattle.goal_text.specs.Counts.{body_count};
ghost use Rattle.goal_text.specs.Steps.{kind_of, nothing_read, file_with, file_of};
ghost use Rattle.goal_text.specs.Outcome.{is_session, is_goal, is_name, begun_with, is_many, is_long, limit_at, ended, outcome};
ghost use Rattle.goal_text.specs.Reading.{Comes, begun_of, or_bad, unless, taken};

use crate::fail::{StepFail, TextFail};
use crate::goal::is_dot;
use crate::raw::RawSession;
use crate::reader::Reader;
use goal_token::{Keyword, Lexer, Placed, Token};
use sqlite_items::Items;
use std::alloc::Global;

// At most so many sessions are in a file, so many goals in all of them, so many tokens in a body and so many names in
// the prefixes of a goal.
const SESSIONS: u32 = 64;

const GOALS: u32 = 1024;

const BODY_TOKENS: u32 = 2048;

const BOUND_NAMES: usize = 256;

/// How many sessions and goals have begun.
#[derive(Clone, Copy, Debug, PartialEq, Eq)]
pub struct Counters {
    pub sessions: u32,
    pub goals: u32,
}

fn is_session(token: &Token) -> bool
    ensures { result ≡ is_session (kind_of token.now) }
{
    matches!(token, Token::Keyword(Keyword::Session))
}

fn is_goal(token: &Token) -> bool
    ensures { result ≡ is_goal (kind_of token.now) }
{
    matches!(token, Token::Keyword(Keyword::Goal))
}

fn is_name(token: &Token) -> bool
    ensures { result ≡ is_name (kind_of token.now) }
{
    matches!(token, Token::Name(_))
}

// The counters after one more token.
fn begun_with(counters: Counters, token: &Token) -> Counters
    requires sessions { counters.sessions ≤ 64 }
    requires goals { counters.goals ≤ 1024 }
    ensures { begun_of result ≡ begun_with (begun_of counters) (kind_of token.now) }
{
    Counters {
        sessions: counters.sessions + u32::from(is_session(token)),
        goals: counters.goals + u32::from(is_goal(token)),
    }
}

// Whether the token begins one session or goal too many.
fn is_many(counters: Counters, token: &Token) -> bool
    ensures { result ≡ is_many (begun_of counters) (kind_of token.now) }
{
    (is_session(token) && counters.sessions >= SESSIONS)
        || (is_goal(token) && counters.goals >= GOALS)
}

// Whether the token is one too many of a body, or the name one too many that a goal binds.
fn is_long(reader: &Reader, token: &Token) -> bool
    ensures { result ≡ is_long reader.now (kind_of token.now) }
{
    let is_body_full = reader
        .body_tokens()
        .is_some_and(|count| count >= BODY_TOKENS);
    let is_goal_full = reader
        .bound_names()
        .is_some_and(|count| count >= BOUND_NAMES);
    (is_body_full && !is_dot(token)) || (is_goal_full && is_name(token))
}

// The limit that the token passes.
fn limit_at(reader: &Reader, counters: Counters, token: &Placed) -> Option<TextFail>
    ensures { result ≡ limit_at reader.now (begun_of counters) token.now }
{
    let at = token.at;
    if is_many(counters, &token.token) {
        Some(TextFail::Many { at })
    } else if is_long(reader, &token.token) {
        Some(TextFail::Long { at })
    } else {
        None
    }
}

// Reads one more token, whatever the limits.
fn step(alloc: Global, reader: Reader, token: Placed) -> Result<Reader, TextFail>
    requires { IfSome (body_count reader) (λ n. n ≤ 2048) }
    ensures { Comes result (or_bad token.at (file_with reader token)) }
{
    let at = token.at;
    match reader.step(alloc, token) {
        Ok(reader) => Ok(reader),
        Err(StepFail::Bad) => Err(TextFail::Bad { at }),
        Err(StepFail::NoMemory) => Err(TextFail::NoMemory),
    }
}

// What was read, unless a limit was passed.
#[tactic(auto, using(crate::proofs::ReadingLaws::refuses_so))]
fn unless(limit: Option<TextFail>, reader: Reader) -> Result<Reader, TextFail>
    ensures { Comes result (unless limit reader) }
{
    match limit {
        Some(fail) => Err(fail),
        None => Ok(reader),
    }
}

// Reads one more token, up to the limits.
fn take(
    alloc: Global,
    reader: Reader,
    counters: Counters,
    token: Placed,
) -> Result<Reader, TextFail>
    requires { IfSome (body_count reader) (λ n. n ≤ 2048) }
    ensures { Comes result (taken reader (begun_of counters) token) }
{
    let limit = limit_at(&reader, counters, &token);
    let reader = step(alloc, reader, token)?;
    unless(limit, reader)
}

// The sessions at the end of the input, which is at this place.
fn finish(reader: Reader, end: u64) -> Result<Items<RawSession>, TextFail>
    ensures { Comes result (ended end (file_of reader)) }
{
    match reader.finish() {
        Ok(sessions) => Ok(sessions),
        Err(StepFail::Bad) => Err(TextFail::Bad { at: end }),
        Err(StepFail::NoMemory) => Err(TextFail::NoMemory),
    }
}

/// The sessions that the bytes are, or the first refusal.
pub fn sessions(alloc: Global, bytes: &[u8]) -> Result<Items<RawSession>, TextFail>
    ensures { Comes result (outcome (length bytes.now) nothing_read (record { sessions = 0; goals = 0 }) (tokens_of bytes.now)) }
{
    let mut lexer = Lexer::new(bytes);
    let mut reader = Reader::new(alloc);
    let mut counters = Counters {
        sessions: 0,
        goals: 0,
    };
    while let Some(token) = lexer.next_token(alloc)? {
        let more = begun_with(counters, &token.token);
        reader = take(alloc, reader, counters, token)?;
        counters = more;
    }
    finish(reader, bytes.len() as u64)
}
