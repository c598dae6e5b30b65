//! Reading a file token by token.

ghost use Rattle.std.specs.Prelude.{◌≡◌, ◌<◌, ◌^◌, ◌-◌, IfSome};
ghost use Rattle.goal_text.specs.Counts.{part_count, binding_count, body_between, bound_between, body_in, bound_in, body_count, bound_count};
ghost use Rattle.goal_text.specs.Giving.{Gives};
ghost use Rattle.goal_text.specs.Steps.{nothing_read, file_with, file_of};
ghost use Rattle.std.specs.Prelude.{length};

use crate::fail::StepFail;
use crate::raw::{RawBound, RawSession};
use crate::session::{ends_within, in_file};
use crate::state::{Between, Part, State};
use goal_token::Placed;
use sqlite_items::Items;
use std::alloc::Global;
use std::marker::Model;

/// A file that is being read: the sessions that are whole, and where reading stands.
#[derive(Debug, Drop)]
pub struct Reader {
    done: Items<RawSession>,
    state: State,
}

impl Model for Reader {
    ghost use Rattle.std.specs.Coded.{codes};
    ghost use Rattle.goal_sort.specs.contracts.raw.RawSession as session;
    ghost use Rattle.goal_text.specs.contracts.state.State as standing;
    ghost use Rattle.goal_text.specs.Steps.{FileRead};

    ghost Value = { FileRead };

    ghost coded = { Prim.hlevel (codes, session.the_row.coded, standing.the_row.coded) };

    ghost view = { λ r. (r.done, r.state) };
}

// The tokens of the body so far.
fn part_count(part: &Part) -> Option<u32>
    ensures { result ≡ part_count part.now }
{
    match part {
        Part::Body(_, count) => Some(*count),
        _ => None,
    }
}

fn body_in(state: &State) -> Option<u32>
    ensures { result ≡ body_in state.now }
{
    match state {
        State::Within(_, Between::Goal(_, _, part)) => part_count(part),
        _ => None,
    }
}

// The names bound so far, where another may come.
fn binding_count(bound: &[RawBound], part: &Part) -> Option<usize>
    ensures { result ≡ binding_count (length bound.now) part.now }
{
    match part {
        Part::Binders => Some(bound.len()),
        Part::Bare(names) | Part::Grouped(names) => Some(bound.len() + names.as_slice().len()),
        _ => None,
    }
}

fn bound_in(state: &State) -> Option<usize>
    ensures { result ≡ bound_in state.now }
{
    match state {
        State::Within(_, Between::Goal(_, bound, part)) => binding_count(bound.as_slice(), part),
        _ => None,
    }
}

impl Reader {
    /// Nothing was read.
    pub fn new(alloc: Global) -> Reader
        ensures { result ≡ nothing_read }
    {
        Reader {
            done: Items::new(alloc),
            state: State::Start,
        }
    }

    /// How many tokens the body has so far, where reading stands in one.
    pub fn body_tokens(&self) -> Option<u32>
        ensures { result ≡ body_count self.now }
    {
        body_in(&self.state)
    }

    /// How many names the goal has bound so far, where another may come.
    pub fn bound_names(&self) -> Option<usize>
        ensures { result ≡ bound_count self.now }
    {
        bound_in(&self.state)
    }

    /// Reads one more token, where it may stand. After a failure the file is of no use.
    pub fn step(self, alloc: Global, token: Placed) -> Result<Reader, StepFail>
        requires { IfSome (body_count self) (λ n. n < 2 ^ 32 - 1) }
        ensures { Gives result (file_with self token) }
    {
        let Reader { done, state } = self;
        let (done, state) = in_file(alloc, done, state, token)?;
        Ok(Reader { done, state })
    }

    /// The sessions, where the file may end here.
    pub fn finish(self) -> Result<Items<RawSession>, StepFail>
        ensures { Gives result (file_of self) }
    {
        let Reader { done, state } = self;
        match state {
            State::Start => Ok(done),
            State::Name | State::NameEnd(_) => Err(StepFail::Bad),
            State::Within(within, between) => ends_within(done, within, between),
        }
    }
}
