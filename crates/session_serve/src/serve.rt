//! The answers to all goals.

ghost use Rattle.std.specs.Prelude.{◌≡◌, [], IfOk, IfErr};
ghost use Rattle.std.specs.List.{AllByRecursion};
ghost use Rattle.goal_sort.specs.Sorting.{IsReadable};
ghost use Rattle.goal_text.specs.GoalsRead.{AreReadable};
ghost use Rattle.session_serve.specs.Serving.{IsServed, MeetGoals, MeetSessions};

use crate::served::{Caches, Served, Unserved};
use goal_serve::{Answer, answer};
use goal_text::{RawGoal, RawSession, SortFail, sorts};
use mm_io::{Disk, Gate};
use sqlite_items::Items;
use std::alloc::{AllocError, Global};
use std::thread::Threads;

// The goal is this one of its session.
fn serve_goal<R: Threads + Sync>(
    rt: &R,
    alloc: Global,
    raw: &RawGoal,
    number: u32,
    turns: u32,
) -> Result<Answer, AllocError>
    requires { IsReadable raw.now }
    ensures { IfOk result (λ answer. IsServed turns raw.now answer) }
{
    match sorts(alloc, raw) {
        Ok(goal) => answer(rt, alloc, &goal, number, turns),
        Err(SortFail::IllSorted { at }) => Ok(Answer::IllSorted { at }),
        Err(SortFail::NoMemory) => Err(AllocError),
    }
}

// The session is this one of the file.
fn serve_session<R: Threads + Sync, G: Gate + Sync>(
    rt: &R,
    alloc: Global,
    goals: &[RawGoal],
    session: u32,
    turns: u32,
    gate: &G,
) -> Result<Items<Answer>, AllocError>
    requires { AllByRecursion IsReadable goals.now }
    ensures { IfOk result (λ answers. MeetGoals turns goals.now answers) }
{
    if goals.len() > u32::MAX as usize {
        return Err(AllocError);
    }
    let mut answers = Vec::with_capacity(alloc, goals.len())?;
    for number in 0..goals.len() {
        gate.pass(session, number as u32);
        answers.push(serve_goal(rt, alloc, &goals[number], number as u32, turns)?)?;
    }
    Ok(Items::from_vec(answers))
}

fn serve_sessions<R: Threads + Sync, G: Gate + Sync>(
    rt: &R,
    alloc: Global,
    sessions: &[RawSession],
    turns: u32,
    gate: &G,
) -> Result<Items<Items<Answer>>, AllocError>
    requires { AreReadable sessions.now }
    ensures { IfOk result (λ answers. MeetSessions turns sessions.now answers) }
{
    if sessions.len() > u32::MAX as usize {
        return Err(AllocError);
    }
    let mut answers = Vec::with_capacity(alloc, sessions.len())?;
    for number in 0..sessions.len() {
        answers.push(serve_session(
            rt,
            alloc,
            sessions[number].goals.as_slice(),
            number as u32,
            turns,
            gate,
        )?)?;
    }
    Ok(Items::from_vec(answers))
}

/// The answers to all goals, session after session, each in its number of turns. The gate is passed before each goal.
///
/// `Err` where there is no memory; that is also the answer where there are 2^32 sessions or more, or as many goals in
/// one. The disks are given back as they were handed in.
pub fn serve_all<R: Threads + Sync, D: Disk + Send, G: Gate + Sync>(
    rt: &R,
    alloc: Global,
    sessions: &[RawSession],
    caches: Caches<D>,
    turns: u32,
    gate: &G,
) -> Result<Served<D>, Unserved<D>>
    requires { AreReadable sessions.now }
    ensures meet { IfOk result (λ served. MeetSessions turns sessions.now served.answers) }
    ensures caches { IfOk result (λ served. served.caches ≡ caches) }
    ensures returned { IfErr result (λ unserved. unserved.caches ≡ caches) }
{
    match serve_sessions(rt, alloc, sessions, turns, gate) {
        Ok(answers) => Ok(Served { answers, caches }),
        Err(_) => Err(Unserved { caches }),
    }
}
