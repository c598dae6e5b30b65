ghost use Rattle.std.specs.Prelude.{◌≡◌, ◌≤◌, ◌<◌, ◌^◌, ℕ, List, length, All, IfOk};
ghost use Rattle.std.specs.List.{AllByRecursion};
ghost use Rattle.goal_ast.specs.declared.goal.Goal.{Goal as Question};
ghost use Rattle.goal_ast.specs.Range.{IsInRange};
ghost use Rattle.goal_ast.specs.Sorted.{IsWellFormed};
ghost use Rattle.zify.specs.Translation.{translated};
ghost use Rattle.clause_form.specs.declared.named.Named.{Named as ANamed};
ghost use Rattle.clause_form.specs.Clauses.{clauses_of};
ghost use Rattle.box_enum.specs.Cube.{cube_of};
ghost use Rattle.goal_serve.specs.Answering.{Refutes, IsWitnessed, MayStay, MeetsTests};
ghost use Rattle.goal_serve.specs.machine.Trying.{IsClauseOf, IsReached, IsJudged, IsTried, IsNext, GoesOn};

use crate::answers::{Answer, Origin, Shown};
use crate::placing::placed;
use box_enum::cube;
use clause_engine::{Outcome, Why, prove_clause};
use clause_form::Named;
use goal_ast::{Assignment, Eval, Goal, eval};
use sqlite_items::Items;
use std::alloc::{AllocError, Global};
use std::thread::Threads;

/// What comes of a clause of a goal.
#[derive(Drop)]
pub enum Reached {
    Shown(Shown),
    Refuted(Assignment),
    Stays(Why),
}

/// What is known of the clauses so far: each has a certificate, or which is the first that hasn't.
#[derive(Drop)]
pub enum Tried {
    All(Vec<Shown>),
    Stays(u32, Why),
}

/// What comes of one more clause: the clauses go on, or the goal is refuted.
#[derive(Drop)]
pub enum Next {
    Go(Tried),
    Refuted(Assignment),
}

// The answer to a goal within the limits, by its clauses in order, and by the cube as soon as one has no certificate.
//
// A goal whose clauses all have certificates is valid, so its cube isn't searched.
pub(crate) fn answer_by<R: Threads + Sync>(
    rt: &R,
    alloc: Global,
    goal: &Goal,
    list: Vec<Named>,
    turns: u32,
) -> Result<Answer, AllocError>
    requires formed { IsWellFormed goal.now }
    requires list { list.items ≡ clauses_of (translated goal.now) }
    requires short { All (λ (n : ANamed). length n.clause.rows < 2 ^ 32) list.items }
    requires few { length list.items ≤ 4096 }
    ensures { IfOk result (MeetsTests (cube_of goal.now) goal.now turns (clauses_of (translated goal.now))) }
{
    let mut number = 0;
    let mut tried = Tried::All(Vec::with_capacity(alloc, list.len())?);
    for named in list {
        let reached = reach(rt, alloc, goal, named, turns)?;
        tried = match go_on(alloc, goal, tried, number, reached)? {
            Next::Go(tried) => tried,
            Next::Refuted(a) => return Ok(Answer::Refuted(a)),
        };
        number += 1;
    }
    Ok(answer_of(tried))
}

// The clauses that were tried, and one more.
fn go_on(
    alloc: Global,
    goal: &Goal,
    tried: Tried,
    number: u32,
    reached: Reached,
) -> Result<Next, AllocError>
    requires { IsWellFormed goal.now }
    ensures { IfOk result (GoesOn goal.now tried number reached) }
{
    match tried {
        Tried::All(shown) => after_all(alloc, goal, shown, number, reached),
        Tried::Stays(clause, why) => Ok(after_stay(goal, clause, why, number, reached)),
    }
}

// One more clause where all before it have certificates.
fn after_all(
    alloc: Global,
    goal: &Goal,
    mut shown: Vec<Shown>,
    number: u32,
    reached: Reached,
) -> Result<Next, AllocError>
    requires { IsWellFormed goal.now }
    ensures { IfOk result (GoesOn goal.now (Tried.All shown) number reached) }
{
    match reached {
        Reached::Shown(one) => {
            shown.push(one)?;
            Ok(Next::Go(Tried::All(shown)))
        }
        Reached::Refuted(a) => {
            let next = refuted(alloc, goal, a)?;
            Ok(next)
        }
        Reached::Stays(why) => {
            let next = stays(alloc, goal, number, why)?;
            Ok(next)
        }
    }
}

// The first clause that has no certificate has a point at which the goal is false.
fn refuted(alloc: Global, goal: &Goal, a: Assignment) -> Result<Next, AllocError>
    requires { IsWellFormed goal.now }
    ensures { IfOk result (λ next. (turns : ℕ) (cs : List ANamed) (n : ANamed) → Refutes goal.now a → IsNext goal.now turns cs n next) }
{
    match cube(alloc, goal)? {
        Some(first) => Ok(Next::Refuted(first)),
        None => Ok(Next::Refuted(a)),
    }
}

// The first clause that has no certificate stays.
fn stays(alloc: Global, goal: &Goal, number: u32, why: Why) -> Result<Next, AllocError>
    requires { IsWellFormed goal.now }
    ensures { IfOk result (λ next. (turns : ℕ) (cs : List ANamed) (n : ANamed) → number ≡ length cs → (IsWitnessed goal.now turns n → ⊥) → MayStay goal.now turns n why → IsNext goal.now turns cs n next) }
{
    match cube(alloc, goal)? {
        Some(first) => Ok(Next::Refuted(first)),
        None => Ok(Next::Go(Tried::Stays(number, why))),
    }
}

// One more clause where one before it stays, and the cube doesn't hold.
fn after_stay(goal: &Goal, clause: u32, why: Why, number: u32, reached: Reached) -> Next
    ensures { GoesOn goal.now (Tried.Stays clause why) number reached result }
{
    let _ = goal;
    let _ = number;
    match reached {
        Reached::Shown(_) => Next::Go(Tried::Stays(clause, why)),
        Reached::Refuted(a) => Next::Refuted(a),
        Reached::Stays(_) => Next::Go(Tried::Stays(clause, why)),
    }
}

fn answer_of(tried: Tried) -> Answer
    ensures { (goal : Question) (turns : ℕ) → IsWellFormed goal → IsTried goal turns (clauses_of (translated goal)) tried → AllByRecursion (λ n. IsWitnessed goal turns n → ⊥) (clauses_of (translated goal))
        → MeetsTests (cube_of goal) goal turns (clauses_of (translated goal)) result }
{
    match tried {
        Tried::All(all) => Answer::Proved(Items::from_vec(all)),
        Tried::Stays(clause, why) => Answer::Unsettled { clause, why },
    }
}

// A certificate, or a point at which the goal is false, or why neither.
fn reach<R: Threads + Sync>(
    rt: &R,
    alloc: Global,
    goal: &Goal,
    named: Named,
    turns: u32,
) -> Result<Reached, AllocError>
    requires formed { IsWellFormed goal.now }
    requires clause { IsClauseOf goal.now named }
    ensures { IfOk result (IsReached goal.now turns named) }
{
    match prove_clause(rt, alloc, &named.clause, goal.mode, turns)? {
        Outcome::Cert(cert) => Ok(Reached::Shown(Shown {
            clause: named.clause,
            origin: Origin::New,
            cert,
        })),
        Outcome::Point(values, why) => {
            let a = placed(
                alloc,
                goal.vars.len(),
                named.vars.as_slice(),
                values.as_slice(),
            )?;
            Ok(at_point(goal, a, why))
        }
        Outcome::Unsettled(why) => Ok(Reached::Stays(why)),
    }
}

// The goal is refuted where its body is false at the assignment, and else the clause stays.
fn at_point(goal: &Goal, a: Assignment, why: Why) -> Reached
    requires formed { IsWellFormed goal.now }
    requires in_range { IsInRange goal.now a }
    ensures { IsJudged goal.now a why result }
{
    match eval(goal, &a) {
        Eval::False => Reached::Refuted(a),
        Eval::True | Eval::Big => Reached::Stays(why),
    }
}
