ghost use Rattle.std.specs.Prelude.{◌≡◌, ◌≤◌, ◌<◌, ◌^◌, ℕ, suc, true, length, Result, List, [], IfOk};
ghost use Rattle.cert_kit.specs.declared.row.PRow.{PRow as ARow};
ghost use Rattle.fm_elim.specs.declared.rule.Rule.TheVariants.{Finished as IsFinished, Solve as IsSolve, Halve as IsHalve, Exact as IsExact, Inexact as IsInexact};
ghost use Rattle.fm_elim.specs.Tidy.{End, tidied};
ghost use Rattle.fm_elim.specs.Steps.{rule_of};
ghost use Rattle.fm_elim.specs.Elimination.{Outcome, greatest_norm, next, outcome_in, enough_steps, outcome};
ghost use Rattle.fm_elim.specs.machine.Sides.{sides_of};
ghost use Rattle.fm_elim.specs.machine.Tidying.{rows_of, AreStanding, StandsTidy, StepsTo};
ghost use Rattle.std.specs.List.{AllByRecursion};
ghost use Rattle.cert_kit.specs.declared.row.Op.TheVariants.{Ge as IsInequal};
ghost use Rattle.fm_elim.specs.declared.log.Log.{Log as ALog};
ghost use Rattle.fm_elim.specs.machine.Logging.{IsLogged, LogsStep, all_rows};
ghost use Rattle.fm_elim.specs.machine.Logged.{LogsRan, LogsNext};
ghost use Rattle.fm_elim.specs.machine.Running.{wrapped, IsRunning, IsRuling, IsRan, IsNext, NextStands};

use crate::choice::next_rule;
use crate::kept::Kept;
use crate::live::Live;
use crate::log::Log;
use crate::removal::Removal;
use crate::rule::Rule;
use crate::sides::{Side, split};
use crate::source::Combination;
use crate::standing::{eliminate, halve};
use crate::state::{Next, Ran, State};
use crate::step::solve;
use crate::stepped::Stepped;
use cert_kit::PRow;
use mm_poly::Mono;
use sqlite_items::Items;
use std::alloc::{AllocError, Global};

/// The outcome of the elimination of rows.
pub fn run(alloc: Global, log: &mut Log<'_>, rows: &[PRow]) -> Result<Ran, AllocError>
    requires length { length rows.now < 2 ^ 32 }
    requires logged { IsLogged log.old [] }
    requires fresh { all_rows log.old ≡ rows.now }
    ensures ran { IfOk result (λ r. IsRan r (outcome rows.now)) }
    ensures logged { IfOk result (λ r. LogsRan r log.old log.new) }
{
    match tidy_rows(alloc, log, rows)? {
        Stepped::Rows(kept) => {
            let ran = run_from(alloc, log, kept)?;
            Ok(ran)
        }
        Stepped::Contra => Ok(Ran::Contra),
        Stepped::Over => Ok(Ran::Over),
    }
}

// The rows tidied.
fn tidy_rows(alloc: Global, log: &mut Log<'_>, rows: &[PRow]) -> Result<Stepped, AllocError>
    requires length { length rows.now < 2 ^ 32 }
    requires logged { IsLogged log.old [] }
    requires fresh { all_rows log.old ≡ rows.now }
    ensures rows { IfOk result (λ s. StepsTo s (tidied rows.now)) }
    ensures logged { IfOk result (λ s. LogsStep s log.old log.new) }
{
    let mut kept = Kept::new(alloc);
    for (n, row) in rows.iter().enumerate() {
        let _ = row.poly.spread();
        if kept.take(alloc, log, row.copy(alloc)?, Combination::Given(n as u32))? {
            return Ok(Stepped::Contra);
        }
    }
    Ok(kept.end())
}

// The outcome of tidy rows.
fn run_from(alloc: Global, log: &mut Log<'_>, rows: Vec<Live>) -> Result<Ran, AllocError>
    requires tidy { AreStanding (rows_of rows.items) }
    requires logged { IsLogged log.old rows.items }
    ensures logged { IfOk result (λ r. LogsRan r log.old log.new) }
    ensures ran { IfOk result (λ r. IsRan r (outcome_in (enough_steps (rows_of rows.items)) true (rows_of rows.items))) }
{
    let mut left = count_steps(&rows);
    let mut state = State {
        rows,
        exact: true,
        removed: Vec::new(alloc),
        norm: 0,
    };
    while left > 0 {
        left -= 1;
        match step(alloc, log, state)? {
            Next::Going(next) => state = next,
            Next::Ended(ran) => return Ok(ran),
        }
    }
    Ok(Ran::Over)
}

// More steps than are needed: one for each term and each row, and one.
fn count_steps(rows: &[Live]) -> usize
    requires { length rows.now ≤ 512 }
    ensures { result ≡ enough_steps (rows_of rows.now) }
{
    let mut total = 1;
    for live in rows {
        total += live.row.poly.spread() as usize + 1;
    }
    total
}

// The greatest norm of the rows.
fn greatest_norm(rows: &[Live]) -> u128
    ensures { result ≡ greatest_norm (rows_of rows.now) }
{
    let mut greatest = 0;
    for live in rows {
        greatest = greatest.max(live.row.poly.norm() as u128);
    }
    greatest
}

// What comes after the rule that applies.
fn step(alloc: Global, log: &mut Log<'_>, state: State) -> Result<Next, AllocError>
    requires logged { IsLogged log.old state.rows.items }
    requires tidy { AreStanding (rows_of state.rows.items) }
    ensures tidy { IfOk result NextStands }
    ensures next { IfOk result (λ x. (n : ℕ) (whole : Outcome) → IsRunning whole (suc n) state → IsNext x n whole) }
    ensures logged { IfOk result (λ x. LogsNext x log.old log.new) }
{
    let norm = state.norm.max(greatest_norm(&state.rows));
    let state = State {
        rows: state.rows,
        exact: state.exact,
        removed: state.removed,
        norm,
    };
    let rule = next_rule(alloc, &state.rows)?;
    let after = step_by(alloc, log, state, rule)?;
    Ok(after)
}

fn step_by(alloc: Global, log: &mut Log<'_>, state: State, rule: Rule) -> Result<Next, AllocError>
    requires rule { rule ≡ rule_of (rows_of state.rows.items) }
    requires logged { IsLogged log.old state.rows.items }
    requires tidy { AreStanding (rows_of state.rows.items) }
    ensures tidy { IfOk result NextStands }
    ensures next { IfOk result (λ x. (n : ℕ) (whole : Outcome) → IsRuling whole n state rule → IsNext x n whole) }
    ensures logged { IfOk result (λ x. LogsNext x log.old log.new) }
{
    match rule {
        Rule::Finished => Ok(Next::Ended(finish(state))),
        Rule::Solve(place, unknown) => step_solve(alloc, log, state, place, unknown),
        Rule::Halve(place) => step_halve(alloc, log, state, place),
        Rule::Exact(unknown) => step_exact(alloc, log, state, unknown),
        Rule::Inexact(unknown) => step_inexact(alloc, log, state, unknown),
    }
}

fn finish(state: State) -> Ran
    ensures ran { (n : ℕ) (whole : Outcome) → IsRuling whole n state IsFinished → IsRan result whole }
    ensures logged { (before after : ALog) → LogsRan result before after }
{
    if state.exact {
        Ran::Point(state.removed, state.norm)
    } else {
        Ran::Grey
    }
}

// Goes on with the rows after a step.
fn go_on(stepped: Stepped, exact: bool, removed: Vec<Removal>, norm: u128) -> Next
    ensures next { (n : ℕ) (answer : Result (List ARow) End) (whole : Outcome) → StepsTo stepped answer
        → whole ≡ wrapped removed.items norm (next (outcome_in n exact) answer) → IsNext result n whole }
    ensures logged { (before after : ALog) → LogsStep stepped before after → LogsNext result before after }
    ensures tidy { StandsTidy stepped → NextStands result }
{
    match stepped {
        Stepped::Rows(rows) => Next::Going(State {
            rows,
            exact,
            removed,
            norm,
        }),
        Stepped::Contra => Next::Ended(Ran::Contra),
        Stepped::Over => Next::Ended(Ran::Over),
    }
}

fn step_solve(
    alloc: Global,
    log: &mut Log<'_>,
    state: State,
    place: usize,
    unknown: Mono,
) -> Result<Next, AllocError>
    requires rule { rule_of (rows_of state.rows.items) ≡ IsSolve place unknown }
    requires logged { IsLogged log.old state.rows.items }
    ensures logged { IfOk result (λ x. LogsNext x log.old log.new) }
    ensures tidy { IfOk result NextStands }
    ensures next { IfOk result (λ x. (n : ℕ) (whole : Outcome) → IsRuling whole n state (IsSolve place unknown) → IsNext x n whole) }
{
    let mut rows = state.rows;
    let equality = rows.remove(place);
    let _ = equality.row.poly.spread();
    let stepped = solve(alloc, log, rows, &equality, &unknown)?;
    let mut removed = state.removed;
    removed.push(Removal::Solved(unknown, equality.row.poly))?;
    Ok(go_on(stepped, state.exact, removed, state.norm))
}

fn step_halve(
    alloc: Global,
    log: &mut Log<'_>,
    state: State,
    place: usize,
) -> Result<Next, AllocError>
    requires rule { rule_of (rows_of state.rows.items) ≡ IsHalve place }
    requires logged { IsLogged log.old state.rows.items }
    ensures logged { IfOk result (λ x. LogsNext x log.old log.new) }
    ensures tidy { IfOk result NextStands }
    ensures next { IfOk result (λ x. (n : ℕ) (whole : Outcome) → IsRuling whole n state (IsHalve place) → IsNext x n whole) }
{
    let stepped = halve(alloc, log, state.rows, place)?;
    Ok(go_on(stepped, state.exact, state.removed, state.norm))
}

fn step_exact(
    alloc: Global,
    log: &mut Log<'_>,
    state: State,
    unknown: Mono,
) -> Result<Next, AllocError>
    requires inequalities { AllByRecursion (λ (r : ARow). r.op ≡ IsInequal) (rows_of state.rows.items) }
    requires tidy { AreStanding (rows_of state.rows.items) }
    requires logged { IsLogged log.old state.rows.items }
    ensures logged { IfOk result (λ x. LogsNext x log.old log.new) }
    ensures tidy { IfOk result NextStands }
    ensures next { IfOk result (λ x. (n : ℕ) (whole : Outcome) → IsRuling whole n state (IsExact unknown) → IsNext x n whole) }
{
    let parts = split(alloc, state.rows, &unknown)?;
    let stepped = eliminate(
        alloc,
        log,
        parts.without,
        &parts.lowers,
        &parts.uppers,
        &unknown,
    )?;
    let lowers = rows_of_sides(alloc, parts.lowers)?;
    let uppers = rows_of_sides(alloc, parts.uppers)?;
    let mut removed = state.removed;
    removed.push(Removal::Bounded(unknown, lowers, uppers))?;
    Ok(go_on(stepped, state.exact, removed, state.norm))
}

fn step_inexact(
    alloc: Global,
    log: &mut Log<'_>,
    state: State,
    unknown: Mono,
) -> Result<Next, AllocError>
    requires inequalities { AllByRecursion (λ (r : ARow). r.op ≡ IsInequal) (rows_of state.rows.items) }
    requires tidy { AreStanding (rows_of state.rows.items) }
    requires logged { IsLogged log.old state.rows.items }
    ensures logged { IfOk result (λ x. LogsNext x log.old log.new) }
    ensures tidy { IfOk result NextStands }
    ensures next { IfOk result (λ x. (n : ℕ) (whole : Outcome) → IsRuling whole n state (IsInexact unknown) → IsNext x n whole) }
{
    let parts = split(alloc, state.rows, &unknown)?;
    let stepped = eliminate(
        alloc,
        log,
        parts.without,
        &parts.lowers,
        &parts.uppers,
        &unknown,
    )?;
    Ok(go_on(stepped, false, state.removed, state.norm))
}

fn rows_of_sides(alloc: Global, sides: Vec<Side>) -> Result<Items<PRow>, AllocError>
    ensures { IfOk result (λ rows. rows ≡ sides_of sides.items) }
{
    let mut rows = Vec::with_capacity(alloc, sides.len())?;
    for side in sides {
        rows.push(side.live.row)?;
    }
    Ok(Items::from_vec(rows))
}
