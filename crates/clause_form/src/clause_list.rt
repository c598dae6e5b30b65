ghost use Rattle.std.specs.Prelude.{◌≡◌, ◌<◌, ◌≤◌, ◌↔◌, ◌⊎◌, ◌^◌, length, All, IfOk, IfErr, IsErrOf, OnOk};
ghost use Rattle.zify.specs.Measure.{IsWithinLimits};
ghost use Rattle.clause_form.specs.declared.named.Named.{Named as ANamed};
ghost use Rattle.clause_form.specs.Clauses.{named, clauses_of, number_of};
ghost use Rattle.clause_form.specs.machine.Walk.{walk_all};

use crate::fail::ClauseFail;
use crate::named::Named;
use crate::naming::named;
use crate::plan::{Part, parts_of};
use crate::tally::count_clauses;
use crate::walk::append_all;
use std::alloc::{AllocError, Global};
use zify::ZGoal;

/// How many clauses a goal may have.
pub const CLAUSE_LIMIT: u64 = 4096;

/// The clauses of a goal: one for each alternative of the hypotheses and of the negated body, in order.
///
/// `Splits` where there are more than 4,096, with their number; that is counted before anything is made.
pub fn clauses(alloc: Global, goal: &ZGoal) -> Result<Vec<Named>, ClauseFail>
    requires { IsWithinLimits goal.now }
    ensures list { IfOk result (λ list. list.items ≡ clauses_of goal.now) }
    // Each has fewer than 2^32 rows, so it has a key. Where one had more, the answer is want of memory.
    ensures short { IfOk result (λ list. All (λ (n : ANamed). length n.clause.rows < 2 ^ 32) list.items) }
    ensures few { OnOk result (length (clauses_of goal.now) ≤ 4096) }
    ensures splits { IsErrOf result (ClauseFail.Splits (number_of goal.now)) ↔ (4096 < length (clauses_of goal.now)) }
    ensures refusals { IfErr result (λ e. (e ≡ ClauseFail.Splits (number_of goal.now)) ⊎ (e ≡ ClauseFail.NoMemory)) }
{
    let number = count_clauses(goal);
    if number > CLAUSE_LIMIT {
        return Err(ClauseFail::Splits(number));
    }
    Ok(all_named(alloc, goal, number)?)
}

// So many clauses, each made by itself.
fn all_named(alloc: Global, goal: &ZGoal, number: u64) -> Result<Vec<Named>, AllocError>
    requires limits { IsWithinLimits goal.now }
    requires number { number ≡ length (clauses_of goal.now) }
    requires few { number ≤ 4096 }
    ensures list { IfOk result (λ list. list.items ≡ clauses_of goal.now) }
    ensures short { IfOk result (λ list. All (λ (n : ANamed). length n.clause.rows < 2 ^ 32) list.items) }
{
    let mut list = Vec::with_capacity(alloc, number as usize)?;
    if number == 0 {
        return Ok(list);
    }
    let parts = parts_of(alloc, goal)?;
    let mut table = Vec::new(alloc);
    for place in 0..number {
        list.push(named_at(alloc, &parts, place, &mut table)?)?;
    }
    Ok(list)
}

// The clause of the alternative at a place.
fn named_at(
    alloc: Global,
    parts: &[Part],
    place: u64,
    table: &mut Vec<u32>,
) -> Result<Named, AllocError>
    ensures made { IfOk result (λ n. n ≡ named (walk_all parts.now place)) }
    ensures short { IfOk result (λ n. length n.clause.rows < 2 ^ 32) }
{
    let mut rows = Vec::new(alloc);
    append_all(parts, place, &mut rows)?;
    named(alloc, &rows, table)
}
