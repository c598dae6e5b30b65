ghost use Rattle.std.specs.Prelude.{◌≡◌, ◌≤◌, ◌<◌, ◌^◌, ℕ, length, IfOk};
ghost use Rattle.mm_poly.specs.Point.{point_of};
ghost use Rattle.cert_kit.specs.Row.{Solves};
ghost use Rattle.cert_kit.specs.Acceptance.{IsGood};
ghost use Rattle.cert_kit.specs.Depth.{cert_depth, MakesCert};
ghost use Rattle.cert_kit.specs.Variables.{variables_of};
ghost use Rattle.mm_num.specs.Small.{IsSmall};
ghost use Rattle.std.specs.List.{AllByRecursion};
ghost use Rattle.box_enum.specs.Box.{IsBoxed};
ghost use Rattle.clause_engine.specs.Settled.{IsNumbered, IsSettled, HasPoint, clause_point, WhyOf, IsReason, IsPromised};
ghost use Rattle.clause_engine.specs.Outcome.{IfCert, IfPoint, IfUnsettled};
ghost use Rattle.clause_engine.specs.machine.Deciding.{IsRefuted, IsLeft, Tests, Decides};

use crate::linear::{are_linear, are_rows};
use crate::outcome::{Outcome, Why};
use box_enum::{BoxEnd, boxed, settle};
use cert_kit::{Clause, PRow};
use fm_elim::{Elim, eliminate};
use goal_ast::Mode;
use integer_search::{Found, search};
use relaxation::{Relaxation, Relaxed, linear_unknowns, relax};
use sqlite_items::Items;
use std::alloc::{AllocError, Global};
use std::thread::Threads;

/// What comes of a clause in so many turns: a certificate, a point, or why neither.
///
/// The values of a point are those of the clause's variables, in their order. Where the elimination finds no contradiction,
/// the box comes before the elimination's point. A linear clause that all of these leave open goes to a simplex, which
/// refutes what has no rational solution, and else to a search of whole numbers.
pub fn prove_clause<R: Threads + Sync>(
    rt: &R,
    alloc: Global,
    clause: &Clause,
    mode: Mode,
    turns: u32,
) -> Result<Outcome, AllocError>
    requires rows { length clause.now.rows < 2 ^ 32 }
    requires numbered { IsNumbered clause.now.rows }
    ensures good { IfOk result (IfCert (IsGood clause.now.rows)) }
    ensures makes { IfOk result (IfCert (λ c. MakesCert c.steps c.close)) }
    ensures shallow { IfOk result (IfCert (λ c. cert_depth c ≤ 4000)) }
    ensures pointless { IfOk result (IfCert (λ c. HasPoint mode turns clause.now.rows → ⊥)) }
    ensures one_each { IfOk result (IfPoint (λ values why. length values ≡ length (variables_of clause.now.rows))) }
    ensures values { IfOk result (IfPoint (λ values why. HasPoint mode turns clause.now.rows → (v : ℕ) → v < length values → point_of values v ≡ clause_point mode turns clause.now.rows v)) }
    ensures small { IfOk result (IfPoint (λ values why. AllByRecursion IsSmall values)) }
    ensures solves { IfOk result (IfPoint (λ values why. Solves (point_of values) clause.now.rows)) }
    ensures reason { IfOk result (IfPoint (λ values why. IsReason mode turns clause.now.rows why)) }
    ensures unsettled { IfOk result (IfUnsettled (λ why. IsSettled mode turns clause.now.rows → ⊥)) }
    ensures why { IfOk result (IfUnsettled (WhyOf mode turns clause.now.rows)) }
    ensures promised { IfOk result (IfUnsettled (λ why. IsPromised turns clause.now.rows → ⊥)) }
{
    let _ = rt;
    decided(alloc, clause, mode, turns)
}

fn decided(alloc: Global, clause: &Clause, mode: Mode, turns: u32) -> Result<Outcome, AllocError>
    requires rows { length clause.now.rows < 2 ^ 32 }
    requires numbered { IsNumbered clause.now.rows }
    ensures { IfOk result (Decides mode turns clause.now.rows) }
{
    let rows = clause.rows.as_slice();
    match tested(alloc, rows, mode, turns)? {
        Outcome::Unsettled(why) => relaxed(alloc, clause, mode, turns, why),
        Outcome::Cert(cert) => Ok(Outcome::Cert(cert)),
        Outcome::Point(values, why) => Ok(Outcome::Point(values, why)),
    }
}

// What the tests say: the elimination, and then the box.
fn tested(alloc: Global, rows: &[PRow], mode: Mode, turns: u32) -> Result<Outcome, AllocError>
    requires rows { length rows.now < 2 ^ 32 }
    requires numbered { IsNumbered rows.now }
    ensures { IfOk result (Tests mode turns rows.now) }
{
    match eliminated(alloc, rows, mode, turns)? {
        Outcome::Cert(cert) => Ok(Outcome::Cert(cert)),
        left => enumerated(alloc, rows, mode, turns, left),
    }
}

// What the elimination says: a certificate, or what comes of a clause that isn't boxed.
fn eliminated(alloc: Global, rows: &[PRow], mode: Mode, turns: u32) -> Result<Outcome, AllocError>
    requires rows { length rows.now < 2 ^ 32 }
    requires numbered { IsNumbered rows.now }
    ensures refuted { IfOk result (IfCert (IsRefuted mode turns rows.now)) }
    ensures unboxed { IfOk result (λ o. (IsBoxed turns rows.now → ⊥) → Tests mode turns rows.now o) }
{
    let _ = mode;
    let _ = turns;
    are_rows(rows);
    match eliminate(alloc, rows)? {
        Elim::Contra(cert) => Ok(Outcome::Cert(cert)),
        Elim::Point(values) => {
            if are_linear(rows) {
                Ok(Outcome::Point(Items::from_vec(values), Why::Over))
            } else {
                Ok(Outcome::Unsettled(Why::Grey))
            }
        }
        Elim::Grey => Ok(Outcome::Unsettled(Why::Grey)),
        Elim::Over => Ok(Outcome::Unsettled(Why::Over)),
    }
}

// What the box says, and what is left to say where the clause isn't boxed.
fn enumerated(
    alloc: Global,
    rows: &[PRow],
    mode: Mode,
    turns: u32,
    left: Outcome,
) -> Result<Outcome, AllocError>
    requires rows { length rows.now < 2 ^ 32 }
    requires numbered { IsNumbered rows.now }
    requires left { (IsBoxed turns rows.now → ⊥) → Tests mode turns rows.now left }
    ensures { IfOk result (Tests mode turns rows.now) }
{
    let _ = mode;
    let Some(bounds) = boxed(alloc, rows)? else {
        return Ok(left);
    };
    match settle(alloc, rows, &bounds, turns)? {
        BoxEnd::Cert(cert) => Ok(Outcome::Cert(cert)),
        BoxEnd::Point(values) => Ok(Outcome::Point(values, Why::Over)),
        BoxEnd::TooWide => Ok(left),
    }
}

// What comes of a clause that the tests leave open: where it is linear, a simplex refutes it, or a search decides it.
fn relaxed(
    alloc: Global,
    clause: &Clause,
    mode: Mode,
    turns: u32,
    why: Why,
) -> Result<Outcome, AllocError>
    requires rows { length clause.now.rows < 2 ^ 32 }
    requires left { IsLeft mode turns clause.now.rows why }
    ensures { IfOk result (Decides mode turns clause.now.rows) }
{
    let rows = clause.rows.as_slice();
    if !are_linear(rows) {
        return Ok(Outcome::Unsettled(why));
    }
    are_rows(rows);
    let unknowns = linear_unknowns(alloc, rows)?;
    let Relaxation { relaxed, left } = relax(alloc, rows, &unknowns, turns)?;
    let count = unknowns.len();
    match relaxed {
        Relaxed::Cert(cert) => Ok(Outcome::Cert(cert)),
        Relaxed::Point(_) => searched(alloc, clause, count, mode, turns, left, why),
        Relaxed::Open => searched(alloc, clause, count, mode, turns, left, why),
    }
}

// What a search by so many turns finds of a clause that has rational solutions, or whose relaxation is open.
fn searched(
    alloc: Global,
    clause: &Clause,
    count: usize,
    mode: Mode,
    turns: u32,
    left: u32,
    why: Why,
) -> Result<Outcome, AllocError>
    requires count { count ≡ length (variables_of clause.now.rows) }
    requires left { IsLeft mode turns clause.now.rows why }
    requires open { IsPromised turns clause.now.rows → ⊥ }
    ensures { IfOk result (Decides mode turns clause.now.rows) }
{
    let _ = mode;
    let _ = turns;
    match search(alloc, clause, count, left)? {
        Found::Cert(cert) => Ok(Outcome::Cert(cert)),
        Found::Point(values) => Ok(Outcome::Point(Items::from_vec(values), why)),
        Found::Nothing => Ok(Outcome::Unsettled(why)),
    }
}
