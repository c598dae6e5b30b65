//! The lines of a proved goal: clauses, their rows and their certificates.

ghost use Rattle.std.specs.Prelude.{◌≡◌, ◌+◌, ◌^◌, ◌<◌, ◌↔◌, slice_get, IsTrue, IfOk, IfSome};
ghost use Rattle.goal_ast.specs.Sorted.{IsWellFormed};
ghost use Rattle.goal_serve.specs.KeyName.{key_name};
ghost use Rattle.report_check.specs.machine.Judging.{AfterProved, AfterName, AfterOneRow, AfterCertificate, AfterClause, AfterRow, HasName, HasRow, HasCertificate, IsProvedBy};

use crate::judging::{Judged, Place};
use crate::plan::plan;
use cert_check::{Verdict, check};
use cert_kit::{Cert, Clause, PRow};
use clause_form::Named;
use goal_ast::Goal;
use goal_serve::key_name;
use report_text::Line;
use std::alloc::{AllocError, Global};

/// The line that tells how many clauses follow was read.
pub fn after_proved(
    alloc: Global,
    goal: &Option<Goal>,
    place: Place,
    count: u64,
) -> Result<Judged, AllocError>
    requires { IfSome goal.now IsWellFormed }
    ensures { IfOk result (AfterProved goal.now place count) }
{
    let Some(goal) = goal else {
        return Ok(Judged::Good);
    };
    match plan(alloc, goal, count)? {
        Some(plan) => Ok(Judged::Clauses { plan, clause: 0 }),
        None => Ok(Judged::Bad(place)),
    }
}

/// One more line was read where the clause of this number comes next.
pub fn after_clause(
    place: Place,
    plan: Vec<Named>,
    clause: usize,
    line: &Line,
) -> Result<Judged, AllocError>
    ensures { IfOk result (AfterClause place plan clause line.now) }
{
    match line {
        Line::Clause { name, .. } => named(place, plan, clause, name),
        _ => Ok(Judged::Good),
    }
}

fn named(
    place: Place,
    plan: Vec<Named>,
    clause: usize,
    name: &[u8; 16],
) -> Result<Judged, AllocError>
    ensures { IfOk result (AfterName place plan clause name.now) }
{
    if has_name(&plan, clause, name)? {
        let rows = 0;
        Ok(Judged::Rows { plan, clause, rows })
    } else {
        Ok(Judged::Bad(place))
    }
}

/// One more line was read after so many rows of a clause.
pub fn after_row(
    alloc: Global,
    place: Place,
    plan: Vec<Named>,
    clause: usize,
    rows: usize,
    line: &Line,
) -> Result<Judged, AllocError>
    ensures { IfOk result (AfterRow place plan clause rows line.now) }
{
    match line {
        Line::Row(row) => Ok(rowed(place, plan, clause, rows, row)),
        Line::Certificate(cert) => certified(alloc, place, plan, clause, rows, cert),
        _ => Ok(Judged::Good),
    }
}

fn rowed(place: Place, plan: Vec<Named>, clause: usize, rows: usize, row: &PRow) -> Judged
    ensures { AfterOneRow place plan clause rows row.now result }
{
    if has_row(&plan, clause, rows, row) {
        let rows = rows + 1;
        Judged::Rows { plan, clause, rows }
    } else {
        Judged::Bad(place)
    }
}

fn certified(
    alloc: Global,
    place: Place,
    plan: Vec<Named>,
    clause: usize,
    rows: usize,
    cert: &Cert,
) -> Result<Judged, AllocError>
    ensures { IfOk result (AfterCertificate place plan clause rows cert.now) }
{
    if has_certificate(alloc, &plan, clause, rows, cert)? {
        let clause = clause + 1;
        Ok(Judged::Clauses { plan, clause })
    } else {
        Ok(Judged::Bad(place))
    }
}

// Whether the clause of this number has a key of this name. `Err` where it has 2^32 rows or more, and so no key.
fn has_name(plan: &[Named], clause: usize, name: &[u8; 16]) -> Result<bool, AllocError>
    ensures { IfOk result (λ has. IsTrue has ↔ HasName plan.now clause name.now) }
{
    match plan.get(clause) {
        Some(named) => is_named(&named.clause, name),
        None => Ok(false),
    }
}

fn is_named(clause: &Clause, name: &[u8; 16]) -> Result<bool, AllocError>
    ensures { IfOk result (λ is. IsTrue is ↔ (name.now ≡ key_name clause.now)) }
{
    Ok(key_name(clause)? == *name)
}

// Whether the clause of this number has this row after so many others.
fn has_row(plan: &[Named], clause: usize, rows: usize, row: &PRow) -> bool
    ensures is { IsTrue result ↔ HasRow plan.now clause rows row.now }
    ensures room { IsTrue result → rows + 1 < 2 ^ 64 }
{
    match plan.get(clause) {
        Some(named) => is_row(named.clause.rows.as_slice(), rows, row),
        None => false,
    }
}

fn is_row(rows: &[PRow], place: usize, row: &PRow) -> bool
    ensures is { IsTrue result ↔ (slice_get rows.now place ≡ Some row.now) }
    ensures room { IsTrue result → place + 1 < 2 ^ 64 }
{
    place < rows.len() && rows[place].same(row)
}

// Whether the clause of this number has so many rows, and the rules accept the certificate over them.
fn has_certificate(
    alloc: Global,
    plan: &[Named],
    clause: usize,
    rows: usize,
    cert: &Cert,
) -> Result<bool, AllocError>
    ensures is { IfOk result (λ has. IsTrue has ↔ HasCertificate plan.now clause rows cert.now) }
    ensures room { IfOk result (λ has. IsTrue has → clause + 1 < 2 ^ 64) }
{
    match plan.get(clause) {
        Some(named) => proves(alloc, &named.clause, rows, cert),
        None => Ok(false),
    }
}

fn proves(alloc: Global, clause: &Clause, rows: usize, cert: &Cert) -> Result<bool, AllocError>
    ensures { IfOk result (λ proves. IsTrue proves ↔ IsProvedBy clause.now.rows rows cert.now) }
{
    if rows != clause.rows.len() {
        return Ok(false);
    }
    let verdict = check(alloc, clause, cert)?;
    Ok(matches!(verdict, Verdict::Accepted))
}
