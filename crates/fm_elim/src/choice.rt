ghost use Rattle.std.specs.Prelude.{◌≡◌, ◌&&◌, ◌==◌, not, unsigned_abs, IfOk};
ghost use Rattle.fm_elim.specs.Unknowns.{unknowns};
ghost use Rattle.fm_elim.specs.Steps.{unit_unknown, solved_unknown, solvable_from, equality_from, first_exact, first_of, exact_or, rule_of};
ghost use Rattle.mm_poly.specs.Mono.{is_constant};
ghost use Rattle.fm_elim.specs.machine.Tidying.{rows_of};

use crate::exact::{first_exact, first_unknown, is_exact};
use crate::live::Live;
use crate::parallel::is_inequality;
use crate::rule::Rule;
use cert_kit::PRow;
use mm_poly::{Mono, Term};
use std::alloc::{AllocError, Global};

/// The first rule that applies to tidy rows.
pub fn next_rule(alloc: Global, rows: &[Live]) -> Result<Rule, AllocError>
    ensures { IfOk result (λ rule. rule ≡ rule_of (rows_of rows.now)) }
{
    if let Some((place, unknown)) = solvable(rows)? {
        return Ok(Rule::Solve(place, unknown));
    }
    if let Some(place) = equality_place(rows) {
        return Ok(Rule::Halve(place));
    }
    let rule = rule_by_unknowns(alloc, rows)?;
    Ok(rule)
}

// The place of the first equality that gives an unknown's value, and the unknown.
fn solvable(rows: &[Live]) -> Result<Option<(usize, Mono)>, AllocError>
    ensures { IfOk result (λ found. found ≡ solvable_from (rows_of rows.now) 0) }
{
    for (place, live) in rows.iter().enumerate() {
        if let Some(unknown) = solved_unknown(&live.row)? {
            return Ok(Some((place, unknown)));
        }
    }
    Ok(None)
}

fn solved_unknown(row: &PRow) -> Result<Option<Mono>, AllocError>
    ensures { IfOk result (λ found. found ≡ solved_unknown row.now) }
{
    if is_inequality(row.op) {
        return Ok(None);
    }
    let found = unit_unknown(row.poly.terms())?;
    Ok(found)
}

// The first unknown with the coefficient 1 or -1.
fn unit_unknown(terms: &[Term]) -> Result<Option<Mono>, AllocError>
    ensures { IfOk result (λ found. found ≡ unit_unknown terms.now) }
{
    for term in terms {
        if is_unit(term) {
            return Ok(Some(term.mono.copy()?));
        }
    }
    Ok(None)
}

fn is_unit(term: &Term) -> bool
    ensures { result ≡ (not (is_constant term.now.mono) && (unsigned_abs term.now.coeff == 1)) }
{
    !term.mono.is_empty() && term.coeff.unsigned_abs() == 1
}

// The place of the first equality.
fn equality_place(rows: &[Live]) -> Option<usize>
    ensures { result ≡ equality_from (rows_of rows.now) 0 }
{
    for (place, live) in rows.iter().enumerate() {
        if !is_inequality(live.row.op) {
            return Some(place);
        }
    }
    None
}

// The rule for inequalities: the first unknown that can be eliminated exactly, and else the first one.
fn rule_by_unknowns(alloc: Global, rows: &[Live]) -> Result<Rule, AllocError>
    ensures { IfOk result (λ rule. rule ≡ exact_or (first_exact (rows_of rows.now) (unknowns (rows_of rows.now))) (first_of (unknowns (rows_of rows.now)))) }
{
    let Some(first) = first_unknown(rows) else {
        return Ok(Rule::Finished);
    };
    if is_exact(rows, first) {
        return Ok(Rule::Exact(first.copy()?));
    }
    match first_exact(alloc, rows)? {
        Some(unknown) => Ok(Rule::Exact(unknown)),
        None => Ok(Rule::Inexact(first.copy()?)),
    }
}
