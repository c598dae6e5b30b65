ghost use Rattle.std.specs.Prelude.{◌≡◌, ◌+◌, ◌*◌, ◌^◌, ◌<◌, ◌≤◌, List, ◌∷◌, map, nat_lt, IfOk, OnOk, MatchOption};
ghost use Rattle.std.specs.List.{AllByRecursion};
ghost use Rattle.fm_elim.specs.declared.removal.Removal.{Removal as ARemoval};
ghost use Rattle.fm_elim.specs.Unknowns.{unknowns};
ghost use Rattle.fm_elim.specs.Points.{unknown_of, values_of, greatest_value};
ghost use Rattle.fm_elim.specs.machine.Giving.{given, AreWithin, IsRemoval, IsGiven};

use crate::giving::{value_after, value_of};
use crate::removal::Removal;
use crate::unknowns::add_unknowns;
use crate::value::{Given, Value};
use cert_kit::PRow;
use mm_poly::{Mono, NORM_LIMIT};
use std::alloc::{AllocError, Global};

/// The values of the rows' unknowns after removals in order, none where a norm of at most `top` times 1 more than the
/// greatest magnitude of a value reaches 2^126.
pub fn point(
    alloc: Global,
    rows: &[PRow],
    removed: &[Removal],
    top: u128,
) -> Result<Option<Vec<i128>>, AllocError>
    requires { AllByRecursion (IsRemoval top) removed.now }
    ensures { IfOk result (λ o. MatchOption o (2 ^ 126 ≤ top * (1 + greatest_value removed.now))
        (λ v. (top * (1 + greatest_value removed.now) < 2 ^ 126) × (v.items ≡ map (values_of removed.now) (unknowns rows.now)))) }
{
    let Some(given) = give_all(alloc, removed, top)? else {
        return Ok(None);
    };
    let unknowns = unknowns(alloc, rows)?;
    let values = values_at(alloc, &unknowns, &given)?;
    Ok(Some(values))
}

// The values that the removals give, the last one first.
fn give_all(alloc: Global, removed: &[Removal], top: u128) -> Result<Option<Given>, AllocError>
    requires { AllByRecursion (IsRemoval top) removed.now }
    ensures { IfOk result (λ o. MatchOption o (2 ^ 126 ≤ top * (1 + greatest_value removed.now))
        (λ g. (top * (1 + greatest_value removed.now) < 2 ^ 126) × IsGiven removed.now g)) }
{
    let mut given = Given {
        values: Vec::with_capacity(alloc, removed.len())?,
        greatest: 0,
    };
    for n in (0..removed.len()).rev() {
        if !is_tame(top, given.greatest) {
            return Ok(None);
        }
        give(&mut given, top, &removed[n])?;
    }
    if !is_tame(top, given.greatest) {
        return Ok(None);
    }
    Ok(Some(given))
}

// Gives a removal's unknown its value.
fn give(given: &mut Given, top: u128, removal: &Removal) -> Result<(), AllocError>
    requires within { AreWithin given.old.greatest given.old.values.items }
    requires room { top * (1 + given.old.greatest) < 2 ^ 126 }
    requires small { given.old.greatest < 2 ^ 126 }
    requires removal { IsRemoval top removal.now }
    ensures { OnOk result ((later : List ARemoval) → IsGiven later given.old → IsGiven (removal.now ∷ later) given.new) }
{
    let value = value_after(&given.values, given.greatest, top, removal);
    let unknown = unknown_of(removal)?;
    given.values.push(Value { unknown, value })?;
    given.greatest = given.greatest.max(value.unsigned_abs());
    Ok(())
}

fn unknown_of(removal: &Removal) -> Result<Mono, AllocError>
    ensures { IfOk result (λ u. u ≡ unknown_of removal.now) }
{
    match removal {
        Removal::Solved(unknown, _) | Removal::Bounded(unknown, _, _) => unknown.copy(),
    }
}

// Whether a norm times 1 more than a magnitude is below the limit.
fn is_tame(top: u128, greatest: u128) -> bool
    requires { greatest < 2 ^ 126 }
    ensures { result ≡ nat_lt (top * (1 + greatest)) (2 ^ 126) }
{
    match top.checked_mul(1 + greatest) {
        Some(product) => product < NORM_LIMIT,
        None => false,
    }
}

// The unknowns of rows, in monomial order.
fn unknowns(alloc: Global, rows: &[PRow]) -> Result<Vec<Mono>, AllocError>
    ensures { IfOk result (λ us. us.items ≡ unknowns rows.now) }
{
    let mut found = Vec::new(alloc);
    for n in (0..rows.len()).rev() {
        add_unknowns(&mut found, rows[n].poly.terms())?;
    }
    Ok(found)
}

fn values_at(alloc: Global, unknowns: &[Mono], values: &Given) -> Result<Vec<i128>, AllocError>
    requires within { AreWithin values.now.greatest values.now.values.items }
    requires small { values.now.greatest < 2 ^ 126 }
    ensures { IfOk result (λ v. v.items ≡ map (given values.now.values.items) unknowns.now) }
{
    let mut out = Vec::with_capacity(alloc, unknowns.len())?;
    for unknown in unknowns {
        out.push(value_of(&values.values, values.greatest, unknown))?;
    }
    Ok(out)
}
