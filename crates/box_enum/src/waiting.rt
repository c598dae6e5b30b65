ghost use Rattle.std.specs.Prelude.{◌≡◌, ◌≤◌, length, IfOk};
ghost use Rattle.mm_poly.specs.Mono.{VarsBelow};
ghost use Rattle.mm_poly.specs.Poly.{HasPlaces};
ghost use Rattle.std.specs.List.Sorted.{IsPermutation, IsStrictlySortedBy};
ghost use Rattle.std.specs.Ordering.{nat_cmp};
ghost use Rattle.mm_poly.specs.Renaming.{renamed, renamed_mono, renamed_terms};
ghost use Rattle.cert_kit.specs.Variables.{place_of};
ghost use Rattle.box_enum.specs.machine.Searching.{IsPlaced, ArePlaced};

use cert_kit::PRow;
use mm_poly::{Mono, Poly, PolyFail, Term};
use std::alloc::{AllocError, Global};

/// A row over places in the stead of variables, which is due once there are so many values.
#[derive(Debug, Drop)]
pub struct Waiting {
    pub due: usize,
    pub row: PRow,
}

/// Each row over the places of its variables.
pub(crate) fn all_waiting(
    alloc: Global,
    rows: &[PRow],
    vars: &[u32],
) -> Result<Vec<Waiting>, AllocError>
    requires few { length vars.now ≤ 2048 }
    requires rising { IsStrictlySortedBy nat_cmp vars.now }
    ensures { IfOk result (λ ws. ArePlaced vars.now rows.now ws.items) }
{
    let mut waiting = Vec::with_capacity(alloc, rows.len())?;
    for row in rows {
        waiting.push(wait(alloc, row, vars)?)?;
    }
    Ok(waiting)
}

/// The rows by when they are due, the cheapest first.
pub(crate) fn by_due(mut waiting: Vec<Waiting>) -> Vec<Waiting>
    ensures { IsPermutation waiting.items result.items }
{
    waiting.sort_unstable_by_key(|waiting| (waiting.due, waiting.row.poly.spread()));
    waiting
}

fn wait(alloc: Global, row: &PRow, vars: &[u32]) -> Result<Waiting, AllocError>
    requires few { length vars.now ≤ 2048 }
    requires rising { IsStrictlySortedBy nat_cmp vars.now }
    ensures { IfOk result (IsPlaced vars.now row.now) }
{
    let poly = placed(alloc, &row.poly, vars)?;
    let due = due(&poly);
    if due > vars.len() {
        return Err(AllocError);
    }
    Ok(Waiting {
        due,
        row: PRow { poly, op: row.op },
    })
}

// The polynomial over the places of its variables.
#[tactic(auto, using(crate::proofs::PlacedLaws::placed_is))]
fn placed(alloc: Global, poly: &Poly, vars: &[u32]) -> Result<Poly, AllocError>
    requires few { length vars.now ≤ 2048 }
    requires rising { IsStrictlySortedBy nat_cmp vars.now }
    ensures { IfOk result (λ p. p ≡ renamed (place_of vars.now) poly.now) }
{
    let _ = poly.spread();
    let terms = placed_terms(alloc, poly.terms(), vars)?;
    match Poly::joined(alloc, terms) {
        Ok(placed) => Ok(placed),
        Err(PolyFail::NoMemory) => Err(AllocError),
        Err(PolyFail::Big) => unreachable!(),
    }
}

fn placed_terms(alloc: Global, terms: &[Term], vars: &[u32]) -> Result<Vec<Term>, AllocError>
    requires few { length vars.now ≤ 2048 }
    requires rising { IsStrictlySortedBy nat_cmp vars.now }
    ensures { IfOk result (λ out. out.items ≡ renamed_terms (place_of vars.now) terms.now) }
{
    let mut out = Vec::with_capacity(alloc, terms.len())?;
    for term in terms {
        out.push(Term {
            coeff: term.coeff,
            mono: placed_mono(alloc, &term.mono, vars)?,
        })?;
    }
    Ok(out)
}

fn placed_mono(alloc: Global, mono: &Mono, vars: &[u32]) -> Result<Mono, AllocError>
    requires few { length vars.now ≤ 2048 }
    requires rising { IsStrictlySortedBy nat_cmp vars.now }
    ensures { IfOk result (λ m. m ≡ renamed_mono (place_of vars.now) mono.now) }
{
    let factors = mono.factors();
    let mut placed = Mono::one(alloc);
    for n in (0..factors.len()).rev() {
        let (variable, exponent) = factors[n];
        let factor = Mono::power(alloc, place(vars, variable), exponent)?;
        placed = factor.times(&placed)?;
    }
    Ok(placed)
}

// The place of a variable among some, their number where it isn't among them.
fn place(vars: &[u32], variable: u32) -> u32
    requires few { length vars.now ≤ 2048 }
    requires rising { IsStrictlySortedBy nat_cmp vars.now }
    ensures { result ≡ place_of vars.now variable }
{
    match vars.binary_search(&variable) {
        Ok(place) => place as u32,
        Err(_) => vars.len() as u32,
    }
}

// How many values there have to be so that each place of the polynomial has one.
fn due(poly: &Poly) -> usize
    ensures { HasPlaces result poly.now }
{
    let mut due = 0;
    let terms = poly.terms();
    for n in (0..terms.len()).rev() {
        due = greater(due, past(terms[n].mono.factors()));
    }
    due
}

fn past(factors: &[(u32, u8)]) -> usize
    ensures { VarsBelow result factors.now }
{
    let mut past = 0;
    for n in (0..factors.len()).rev() {
        past = greater(past, factors[n].0 as usize + 1);
    }
    past
}

fn greater(first: usize, second: usize) -> usize
    ensures first { first ≤ result }
    ensures second { second ≤ result }
{
    if first < second { second } else { first }
}
