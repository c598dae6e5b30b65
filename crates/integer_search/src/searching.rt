ghost use Rattle.std.specs.Prelude.{◌≡◌, ◌≤◌, length, IfOk};
ghost use Rattle.std.specs.List.{AllByRecursion};
ghost use Rattle.mm_num.specs.Small.{IsSmall};
ghost use Rattle.mm_poly.specs.Point.{point_of};
ghost use Rattle.cert_kit.specs.Row.{Solves};
ghost use Rattle.cert_kit.specs.Acceptance.{IsGood};
ghost use Rattle.cert_kit.specs.Depth.{cert_depth, MakesCert};
ghost use Rattle.integer_search.specs.Searching.{IfCert, IfPoint};

use crate::branching::{Ended, Node, close};
use crate::checked::{accepted, solve};
use crate::equalities::{Reduced, content, place_of_step, push_own_cut, solve_equalities};
use crate::expression::within;
use crate::stop::{Stop, push};
use crate::system::{System, is_equality};
use crate::table::number_at;
use crate::tableau::Tableau;
use cert_kit::{Cert, Clause, Close, Op, PRow, Step};
use mm_poly::{Mono, Poly, Term};
use sqlite_items::Items;
use std::alloc::{AllocError, Global};

// Splits nest at most so deep.
const MOST_SPLITS: u32 = 64;

// The tables of the search have at most so many numbers.
const MOST_NUMBERS: usize = 1048576;

/// What the search finds.
#[derive(Debug, Drop)]
pub enum Found {
    /// A good certificate.
    Cert(Cert),
    /// Values for the variables from 0 on that solve the rows.
    Point(Vec<i128>),
    /// Neither.
    Nothing,
}

/// Searches a clause of so many variables, by at most so many pivots together: a certificate, a point, or neither.
pub fn search(alloc: Global, clause: &Clause, count: usize, turns: u32) -> Result<Found, AllocError>
    ensures good { IfOk result (IfCert (IsGood clause.now.rows)) }
    ensures makes { IfOk result (IfCert (λ c. MakesCert c.steps c.close)) }
    ensures shallow { IfOk result (IfCert (λ c. cert_depth c ≤ 4000)) }
    ensures one_each { IfOk result (IfPoint (λ values. length values ≡ count)) }
    ensures small { IfOk result (IfPoint (AllByRecursion IsSmall)) }
    ensures solves { IfOk result (IfPoint (λ values. Solves (point_of values) clause.now.rows)) }
{
    if !is_in_reach(clause.rows.as_slice().len(), count) {
        return Ok(Found::Nothing);
    }
    match ended(alloc, clause.rows.as_slice(), count, turns) {
        Ok(Ended::Closed(cert)) => match accepted(alloc, clause, cert)? {
            Some(cert) => Ok(Found::Cert(cert)),
            None => Ok(Found::Nothing),
        },
        Ok(Ended::Point(values)) => found_point(alloc, clause, count, values),
        Err(Stop::NoMemory) => Err(AllocError),
        Err(Stop::Lost) => Ok(Found::Nothing),
    }
}

fn found_point(
    alloc: Global,
    clause: &Clause,
    count: usize,
    values: Vec<i128>,
) -> Result<Found, AllocError>
    ensures good { IfOk result (IfCert (IsGood clause.now.rows)) }
    ensures makes { IfOk result (IfCert (λ c. MakesCert c.steps c.close)) }
    ensures shallow { IfOk result (IfCert (λ c. cert_depth c ≤ 4000)) }
    ensures one_each { IfOk result (IfPoint (λ values. length values ≡ count)) }
    ensures small { IfOk result (IfPoint (AllByRecursion IsSmall)) }
    ensures solves { IfOk result (IfPoint (λ values. Solves (point_of values) clause.now.rows)) }
{
    if values.len() == count && solve(alloc, clause.rows.as_slice(), &values)? {
        Ok(Found::Point(values))
    } else {
        Ok(Found::Nothing)
    }
}

// Whether the tables are of a size to be searched.
fn is_in_reach(rows: usize, count: usize) -> bool {
    let Some(twice) = count.checked_mul(2) else {
        return false;
    };
    match rows.saturating_add(twice).checked_mul(count) {
        Some(numbers) => numbers <= MOST_NUMBERS,
        None => false,
    }
}

fn ended(alloc: Global, rows: &[PRow], count: usize, turns: u32) -> Result<Ended, Stop> {
    let mut system = System::new(alloc, rows, count)?;
    if solve_equalities(alloc, rows, &mut system)? == Reduced::False {
        return with_steps(Items::new(alloc), system.steps, Close::Done);
    }
    let node = root(alloc, rows, &mut system)?;
    let mut left = turns;
    match close(alloc, &system, node, MOST_SPLITS, &mut left)? {
        Ended::Closed(cert) => with_steps(cert.steps, system.steps, cert.close),
        Ended::Point(values) => Ok(Ended::Point(values)),
    }
}

// A certificate with steps in front.
fn with_steps(steps: Items<Step>, front: Vec<Step>, close: Close) -> Result<Ended, Stop> {
    let mut all = Items::from_vec(front);
    all.append(steps)?;
    Ok(Ended::Closed(Cert { steps: all, close }))
}

// The inequalities over the unknowns that are free.
fn root(alloc: Global, rows: &[PRow], system: &mut System) -> Result<Node, Stop> {
    let mut kept = Vec::new(alloc);
    let mut numbers = Vec::new(alloc);
    let mut tableau = Tableau::new(alloc, system.forms.len())?;
    for (place, row) in rows.iter().enumerate() {
        if !is_equality(row) {
            let row = over_unknowns(alloc, system, place)?.into_cut(alloc)?;
            tableau.add(alloc, &row.poly)?;
            push(&mut kept, row)?;
            push(&mut numbers, number_of(alloc, rows.len(), system, place)?)?;
        }
    }
    let next = place_of_step(rows.len(), system.steps.len())?;
    let clause = Clause {
        rows: Items::from_vec(kept),
    };
    Ok(Node {
        clause,
        numbers,
        next,
        tableau,
    })
}

// The number of a row as it stands, or of its cut without the solved unknowns, which a step appends.
fn number_of(alloc: Global, count: usize, system: &mut System, place: usize) -> Result<u32, Stop> {
    let (Some(row), Some(parts)) = (system.rows.get(place), system.parts.get(place)) else {
        return Err(Stop::Lost);
    };
    if parts.is_empty() && content(row)? <= 1 {
        return place_of_step(place, 0);
    }
    let number = place_of_step(count, system.steps.len())?;
    push_own_cut(alloc, system, place)?;
    Ok(number)
}

fn over_unknowns(alloc: Global, system: &System, place: usize) -> Result<PRow, Stop> {
    let Some(numbers) = system.rows.get(place) else {
        return Err(Stop::Lost);
    };
    let mut terms = Vec::with_capacity(alloc, numbers.len())?;
    let mut unknown = 0u32;
    for coeff in numbers {
        if *coeff != 0 {
            push(
                &mut terms,
                Term {
                    coeff: *coeff,
                    mono: Mono::var(alloc, unknown)?,
                },
            )?;
        }
        unknown = unknown.wrapping_add(1);
    }
    let constant = number_at(&system.constants, place);
    if constant != 0 {
        push(
            &mut terms,
            Term {
                coeff: constant,
                mono: Mono::one(alloc),
            },
        )?;
    }
    let poly = within(Poly::joined(alloc, terms))?;
    Ok(PRow { poly, op: Op::Ge })
}
