ghost use Rattle.std.specs.Prelude.{◌↔◌, IsTrue};
ghost use Rattle.cut_branch.specs.Points.{AreLinear};

use crate::back::{over_variables, values};
use crate::expression::{constant, renumbered, row_of, times_row, within};
use crate::stop::{Stop, push};
use crate::system::System;
use crate::tableau::{Multiple, Tableau};
use cert_kit::{Cert, Clause, Close, Op, PRow, Psatz, Step, variables};
use cut_branch::{Pick, pick, pick_split};
use mm_num::Frac;
use mm_poly::Poly;
use sqlite_items::{Boxed, Items};
use std::alloc::Global;

// At most so many cuts are made at a node before it is split.
const MOST_CUTS: u32 = 64;

// A node has fewer rows than this.
const MOST_ROWS: usize = 65536;

/// What comes of a node.
#[derive(Drop)]
pub enum Ended {
    /// A certificate that nothing solves the node's rows.
    Closed(Cert),
    /// Values of the variables that solve them.
    Point(Vec<i128>),
}

// Where cuts lead at a node: to its end, or to a split, with the steps so far, the split over the variables, and its sides.
#[derive(Drop)]
enum Reached {
    End(Ended),
    Split(Vec<Step>, Poly, Node, Node),
}

/// Rows over the unknowns, the numbers under which a certificate has them, that of the next row, and a form of the rows.
#[derive(Drop)]
pub struct Node {
    pub clause: Clause,
    pub numbers: Vec<u32>,
    pub next: u32,
    pub tableau: Tableau,
}

/// Closes a node by cuts and at most so many nested splits, or finds a point of it.
pub fn close(
    alloc: Global,
    system: &System,
    node: Node,
    splits: u32,
    turns: &mut u32,
) -> Result<Ended, Stop> {
    if splits == 0 {
        return Err(Stop::Lost);
    }
    let (steps, over, upper, lower) = match cut_down(alloc, system, node, turns)? {
        Reached::End(ended) => return Ok(ended),
        Reached::Split(steps, over, upper, lower) => (steps, over, upper, lower),
    };
    let first = match close(alloc, system, upper, splits - 1, turns)? {
        Ended::Closed(cert) => cert,
        Ended::Point(point) => return Ok(Ended::Point(point)),
    };
    let second = match close(alloc, system, lower, splits - 1, turns)? {
        Ended::Closed(cert) => cert,
        Ended::Point(point) => return Ok(Ended::Point(point)),
    };
    let close = Close::Split(over, Boxed::new(alloc, first)?, Boxed::new(alloc, second)?);
    certified(steps, close)
}

// Cuts a node until it is closed, a point of it is whole, or a split comes.
fn cut_down(alloc: Global, system: &System, node: Node, turns: &mut u32) -> Result<Reached, Stop> {
    let mut node = node;
    let mut steps = Vec::new(alloc);
    for cuts in 0..=MOST_CUTS {
        if let Some(multiples) = node.tableau.solve(alloc, turns)? {
            return closed(alloc, &node, steps, &multiples);
        }
        let point = point_of(alloc, &node)?;
        match picked(alloc, &node.clause, &point, cuts < MOST_CUTS)? {
            Pick::Integral => return whole(alloc, system, &node.clause, &point),
            Pick::Cut(e) => add_cut(alloc, &mut node, &mut steps, &e)?,
            Pick::Split(poly) => return sides(alloc, system, &node, steps, poly),
        }
    }
    Err(Stop::Lost)
}

// The variables' values at a point whose values are whole.
fn whole(alloc: Global, system: &System, clause: &Clause, point: &[Frac]) -> Result<Reached, Stop> {
    let unknowns = variables(alloc, clause.rows.as_slice())?;
    let values = values(alloc, system, &unknowns, point)?;
    Ok(Reached::End(Ended::Point(values)))
}

// Appends the cut of the row that an expression means.
fn add_cut(alloc: Global, node: &mut Node, steps: &mut Vec<Step>, e: &Psatz) -> Result<(), Stop> {
    let row = row_of(alloc, e, node.clause.rows.as_slice())?.into_cut(alloc)?;
    push(steps, Step::Cut(renumbered(alloc, e, &node.numbers)?))?;
    add_row(alloc, node, row)
}

// The two sides of a split: that where the polynomial is at least 0 comes first.
fn sides(
    alloc: Global,
    system: &System,
    node: &Node,
    steps: Vec<Step>,
    poly: Poly,
) -> Result<Reached, Stop> {
    let negation = less_one(alloc, &poly)?;
    let over = over_variables(alloc, system, &poly)?;
    let upper = with_row(alloc, node, poly)?;
    let lower = with_row(alloc, node, negation)?;
    Ok(Reached::Split(steps, over, upper, lower))
}

// The values of the unknowns that the rows have.
fn point_of(alloc: Global, node: &Node) -> Result<Vec<Frac>, Stop> {
    let unknowns = variables(alloc, node.clause.rows.as_slice())?;
    let mut point = Vec::with_capacity(alloc, unknowns.len())?;
    for unknown in &unknowns {
        push(&mut point, node.tableau.value(*unknown as usize)?)?;
    }
    Ok(point)
}

fn are_linear(rows: &[PRow]) -> bool
    ensures { IsTrue result ↔ AreLinear rows.now }
{
    rows.iter().all(|row| row.poly.degree() <= 1)
}

// What comes next at a point; a cut only where one is wanted.
fn picked(alloc: Global, clause: &Clause, point: &[Frac], cuts: bool) -> Result<Pick, Stop> {
    let rows = clause.rows.as_slice();
    if !are_linear(rows) || variables(alloc, rows)?.len() != point.len() {
        return Err(Stop::Lost);
    }
    if cuts {
        return Ok(pick(alloc, clause, point)?);
    }
    match pick_split(alloc, clause, point)? {
        Some(poly) => Ok(Pick::Split(poly)),
        None => Ok(Pick::Integral),
    }
}

fn add_row(alloc: Global, node: &mut Node, row: PRow) -> Result<(), Stop> {
    let Some(after) = node.next.checked_add(1) else {
        return Err(Stop::Lost);
    };
    if node.numbers.len() >= MOST_ROWS {
        return Err(Stop::Lost);
    }
    node.tableau.add(alloc, &row.poly)?;
    node.clause.rows.push(row)?;
    push(&mut node.numbers, node.next)?;
    node.next = after;
    Ok(())
}

// The negation less 1.
fn less_one(alloc: Global, poly: &Poly) -> Result<Poly, Stop> {
    let negation = within(poly.scale(alloc, -1))?;
    within(negation.add(alloc, &constant(alloc, -1)?))
}

// The node with one more row.
fn with_row(alloc: Global, node: &Node, poly: Poly) -> Result<Node, Stop> {
    let mut numbers = Vec::with_capacity(alloc, node.numbers.len())?;
    for number in &node.numbers {
        push(&mut numbers, *number)?;
    }
    let mut next = Node {
        clause: node.clause.copy(alloc)?,
        numbers,
        next: node.next,
        tableau: node.tableau.copy(alloc)?,
    };
    add_row(alloc, &mut next, PRow { poly, op: Op::Ge })?;
    Ok(next)
}

// The steps, and one that sums multiples of the node's rows.
fn closed(
    alloc: Global,
    node: &Node,
    mut steps: Vec<Step>,
    multiples: &[Multiple],
) -> Result<Reached, Stop> {
    let mut sum = Psatz::Zero;
    for multiple in multiples {
        let Some(number) = node.numbers.get(multiple.row) else {
            return Err(Stop::Lost);
        };
        let row = times_row(alloc, multiple.times, *number)?;
        sum = match sum {
            Psatz::Zero => row,
            sum => Psatz::Add(Boxed::new(alloc, sum)?, Boxed::new(alloc, row)?),
        };
    }
    push(&mut steps, Step::Rat(sum))?;
    Ok(Reached::End(certified(steps, Close::Done)?))
}

fn certified(steps: Vec<Step>, close: Close) -> Result<Ended, Stop> {
    match Cert::make(steps, close) {
        Ok(cert) => Ok(Ended::Closed(cert)),
        Err(_) => Err(Stop::Lost),
    }
}
