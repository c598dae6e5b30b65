ghost use Rattle.std.specs.Prelude.{◌≡◌, ◌^◌, ◌<◌, map, length, Some, IfOk};
ghost use Rattle.std.specs.Ordering.{nat_cmp};
ghost use Rattle.std.specs.List.{AllByRecursion};
ghost use Rattle.std.specs.List.Sorted.{IsStrictlySortedBy};
ghost use Rattle.mm_poly.specs.Poly.{Fits};
ghost use Rattle.cert_kit.specs.declared.row.PRow.{PRow as Row};
ghost use Rattle.cert_kit.specs.Variables.{variables_of};
ghost use Rattle.box_enum.specs.Box.{box_of};
ghost use Rattle.box_enum.specs.machine.Edges.{sides_at};
ghost use Rattle.box_enum.specs.machine.Places.{StandsWall};
ghost use Rattle.box_enum.specs.machine.Trunks.{side_of_wall, wall_variables};
ghost use Rattle.box_enum.specs.machine.Walling.{bare_walls, is_bound, lower_witness, upper_witness, witnessed, witnessed_there};

use crate::edge::Edge;
use crate::reading::{Reading, read_cut};
use crate::wall::{Wall, Witness};
use cert_kit::{Op, PRow, variables};
use std::alloc::{AllocError, Global};

/// A wall for each variable of rows with a box.
pub(crate) fn walls(alloc: Global, rows: &[PRow], edges: &[Edge]) -> Result<Vec<Wall>, AllocError>
    requires room { length rows.now < 2 ^ 32 }
    requires fits { AllByRecursion (λ (r : Row). Fits r.poly) rows.now }
    requires boxed { box_of rows.now ≡ Some (sides_at edges.now) }
    ensures variables { IfOk result (λ ws. wall_variables ws.items ≡ variables_of rows.now) }
    ensures sides { IfOk result (λ ws. map side_of_wall ws.items ≡ sides_at edges.now) }
    ensures standing { IfOk result (λ ws. AllByRecursion (StandsWall rows.now) ws.items) }
{
    let vars = variables(alloc, rows)?;
    let mut walls = bare_walls(alloc, &vars, edges)?;
    for n in (0..rows.len()).rev() {
        let row = &rows[n];
        if let Some(reading) = read_cut(alloc, row)? {
            witness(&mut walls, &vars, &reading, row.op, n as u32);
        }
    }
    Ok(walls)
}

// The walls of these variables, without witnesses yet.
fn bare_walls(alloc: Global, vars: &[u32], edges: &[Edge]) -> Result<Vec<Wall>, AllocError>
    requires { length vars.now ≡ length edges.now }
    ensures { IfOk result (λ walls. walls.items ≡ bare_walls vars.now edges.now) }
{
    let mut walls = Vec::with_capacity(alloc, vars.len())?;
    for n in 0..vars.len() {
        let edge = edges[n];
        walls.push(Wall {
            variable: vars[n],
            low: edge.low,
            high: edge.high,
            lower: Witness::Row(0),
            upper: Witness::Row(0),
        })?;
    }
    Ok(walls)
}

// The row of this number as a witness for the wall of the variable that was read.
fn witness(walls: &mut Vec<Wall>, vars: &[u32], reading: &Reading, op: Op, number: u32)
    requires rising { IsStrictlySortedBy nat_cmp vars.now }
    requires each { wall_variables walls.old.items ≡ vars.now }
    ensures { walls.new.items ≡ map (witnessed_there reading.now op number) walls.old.items }
{
    if let Ok(place) = vars.binary_search(&reading.variable) {
        let wall = walls[place];
        walls[place] = witnessed(wall, reading, op, number);
    }
}

// The row of this number as a witness of those of the bounds that it gives.
fn witnessed(wall: Wall, reading: &Reading, op: Op, number: u32) -> Wall
    ensures { result ≡ witnessed reading.now op number wall }
{
    Wall {
        variable: wall.variable,
        low: wall.low,
        high: wall.high,
        lower: lower(wall, reading, op, number),
        upper: upper(wall, reading, op, number),
    }
}

fn lower(wall: Wall, reading: &Reading, op: Op, number: u32) -> Witness
    ensures { result ≡ (witnessed reading.now op number wall).lower }
{
    if is_bound(reading.low, wall.low) {
        lower_witness(op, reading.rising, number)
    } else {
        wall.lower
    }
}

fn upper(wall: Wall, reading: &Reading, op: Op, number: u32) -> Witness
    ensures { result ≡ (witnessed reading.now op number wall).upper }
{
    if is_bound(reading.high, wall.high) {
        upper_witness(op, reading.rising, number)
    } else {
        wall.upper
    }
}

// Whether a bound was read, and is this one.
fn is_bound(read: Option<i128>, bound: i128) -> bool
    ensures { result ≡ is_bound read bound }
{
    match read {
        Some(number) => number == bound,
        None => false,
    }
}

// How a row bounds its variable from below.
fn lower_witness(op: Op, rising: bool, number: u32) -> Witness
    ensures { result ≡ lower_witness op rising number }
{
    match op {
        Op::Ge => Witness::Row(number),
        Op::Eq if rising => Witness::Sum(number),
        Op::Eq => Witness::Opposite(number),
    }
}

// How a row bounds its variable from above.
fn upper_witness(op: Op, rising: bool, number: u32) -> Witness
    ensures { result ≡ upper_witness op rising number }
{
    match op {
        Op::Ge => Witness::Row(number),
        Op::Eq if rising => Witness::Opposite(number),
        Op::Eq => Witness::Sum(number),
    }
}
