ghost use Rattle.std.specs.Prelude.{◌≡◌, ◌+◌, ◌≤ℤ◌, [], ◌∷◌, List, length, IfOk, OnOk};
ghost use Rattle.std.specs.List.{AllByRecursion};
ghost use Rattle.mm_poly.specs.Poly.{variable_of};
ghost use Rattle.cert_kit.specs.declared.row.PRow.{PRow as Row};
ghost use Rattle.cert_kit.specs.Acceptance.{IsGood, value_row, with_row};
ghost use Rattle.cert_kit.specs.Making.{AreGood};
ghost use Rattle.box_enum.specs.machine.Places.{IsGoodAt, IsOpen, IsPlace, IsShallow, wall_count};

use crate::numbered::Choice;
use crate::refuting::{refuted_at_last, refuted_early};
use crate::standing::Ground;
use crate::wall::{Wall, enumeration};
use cert_kit::Cert;
use std::alloc::{AllocError, Global};

/// The certificate of a place of the box, where some variables have values and this many rows stand: one enumeration
/// after another, each branch as deep as no row is false. The choices stay as they were.
#[cycle(branching)]
pub(crate) fn branch(
    alloc: Global,
    ground: &Ground,
    walls: &[Wall],
    count: u32,
    choices: &mut Vec<Choice>,
) -> Result<Cert, AllocError>
    requires { IsOpen ground.now count choices.old.items walls.now }
    ensures kept { OnOk result (choices.new.items ≡ choices.old.items) }
    ensures good { IfOk result (IsGoodAt count ground.now.standing choices.old.items walls.now) }
    ensures shallow { IfOk result (IsShallow (length walls.now + 2)) }
{
    let [wall, later @ ..] = walls else {
        let cert = end(alloc, ground, count, choices)?;
        return Ok(cert);
    };
    if let Some(cert) = refuted_early(alloc, ground, count, choices)? {
        return Ok(cert);
    }
    let members = members(alloc, ground, wall, later, count, choices)?;
    let cert = enumeration(alloc, wall, members)?;
    Ok(cert)
}

// The certificate where each variable has a value.
fn end(alloc: Global, ground: &Ground, count: u32, choices: &[Choice]) -> Result<Cert, AllocError>
    requires { IsOpen ground.now count choices.now [] }
    ensures good { IfOk result (IsGoodAt count ground.now.standing choices.now []) }
    ensures shallow { IfOk result (IsShallow 2) }
{
    if let Some(cert) = refuted_early(alloc, ground, count, choices)? {
        return Ok(cert);
    }
    refuted_at_last(alloc, ground, count, choices)
}

// A certificate for each value of the next variable.
#[cycle(branching)]
fn members(
    alloc: Global,
    ground: &Ground,
    wall: &Wall,
    later: &[Wall],
    count: u32,
    choices: &mut Vec<Choice>,
) -> Result<Vec<Cert>, AllocError>
    requires { IsOpen ground.now count choices.old.items (wall.now ∷ later.now) }
    ensures kept { OnOk result (choices.new.items ≡ choices.old.items) }
    ensures counted { IfOk result (λ members. length members.items ≡ wall_count wall.now) }
    ensures good { IfOk result (λ members. (rows : List Row) → IsPlace rows count ground.now.standing choices.old.items (wall.now ∷ later.now) → AreGood (variable_of wall.now.variable) wall.now.low members.items rows) }
    ensures shallow { IfOk result (λ members. AllByRecursion (IsShallow (length later.now + 2)) members.items) }
{
    let mut members = Vec::new(alloc);
    let mut value = wall.low;
    while value <= wall.high {
        members.push(member(alloc, ground, wall, later, count, choices, value)?)?;
        value += 1;
    }
    Ok(members)
}

// The certificate for a value of the next variable.
#[cycle(branching)]
fn member(
    alloc: Global,
    ground: &Ground,
    wall: &Wall,
    later: &[Wall],
    count: u32,
    choices: &mut Vec<Choice>,
    value: i128,
) -> Result<Cert, AllocError>
    requires is_open { IsOpen ground.now count choices.old.items (wall.now ∷ later.now) }
    requires low { wall.now.low ≤ℤ value }
    requires high { value ≤ℤ wall.now.high }
    ensures kept { OnOk result (choices.new.items ≡ choices.old.items) }
    ensures good { IfOk result (λ c. (rows : List Row) → IsPlace rows count ground.now.standing choices.old.items (wall.now ∷ later.now) → IsGood (with_row rows (value_row (variable_of wall.now.variable) value)) c) }
    ensures shallow { IfOk result (IsShallow (length later.now + 2)) }
{
    let level = choices.len();
    choices.push(Choice {
        variable: wall.variable,
        value,
        row: count,
    })?;
    let cert = branch(alloc, ground, later, count + 1, choices)?;
    choices.truncate(level);
    Ok(cert)
}
