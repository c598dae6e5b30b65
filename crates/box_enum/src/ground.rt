ghost use Rattle.std.specs.Prelude.{◌≡◌, [], ◌+◌, ◌^◌, ◌<◌, ◌++◌, length, IfOk};
ghost use Rattle.std.specs.List.{AllByRecursion};
ghost use Rattle.box_enum.specs.declared.numbered.Numbered.{Numbered as ANumbered};
ghost use Rattle.box_enum.specs.machine.Putting.{IsTame, IsWithinReach, Puts};
ghost use Rattle.box_enum.specs.machine.Trunks.{ArePut, IsWalled, choices_from, numbered_row, with_singles};

use crate::numbered::{Choice, Numbered};
use crate::putting::put_values;
use crate::standing::Standing;
use crate::wall::Wall;
use cert_kit::{PRow, Step};
use std::alloc::{AllocError, Global};

/// The rows with the only values put for their variables, by steps that are pushed. Each is due once the free variables
/// that it needs have values.
pub(crate) fn reduced_rows(
    alloc: Global,
    steps: &mut Vec<Step>,
    rows: &[PRow],
    single: &[Wall],
    free: &[Wall],
    choices: &[Choice],
    reach: u128,
) -> Result<Vec<Standing>, AllocError>
    requires none { steps.old.items ≡ [] }
    requires walled { IsWalled rows.now reach (single.now ++ free.now) }
    requires choices { choices.now ≡ choices_from (length rows.now) single.now }
    ensures { IfOk result (λ standing. ArePut rows.now (with_singles rows.now single.now) choices.now (length rows.now) steps.new.items standing.items) }
{
    let count = rows.len() as u32 + single.len() as u32;
    let mut standing = Vec::with_capacity(alloc, rows.len())?;
    for n in 0..rows.len() {
        let numbered = reduced_row(alloc, steps, count, &rows[n], n as u32, choices, reach)?;
        standing.push(Standing {
            due: needed(&numbered.row, free),
            numbered,
        })?;
    }
    Ok(standing)
}

// A row with the values put into it. Steps whose rows would have no numbers of 32 bits are hundreds of GiB, so their
// want is that of memory.
fn reduced_row(
    alloc: Global,
    steps: &mut Vec<Step>,
    count: u32,
    row: &PRow,
    number: u32,
    choices: &[Choice],
    reach: u128,
) -> Result<Numbered, AllocError>
    requires tame { IsTame reach row.now.poly }
    requires within { AllByRecursion (IsWithinReach reach) choices.now }
    ensures { IfOk result (Puts steps.old.items steps.new.items (count + length steps.old.items) (numbered_row row.now number) choices.now) }
{
    let numbers = (u32::MAX - count) as usize;
    if steps.len() >= numbers || choices.len() >= numbers - steps.len() {
        return Err(AllocError);
    }
    let from = Numbered {
        row: row.copy(alloc)?,
        number,
    };
    put_values(
        alloc,
        steps,
        count + steps.len() as u32,
        &from,
        choices,
        reach,
    )
}

// How many walls there are up to the last one whose variable occurs in the row.
fn needed(row: &PRow, walls: &[Wall]) -> usize {
    let mut needed = 0;
    for term in row.poly.terms() {
        for factor in term.mono.factors() {
            if let Some(place) = walls.iter().position(|wall| wall.variable == factor.0) {
                needed = needed.max(place + 1);
            }
        }
    }
    needed
}
