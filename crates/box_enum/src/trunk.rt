ghost use Rattle.std.specs.Prelude.{◌≡◌, ℕ, ◌+◌, ◌^◌, ◌<◌, ◌≤◌, ◌++◌, List, map, length, take, true, None, Some, IfOk};
ghost use Rattle.std.specs.List.{All, AllByRecursion, list_all};
ghost use Rattle.std.specs.List.Sorted.{IsPermutation};
ghost use Rattle.mm_poly.specs.Poly.{Fits};
ghost use Rattle.cert_kit.specs.declared.row.PRow.{PRow as Row};
ghost use Rattle.cert_kit.specs.Acceptance.{IsGood};
ghost use Rattle.box_enum.specs.Box.{box_of, reach_of, is_modest, first_point};
ghost use Rattle.box_enum.specs.machine.Edges.{sides_at, IsSmallEdge};
ghost use Rattle.box_enum.specs.machine.Places.{StandsWall, IsShallow};
ghost use Rattle.box_enum.specs.machine.Trunks.{IsSingle, IsWalled, choices_from, single_row, with_singles, after_steps};

use crate::branching::branch;
use crate::edge::{Edge, reach};
use crate::ground::reduced_rows;
use crate::numbered::Choice;
use crate::standing::Ground;
use crate::wall::{Wall, enumeration};
use crate::walling::walls;
use cert_kit::{Cert, PRow, Step};
use sqlite_items::Items;
use std::alloc::{AllocError, Global};

/// The most rows that a place of the trunk has, so that those of the box's values have numbers of 32 bits too.
pub(crate) const MOST_ROWS: usize = u32::MAX as usize - 4096;

/// A certificate of rows that no point of their box solves.
pub(crate) fn certificate(alloc: Global, rows: &[PRow], edges: &[Edge]) -> Result<Cert, AllocError>
    requires room { length rows.now + 4096 < 2 ^ 32 }
    requires fits { AllByRecursion (λ (r : Row). Fits r.poly) rows.now }
    requires boxed { box_of rows.now ≡ Some (sides_at edges.now) }
    requires few { length edges.now ≤ 2048 }
    requires modest { list_all (is_modest (reach_of (sides_at edges.now))) rows.now ≡ true }
    requires small { All IsSmallEdge edges.now }
    requires none { first_point rows.now ≡ None }
    ensures good { IfOk result (IsGood rows.now) }
    ensures shallow { IfOk result (IsShallow 2050) }
{
    let found = walls(alloc, rows, edges)?;
    let walls = by_values(found);
    let singles = count_singles(&walls);
    let (single, free) = walls.split_at(singles);
    let cert = around(alloc, rows, single, free, reach(edges))?;
    Ok(cert)
}

// The walls by how many values they have: none, a single one or more.
fn by_values(mut walls: Vec<Wall>) -> Vec<Wall>
    ensures { IsPermutation walls.items result.items }
{
    walls.sort_unstable_by_key(|wall| (values(wall), wall.variable));
    walls
}

// How many values a wall has, 2 where there are more.
fn values(wall: &Wall) -> u8 {
    if wall.high < wall.low {
        0
    } else if wall.low == wall.high {
        1
    } else {
        2
    }
}

// How many walls from the first on have a single value.
fn count_singles(walls: &[Wall]) -> usize
    ensures within { result ≤ length walls.now }
    ensures single { AllByRecursion IsSingle (take result walls.now) }
{
    for (n, wall) in walls.iter().enumerate() {
        if wall.low != wall.high {
            return n;
        }
    }
    walls.len()
}

// The trunk of the walls with a single value, and within it the certificate of the others.
fn around(
    alloc: Global,
    rows: &[PRow],
    single: &[Wall],
    free: &[Wall],
    reach: u128,
) -> Result<Cert, AllocError>
    requires walled { IsWalled rows.now reach (single.now ++ free.now) }
    requires single { AllByRecursion IsSingle single.now }
    ensures good { IfOk result (IsGood rows.now) }
    ensures shallow { IfOk result (IsShallow (length single.now + length free.now + 2)) }
{
    let choices = single_choices(alloc, single, rows.len() as u32)?;
    let inner = within(alloc, rows, single, free, &choices, reach)?;
    let cert = wrapped(alloc, single, inner)?;
    Ok(cert)
}

// The choices of the only values.
fn single_choices(alloc: Global, single: &[Wall], first: u32) -> Result<Vec<Choice>, AllocError>
    requires { first + length single.now < 2 ^ 32 }
    ensures { IfOk result (λ choices. choices.items ≡ choices_from first single.now) }
{
    let mut choices = Vec::with_capacity(alloc, single.len())?;
    for n in 0..single.len() {
        choices.push(Choice {
            variable: single[n].variable,
            value: single[n].low,
            row: first + n as u32,
        })?;
    }
    Ok(choices)
}

// The certificate over the rows and those of the only values, which are put into the rows first. Numbers past those of 32
// bits would be of hundreds of GiB of steps.
fn within(
    alloc: Global,
    rows: &[PRow],
    single: &[Wall],
    free: &[Wall],
    choices: &[Choice],
    reach: u128,
) -> Result<Cert, AllocError>
    requires walled { IsWalled rows.now reach (single.now ++ free.now) }
    requires choices { choices.now ≡ choices_from (length rows.now) single.now }
    ensures good { IfOk result (IsGood (with_singles rows.now single.now)) }
    ensures shallow { IfOk result (IsShallow (length free.now + 2)) }
{
    let mut steps = Vec::new(alloc);
    let standing = reduced_rows(alloc, &mut steps, rows, single, free, choices, reach)?;
    let ground = Ground {
        standing: Items::from_vec(standing),
        reach,
    };
    let count = rows.len() + single.len() + steps.len();
    if count > MOST_ROWS {
        return Err(AllocError);
    }
    let mut chosen = Vec::new(alloc);
    let cert = branch(alloc, &ground, free, count as u32, &mut chosen)?;
    let cert = after(steps, cert)?;
    Ok(cert)
}

// The certificate after more steps.
fn after(steps: Vec<Step>, cert: Cert) -> Result<Cert, AllocError>
    ensures { IfOk result (λ c. c ≡ after_steps steps.items cert) }
{
    let mut all = Items::from_vec(steps);
    all.append(cert.steps)?;
    Ok(Cert {
        steps: all,
        close: cert.close,
    })
}

// The enumerations of the walls with a single value around a certificate, from the inside out.
fn wrapped(alloc: Global, single: &[Wall], inner: Cert) -> Result<Cert, AllocError>
    requires { AllByRecursion IsSingle single.now }
    ensures good { IfOk result (λ c. (rows : List Row) → AllByRecursion (StandsWall rows) single.now → IsGood (rows ++ map single_row single.now) inner → IsGood rows c) }
    ensures shallow { IfOk result (λ c. (d : ℕ) → 2 ≤ d → IsShallow d inner → IsShallow (d + length single.now) c) }
{
    let mut cert = inner;
    for n in (0..single.len()).rev() {
        let mut members = Vec::with_capacity(alloc, 1)?;
        members.push(cert)?;
        cert = enumeration(alloc, &single[n], members)?;
    }
    Ok(cert)
}
