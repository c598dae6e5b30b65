ghost use Rattle.std.specs.Prelude.{◌≡◌, ℕ, ℤ, ◌^◌, ◌*◌, ◌<◌, ◌≤◌, ◌+◌, [], ◌∷◌, ◌++◌, List, max, map, length, true, false, Some, IfOk, IfSome, IsNone};
ghost use Rattle.std.specs.List.{All, list_all};
ghost use Rattle.mm_poly.specs.Poly.{HasPlaces};
ghost use Rattle.mm_poly.specs.Point.{greatest_magnitude, value_bound, point_of};
ghost use Rattle.cert_kit.specs.Row.{row_holds};
ghost use Rattle.box_enum.specs.Box.{box_of, count_of, reach_of, is_modest, first_point};
ghost use Rattle.box_enum.specs.machine.Edges.{side_at, sides_at, IsSmallEdge};
ghost use Rattle.box_enum.specs.machine.Searching.{IsWaiting, IsPassed, waits_hold, first_from, first_value, Finds};

use crate::edge::{Edge, has_no_value, reach};
use crate::waiting::{Waiting, all_waiting, by_due};
use cert_kit::{Op, PRow, variables};
use sqlite_items::Items;
use std::alloc::{AllocError, Global};

/// The first point of a box that solves the rows, where there is one.
pub(crate) fn search_box(
    alloc: Global,
    rows: &[PRow],
    edges: &[Edge],
) -> Result<Option<Items<i128>>, AllocError>
    requires boxed { box_of rows.now ≡ Some (sides_at edges.now) }
    requires few { length edges.now ≤ 2048 }
    requires modest { list_all (is_modest (reach_of (sides_at edges.now))) rows.now ≡ true }
    requires small { All IsSmallEdge edges.now }
    ensures { IfOk result (λ found. found ≡ first_point rows.now) }
{
    if has_no_value(edges) {
        return Ok(None);
    }
    let vars = variables(alloc, rows)?;
    let placed = all_waiting(alloc, rows, &vars)?;
    let waiting = by_due(placed);
    let mut chosen = Vec::with_capacity(alloc, edges.len())?;
    let found = search(&waiting, edges, reach(edges), &mut chosen)?;
    if found {
        Ok(Some(Items::from_vec(chosen)))
    } else {
        Ok(None)
    }
}

// Searches the box for the first point that goes on from the chosen values and solves the rows: whether there is one,
// which is then what is chosen.
#[cycle(searching)]
fn search(
    rows: &[Waiting],
    edges: &[Edge],
    reach: u128,
    chosen: &mut Vec<i128>,
) -> Result<bool, AllocError>
    requires waiting { All (IsWaiting (length chosen.old.items + length edges.now) reach) rows.now }
    requires within { max (greatest_magnitude chosen.old.items) (reach_of (sides_at edges.now)) ≤ reach }
    requires small { reach < 2 ^ 126 }
    ensures { IfOk result (λ found. Finds found (first_from rows.now chosen.old.items (sides_at edges.now)) chosen.old.items chosen.new.items) }
{
    let Some(passed) = passing(rows, chosen, chosen.len() + edges.len(), reach) else {
        return Ok(false);
    };
    let left = &rows[passed..];
    let [edge, later @ ..] = edges else {
        return Ok(true);
    };
    let found = search_values(left, edge, later, reach, chosen)?;
    Ok(found)
}

// The same for the values of one side after another.
#[cycle(searching)]
fn search_values(
    rows: &[Waiting],
    edge: &Edge,
    later: &[Edge],
    reach: u128,
    chosen: &mut Vec<i128>,
) -> Result<bool, AllocError>
    requires waiting { All (IsWaiting (length chosen.old.items + 1 + length later.now) reach) rows.now }
    requires within { max (greatest_magnitude chosen.old.items) (reach_of (side_at edge.now ∷ sides_at later.now)) ≤ reach }
    requires small { reach < 2 ^ 126 }
    ensures { IfOk result (λ found. Finds found (first_value (λ z. first_from rows.now (chosen.old.items ++ z ∷ []) (sides_at later.now)) edge.now.low (count_of (side_at edge.now))) chosen.old.items chosen.new.items) }
{
    let level = chosen.len();
    let mut value = edge.low;
    while value <= edge.high {
        chosen.push(value)?;
        if search(rows, later, reach, chosen)? {
            return Ok(true);
        }
        chosen.truncate(level);
        value += 1;
    }
    Ok(false)
}

// How many rows from the first on are due and hold; none where one that is due doesn't hold.
fn passing(rows: &[Waiting], chosen: &[i128], places: usize, reach: u128) -> Option<usize>
    requires waiting { All (IsWaiting places reach) rows.now }
    requires within { greatest_magnitude chosen.now ≤ reach }
    ensures none { IsNone result → (zs : List ℤ) → waits_hold rows.now (chosen.now ++ zs) ≡ false }
    ensures some { IfSome result (IsPassed rows.now chosen.now) }
{
    let _ = (places, reach);
    for (n, waiting) in rows.iter().enumerate() {
        if waiting.due > chosen.len() {
            return Some(n);
        }
        if !holds(&waiting.row, chosen) {
            return None;
        }
    }
    Some(rows.len())
}

// Whether a row holds at a point that has a place for each variable.
fn holds(row: &PRow, point: &[i128]) -> bool
    requires places { HasPlaces (length point.now) row.now.poly }
    requires small { value_bound row.now.poly point.now < 2 ^ 126 }
    ensures { result ≡ row_holds (point_of point.now) row.now }
{
    let value = row.poly.value_within(point);
    match row.op {
        Op::Ge => value >= 0,
        Op::Eq => value == 0,
    }
}
