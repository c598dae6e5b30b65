ghost use Rattle.std.specs.Prelude.{◌≡◌, ◌++◌, OnOk};
ghost use Rattle.clause_form.specs.machine.Walk.{lent, walk_all, walk, side_of, quotient, remainder, row_at, walk_rows};

use crate::plan::{Part, Plan};
use crate::tally::Tally;
use cert_kit::PRow;
use std::alloc::AllocError;

// Appends the rows of the alternative at a place, among those of all parts together.
pub(crate) fn append_all<'p>(
    parts: &'p [Part],
    place: u64,
    rows: &mut Vec<&'p PRow>,
) -> Result<(), AllocError>
    ensures { OnOk result (lent rows.new.items ≡ lent rows.old.items ++ walk_all parts.now place) }
{
    let mut place = place;
    for part in parts {
        append(part.plan.get(), true, quotient(place, part.others), rows)?;
        place = remainder(place, part.others);
    }
    Ok(())
}

// Appends the rows of the alternative at a place, among those of the formula or of its negation.
fn append<'p>(
    plan: &'p Plan,
    holds: bool,
    place: u64,
    rows: &mut Vec<&'p PRow>,
) -> Result<(), AllocError>
    ensures { OnOk result (lent rows.new.items ≡ lent rows.old.items ++ walk plan.now holds place) }
{
    match plan {
        Plan::Constant(_) => Ok(()),
        Plan::Rows(held, failed) => {
            append_row(held.as_slice(), failed.as_slice(), holds, place, rows)
        }
        Plan::Not(part) => append(part.get(), !holds, place, rows),
        Plan::Both(_, count, first, second) if holds => {
            let number = count.holds;
            append(first.get(), true, quotient(place, number), rows)?;
            append(second.get(), true, remainder(place, number), rows)
        }
        Plan::Both(count, _, first, second) => {
            if place < count.fails {
                append(first.get(), false, place, rows)
            } else {
                append(second.get(), false, place - count.fails, rows)
            }
        }
        Plan::Same(count, other, first, second) => {
            let number = other.side(holds);
            let both = count.holds.saturating_mul(number);
            if place < both {
                append(first.get(), true, quotient(place, number), rows)?;
                append(second.get(), holds, remainder(place, number), rows)
            } else {
                let rest = place - both;
                let number = other.side(!holds);
                append(first.get(), false, quotient(rest, number), rows)?;
                append(second.get(), !holds, remainder(rest, number), rows)
            }
        }
    }
}

fn append_row<'p>(
    held: &'p [PRow],
    failed: &'p [PRow],
    holds: bool,
    place: u64,
    rows: &mut Vec<&'p PRow>,
) -> Result<(), AllocError>
    ensures { OnOk result (lent rows.new.items ≡ lent rows.old.items ++ walk_rows held.now failed.now holds place) }
{
    if holds {
        append_at(held, place, rows)
    } else {
        append_at(failed, place, rows)
    }
}

fn append_at<'p>(from: &'p [PRow], place: u64, rows: &mut Vec<&'p PRow>) -> Result<(), AllocError>
    ensures { OnOk result (lent rows.new.items ≡ lent rows.old.items ++ row_at from.now place) }
{
    let place = place as usize;
    if place >= from.len() {
        return Ok(());
    }
    rows.push(&from[place])?;
    Ok(())
}

fn quotient(place: u64, number: u64) -> u64
    ensures { result ≡ quotient place number }
{
    if number == 0 { 0 } else { place / number }
}

fn remainder(place: u64, number: u64) -> u64
    ensures { result ≡ remainder place number }
{
    if number == 0 { 0 } else { place % number }
}

impl Tally {
    // The number of alternatives of the formula or of its negation.
    fn side(self, holds: bool) -> u64
        ensures { result ≡ side_of self holds }
    {
        if holds { self.holds } else { self.fails }
    }
}
