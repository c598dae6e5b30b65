ghost use Rattle.std.specs.Prelude.{◌≡◌, ◌⊎◌, pos, ◌-ℤ◌, ◌*ℤ◌, ◌<ℤ◌, ◌≤ℤ◌, length, Some, IfSome, IsSome};
ghost use Rattle.std.specs.List.Sorted.{IsStrictlySortedBy};
ghost use Rattle.std.specs.Ordering.{nat_cmp};
ghost use Rattle.mm_num.specs.Small.{IsSmall};
ghost use Rattle.mm_num.specs.Quotient.{floor_quotient};
ghost use Rattle.cut_branch.specs.machine.Scaling.{IsFalseOver, HasFalseCut};

use crate::scaled::{Scaled, small_product, value_over};
use cert_kit::PRow;
use mm_num::floor_div;

/// A row whose cut is false at the point: its number, and its value there.
#[derive(Clone, Copy, Debug)]
struct Found {
    number: u32,
    slack: i128,
}

/// The number of the row with the least value at the point among those whose cuts are false there.
pub(crate) fn own_cut(rows: &[PRow], vars: &[u32], at: &Scaled) -> Option<u32>
    requires rising { IsStrictlySortedBy nat_cmp vars.now }
    requires each { length at.now.nums.items ≡ length vars.now }
    requires positive { pos 0 <ℤ at.now.den }
    requires small { IsSmall at.now.den }
    ensures { IfSome result (HasFalseCut rows.now vars.now at.now) }
{
    let mut best = None;
    for (place, row) in rows.iter().enumerate() {
        if let Some(slack) = false_cut(row, vars, at) {
            best = tighter(best, place, slack);
        }
    }
    match best {
        Some(found) => Some(found.number),
        None => None,
    }
}

// What was found, or the row at this place where its slack is less and its number fits.
fn tighter(best: Option<Found>, place: usize, slack: i128) -> Option<Found>
    ensures { (result ≡ best) ⊎ (result ≡ Some (record { number = place; slack = slack })) }
{
    let Ok(number) = u32::try_from(place) else {
        return best;
    };
    match best {
        Some(found) if found.slack <= slack => Some(found),
        _ => Some(Found { number, slack }),
    }
}

/// The row's value at the point, as a numerator over the denominator, where the row's cut is false there: where it is
/// less than what rounding takes off the constant.
pub(crate) fn false_cut(row: &PRow, vars: &[u32], at: &Scaled) -> Option<i128>
    requires rising { IsStrictlySortedBy nat_cmp vars.now }
    requires each { length at.now.nums.items ≡ length vars.now }
    requires positive { pos 0 <ℤ at.now.den }
    requires small { IsSmall at.now.den }
    ensures { IsSome result → IsFalseOver vars.now at.now row.now }
{
    let divisor = row.poly.content();
    if divisor <= 1 {
        return None;
    }
    let rest = remainder(row.poly.constant_term(), divisor);
    let slack = value_over(&row.poly, vars, at)?;
    if slack < small_product(rest, at.den)? {
        Some(slack)
    } else {
        None
    }
}

// What rounding a number down to a multiple of the divisor takes off.
fn remainder(number: i128, divisor: i128) -> i128
    requires small { IsSmall number }
    requires small_divisor { IsSmall divisor }
    requires positive { pos 1 ≤ℤ divisor }
    ensures value { result ≡ number -ℤ divisor *ℤ floor_quotient number divisor }
    ensures small { IsSmall result }
{
    number - divisor * floor_div(number, divisor)
}
