ghost use Rattle.std.specs.Prelude.{◌≡◌, ◌+◌, ◌*◌, ◌^◌, ◌<◌, ◌≤◌, ◌*ℤ◌, neg_ℤ, unsigned_abs, pos, true, ◌||◌, ◌∷◌, [], IfOk};
ghost use Rattle.std.specs.Ordering.{int_eq};
ghost use Rattle.mm_num.specs.Small.{IsSmall};
ghost use Rattle.mm_poly.specs.Poly.{coeff_of, norm, spread, plus, scaled};
ghost use Rattle.fm_elim.specs.Unknowns.{coeff_in};
ghost use Rattle.fm_elim.specs.Tidy.{tidied};
ghost use Rattle.fm_elim.specs.Steps.{has_room, substituted, solve_has_room, solved};
ghost use Rattle.cert_kit.specs.declared.row.Op.TheVariants.{Eq as IsEquality};
ghost use Rattle.fm_elim.specs.machine.Logging.{IsLive, IsLogged, Logs, LogsStep};
ghost use Rattle.fm_elim.specs.machine.Tidying.{rows_of, Feeds, StepsTo, then_tidied};

use crate::kept::Kept;
use crate::live::Live;
use crate::log::Log;
use crate::room::{combination, has_room, size_of};
use crate::source::Combination;
use crate::stepped::Stepped;
use cert_kit::PRow;
use mm_poly::{Mono, Poly};
use std::alloc::{AllocError, Global};

/// The other rows without an unknown whose value an equality gives, tidied. Its coefficient there is 1 or -1.
pub fn solve(
    alloc: Global,
    log: &mut Log<'_>,
    others: Vec<Live>,
    equality: &Live,
    unknown: &Mono,
) -> Result<Stepped, AllocError>
    requires unit { unsigned_abs (coeff_of equality.now.row.poly unknown.now) ≡ 1 }
    requires logged { IsLogged log.old others.items }
    requires equality { IsLive log.old equality.now }
    requires equal { equality.now.row.op ≡ IsEquality }
    ensures rows { IfOk result (λ s. StepsTo s (then_tidied (solved unknown.now equality.now.row.poly (rows_of others.items)))) }
    ensures logged { IfOk result (λ s. LogsStep s log.old log.new) }
{
    if !all_have_room(&others, equality, unknown) {
        return Ok(Stepped::Over);
    }
    let mut kept = Kept::new(alloc);
    for live in others {
        if substitute(alloc, &mut kept, log, live, equality, unknown)? {
            return Ok(Stepped::Contra);
        }
    }
    Ok(kept.end())
}

// Whether the limits leave room for the sums that take the unknown out.
fn all_have_room(rows: &[Live], equality: &Live, unknown: &Mono) -> bool
    ensures { result ≡ solve_has_room unknown.now equality.now.row.poly (rows_of rows.now) }
{
    for live in rows {
        if !has_room_with(live, equality, unknown) {
            return false;
        }
    }
    true
}

fn has_room_with(live: &Live, equality: &Live, unknown: &Mono) -> bool
    ensures { result ≡ (int_eq (coeff_in unknown.now live.now.row) (pos 0) || has_room 1 live.now.row.poly (unsigned_abs (coeff_in unknown.now live.now.row)) equality.now.row.poly) }
{
    let coeff = live.row.poly.coefficient(unknown);
    coeff == 0
        || has_room(
            1,
            size_of(&live.row.poly),
            coeff.unsigned_abs(),
            size_of(&equality.row.poly),
        )
}

// Takes a row without the unknown, and answers whether its cut is constant and false.
fn substitute(
    alloc: Global,
    kept: &mut Kept,
    log: &mut Log<'_>,
    live: Live,
    equality: &Live,
    unknown: &Mono,
) -> Result<bool, AllocError>
    requires unit { unsigned_abs (coeff_of equality.now.row.poly unknown.now) ≡ 1 }
    requires room { solve_has_room unknown.now equality.now.row.poly (live.row ∷ []) ≡ true }
    requires logged { IsLogged log.old kept.old.rows.items }
    requires live { IsLive log.old live }
    requires equality { IsLive log.old equality.now }
    requires equal { equality.now.row.op ≡ IsEquality }
    ensures feeds { IfOk result (λ found. Feeds found kept.old kept.new (substituted unknown.now equality.now.row.poly live.row ∷ [])) }
    ensures logged { IfOk result (λ found. Logs found log.old log.new kept.new.rows.items) }
{
    let coeff = live.row.poly.coefficient(unknown);
    if coeff == 0 {
        kept.keep(log, live)?;
        return Ok(false);
    }
    let times = negated_product(coeff, equality.row.poly.coefficient(unknown));
    let row = with_multiple(alloc, &live.row, times, &equality.row.poly)?;
    let combination = Combination::Sum(live.number, times, equality.number);
    let found = kept.take(alloc, log, row, combination)?;
    Ok(found)
}

// A row and a multiple of a polynomial that is 0.
fn with_multiple(alloc: Global, row: &PRow, times: i128, zero: &Poly) -> Result<PRow, AllocError>
    requires norm { norm row.now.poly * 1 + norm zero.now * unsigned_abs times < 2 ^ 126 }
    requires spread { spread row.now.poly + spread zero.now ≤ 65536 }
    ensures { IfOk result (λ r. r ≡ record { poly = plus row.now.poly (scaled times zero.now); op = row.now.op }) }
{
    let _ = row.poly.spread();
    Ok(PRow {
        poly: combination(alloc, &row.poly, 1, zero, times)?,
        op: row.op,
    })
}

/// The negation of a number times 1 or -1.
pub fn negated_product(number: i128, sign: i128) -> i128
    requires number { unsigned_abs number < 2 ^ 126 }
    requires sign { unsigned_abs sign ≡ 1 }
    ensures value { result ≡ neg_ℤ (number *ℤ sign) }
    ensures magnitude { unsigned_abs result ≡ unsigned_abs number }
    ensures small { IsSmall result }
{
    if sign > 0 { -number } else { number }
}
