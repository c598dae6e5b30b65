ghost use Rattle.std.specs.Prelude.{◌≡◌, map, IfOk, true};
ghost use Rattle.std.specs.List.{AllByRecursion, list_all};
ghost use Rattle.fm_elim.specs.Steps.{combined, combined_all, pair_has_room, pairs_have_room};
ghost use Rattle.fm_elim.specs.machine.Sides.{IsSide, sides_of};
ghost use Rattle.fm_elim.specs.machine.Logging.{IsLiveSide, IsLogged, Logs};
ghost use Rattle.fm_elim.specs.machine.Tidying.{Goes};

use crate::kept::Kept;
use crate::log::Log;
use crate::room::{combination, has_room};
use crate::sides::Side;
use crate::source::Combination;
use cert_kit::{Op, PRow};
use mm_poly::Mono;
use std::alloc::{AllocError, Global};

/// Whether the limits leave room for the sum of each pair.
pub fn pairs_have_room(unknown: &Mono, lowers: &[Side], uppers: &[Side]) -> bool
    requires lowers { AllByRecursion (IsSide unknown.now) lowers.now }
    requires uppers { AllByRecursion (IsSide unknown.now) uppers.now }
    ensures { result ≡ pairs_have_room unknown.now (sides_of lowers.now) (sides_of uppers.now) }
{
    for lower in lowers {
        if !has_room_with(unknown, lower, uppers) {
            return false;
        }
    }
    true
}

fn has_room_with(unknown: &Mono, lower: &Side, uppers: &[Side]) -> bool
    requires lower { IsSide unknown.now lower.now }
    requires uppers { AllByRecursion (IsSide unknown.now) uppers.now }
    ensures { result ≡ list_all (pair_has_room unknown.now lower.now.live.row) (sides_of uppers.now) }
{
    for upper in uppers {
        if !pair_has_room(unknown, lower, upper) {
            return false;
        }
    }
    true
}

fn pair_has_room(unknown: &Mono, lower: &Side, upper: &Side) -> bool
    requires lower { IsSide unknown.now lower.now }
    requires upper { IsSide unknown.now upper.now }
    ensures { result ≡ pair_has_room unknown.now lower.now.live.row upper.now.live.row }
{
    let _ = unknown;
    has_room(upper.coeff, lower.size, lower.coeff, upper.size)
}

/// Takes the sum of each pair of a lower row, and answers whether one was found whose cut is constant and false.
pub fn take_sums(
    alloc: Global,
    kept: &mut Kept,
    log: &mut Log<'_>,
    unknown: &Mono,
    lower: &Side,
    uppers: &[Side],
) -> Result<bool, AllocError>
    requires lower { IsSide unknown.now lower.now }
    requires uppers { AllByRecursion (IsSide unknown.now) uppers.now }
    requires room { list_all (pair_has_room unknown.now lower.now.live.row) (sides_of uppers.now) ≡ true }
    requires logged { IsLogged log.old kept.old.rows.items }
    requires live_lower { IsLiveSide log.old lower.now }
    requires live_uppers { AllByRecursion (IsLiveSide log.old) uppers.now }
    ensures goes { IfOk result (λ found. Goes found kept.old kept.new (map (combined unknown.now lower.now.live.row) (sides_of uppers.now))) }
    ensures logged { IfOk result (λ found. Logs found log.old log.new kept.new.rows.items) }
{
    for upper in uppers {
        let sum = sum(alloc, unknown, lower, upper)?;
        let combination = Combination::Pair(
            upper.coeff as i128,
            lower.live.number,
            lower.coeff as i128,
            upper.live.number,
        );
        if kept.take(alloc, log, sum, combination)? {
            return Ok(true);
        }
    }
    Ok(false)
}

// The sum of a pair.
fn sum(alloc: Global, unknown: &Mono, lower: &Side, upper: &Side) -> Result<PRow, AllocError>
    requires lower { IsSide unknown.now lower.now }
    requires upper { IsSide unknown.now upper.now }
    requires room { pair_has_room unknown.now lower.now.live.row upper.now.live.row ≡ true }
    ensures { IfOk result (λ r. r ≡ combined unknown.now lower.now.live.row upper.now.live.row) }
{
    let _ = unknown;
    Ok(PRow {
        poly: combination(
            alloc,
            &lower.live.row.poly,
            upper.coeff as i128,
            &upper.live.row.poly,
            lower.coeff as i128,
        )?,
        op: Op::Ge,
    })
}

/// Takes the sum of each pair, lower row after lower row, and answers whether one was found whose cut is constant and
/// false.
pub fn take_all_sums(
    alloc: Global,
    kept: &mut Kept,
    log: &mut Log<'_>,
    unknown: &Mono,
    lowers: &[Side],
    uppers: &[Side],
) -> Result<bool, AllocError>
    requires lowers { AllByRecursion (IsSide unknown.now) lowers.now }
    requires uppers { AllByRecursion (IsSide unknown.now) uppers.now }
    requires room { pairs_have_room unknown.now (sides_of lowers.now) (sides_of uppers.now) ≡ true }
    requires logged { IsLogged log.old kept.old.rows.items }
    requires live_lowers { AllByRecursion (IsLiveSide log.old) lowers.now }
    requires live_uppers { AllByRecursion (IsLiveSide log.old) uppers.now }
    ensures goes { IfOk result (λ found. Goes found kept.old kept.new (combined_all unknown.now (sides_of lowers.now) (sides_of uppers.now))) }
    ensures logged { IfOk result (λ found. Logs found log.old log.new kept.new.rows.items) }
{
    for lower in lowers {
        if take_sums(alloc, kept, log, unknown, lower, uppers)? {
            return Ok(true);
        }
    }
    Ok(false)
}
