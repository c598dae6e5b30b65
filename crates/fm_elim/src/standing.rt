ghost use Rattle.std.specs.Prelude.{◌≡◌, ◌<◌, length, ◌∷◌, [], true, slice_get, Some, IfOk};
ghost use Rattle.fm_elim.specs.declared.live.Live.{Live as ALive};
ghost use Rattle.std.specs.List.{AllByRecursion};
ghost use Rattle.fm_elim.specs.Tidy.{tidied};
ghost use Rattle.fm_elim.specs.Steps.{halved};
ghost use Rattle.fm_elim.specs.machine.Sides.{IsSide, sides_of, sums_of};
ghost use Rattle.fm_elim.specs.machine.Halves.{half_of, other_half_of, parts_at};
ghost use Rattle.cert_kit.specs.declared.row.Op.TheVariants.{Eq as IsEquality};
ghost use Rattle.fm_elim.specs.machine.Logging.{IsLive, IsLiveSide, IsLogged, Logs, LogsStep};
ghost use Rattle.fm_elim.specs.machine.Tidying.{rows_of, AreStanding, Goes, StepsTo, then_tidied};

use crate::kept::Kept;
use crate::live::Live;
use crate::log::Log;
use crate::pairs::{pairs_have_room, take_all_sums};
use crate::sides::Side;
use crate::source::Combination;
use crate::stepped::Stepped;
use cert_kit::{Op, PRow};
use mm_poly::Mono;
use std::alloc::{AllocError, Global};

/// The rows without an unknown and the sums of its pairs, tidied.
pub fn eliminate(
    alloc: Global,
    log: &mut Log<'_>,
    without: Vec<Live>,
    lowers: &[Side],
    uppers: &[Side],
    unknown: &Mono,
) -> Result<Stepped, AllocError>
    requires lowers { AllByRecursion (IsSide unknown.now) lowers.now }
    requires uppers { AllByRecursion (IsSide unknown.now) uppers.now }
    requires tidy { AreStanding (rows_of without.items) }
    requires logged { IsLogged log.old without.items }
    requires live_lowers { AllByRecursion (IsLiveSide log.old) lowers.now }
    requires live_uppers { AllByRecursion (IsLiveSide log.old) uppers.now }
    ensures rows { IfOk result (λ s. StepsTo s (then_tidied (sums_of unknown.now (rows_of without.items) (sides_of lowers.now) (sides_of uppers.now)))) }
    ensures logged { IfOk result (λ s. LogsStep s log.old log.new) }
{
    if !pairs_have_room(unknown, lowers, uppers) {
        return Ok(Stepped::Over);
    }
    let mut kept = Kept::standing(without);
    if take_all_sums(alloc, &mut kept, log, unknown, lowers, uppers)? {
        return Ok(Stepped::Contra);
    }
    Ok(kept.end())
}

/// The rows with the equality at a place as two inequalities, tidied.
pub fn halve(
    alloc: Global,
    log: &mut Log<'_>,
    rows: Vec<Live>,
    place: usize,
) -> Result<Stepped, AllocError>
    requires place { place < length rows.items }
    requires equality { (live : ALive) → slice_get rows.items place ≡ Some live → live.row.op ≡ IsEquality }
    requires logged { IsLogged log.old rows.items }
    ensures rows { IfOk result (λ s. StepsTo s (tidied (halved place (rows_of rows.items)))) }
    ensures logged { IfOk result (λ s. LogsStep s log.old log.new) }
{
    let mut kept = Kept::new(alloc);
    let mut n = 0;
    for live in rows {
        if take_parts(alloc, &mut kept, log, live, n == place)? {
            return Ok(Stepped::Contra);
        }
        n += 1;
    }
    Ok(kept.end())
}

// Takes a row, or both of its halves, and answers whether a cut was found that is constant and false.
fn take_parts(
    alloc: Global,
    kept: &mut Kept,
    log: &mut Log<'_>,
    live: Live,
    is_halved: bool,
) -> Result<bool, AllocError>
    requires logged { IsLogged log.old kept.old.rows.items }
    requires live { IsLive log.old live }
    requires equality { is_halved ≡ true → live.row.op ≡ IsEquality }
    ensures goes { IfOk result (λ found. Goes found kept.old kept.new (parts_at is_halved live.row)) }
    ensures logged { IfOk result (λ found. Logs found log.old log.new kept.new.rows.items) }
{
    if !is_halved {
        kept.keep(log, live)?;
        return Ok(false);
    }
    let found = take_halves(alloc, kept, log, live)?;
    Ok(found)
}

fn take_halves(
    alloc: Global,
    kept: &mut Kept,
    log: &mut Log<'_>,
    live: Live,
) -> Result<bool, AllocError>
    requires logged { IsLogged log.old kept.old.rows.items }
    requires live { IsLive log.old live }
    requires equality { live.row.op ≡ IsEquality }
    ensures goes { IfOk result (λ found. Goes found kept.old kept.new (half_of live.row ∷ other_half_of live.row ∷ [])) }
    ensures logged { IfOk result (λ found. Logs found log.old log.new kept.new.rows.items) }
{
    let other = PRow {
        poly: live.row.poly.copy(alloc)?.negated(),
        op: Op::Ge,
    };
    let half = PRow {
        poly: live.row.poly,
        op: Op::Ge,
    };
    if kept.take(alloc, log, half, Combination::Half(live.number))? {
        return Ok(true);
    }
    let found = kept.take(alloc, log, other, Combination::OtherHalf(live.number))?;
    Ok(found)
}
