ghost use Rattle.std.specs.Prelude.{◌≡◌, ◌↔◌, ◌^◌, ◌<◌, ◌≤◌, length, IfOk, IfSome, IsSome};
ghost use Rattle.std.specs.List.{AllByRecursion};
ghost use Rattle.mm_num.specs.Small.{IsSmall};
ghost use Rattle.cert_kit.specs.Acceptance.{IsGood};
ghost use Rattle.cert_kit.specs.Depth.{cert_depth, MakesCert};
ghost use Rattle.farkas_rows.specs.Combining.{IsFarkas, HasRoom, rows_used, rows_named};
ghost use Rattle.farkas_rows.specs.machine.Parts.{CanCombine};

use crate::balanced::combination;
use crate::room::has_room;
use cert_kit::{Cert, Close, PRow, Step, have_bounds};
use std::alloc::{AllocError, Global};

/// A certificate that rows have no solution, from multipliers (Farkas): one for each row, at least 0 for an
/// inequality, with which the rows sum to a negative constant. None where the sums of norms or of spreads leave no
/// room.
pub fn to_cert(
    alloc: Global,
    rows: &[PRow],
    multipliers: &[i128],
) -> Result<Option<Cert>, AllocError>
    requires rows { length rows.now < 2 ^ 32 }
    requires small { AllByRecursion IsSmall multipliers.now }
    requires farkas { IsFarkas rows.now multipliers.now }
    ensures room { IfOk result (λ found. IsSome found ↔ HasRoom rows.now multipliers.now) }
    ensures good { IfOk result (λ found. IfSome found (IsGood rows.now)) }
    // Each row whose multiple isn't 0 is named once, and no other.
    ensures names { IfOk result (λ found. IfSome found (λ c. rows_named c.steps ≡ rows_used 0 multipliers.now rows.now)) }
    ensures makes { IfOk result (λ found. IfSome found (λ c. MakesCert c.steps c.close)) }
    ensures shallow { IfOk result (λ found. IfSome found (λ c. cert_depth c ≤ 4000)) }
{
    have_bounds(rows);
    if !has_room(rows, multipliers) {
        return Ok(None);
    }
    let cert = certificate(alloc, rows, multipliers)?;
    Ok(Some(cert))
}

// The certificate of one step: the combination, by halves.
fn certificate(alloc: Global, rows: &[PRow], multipliers: &[i128]) -> Result<Cert, AllocError>
    requires rows { length rows.now < 2 ^ 32 }
    requires can { CanCombine rows.now multipliers.now }
    requires farkas { IsFarkas rows.now multipliers.now }
    ensures good { IfOk result (IsGood rows.now) }
    ensures names { IfOk result (λ c. rows_named c.steps ≡ rows_used 0 multipliers.now rows.now) }
    ensures makes { IfOk result (λ c. MakesCert c.steps c.close) }
    ensures shallow { IfOk result (λ c. cert_depth c ≤ 4000) }
{
    let Some(sum) = combination(alloc, rows, multipliers, 0)? else {
        unreachable!()
    };
    let mut steps = Vec::with_capacity(alloc, 1)?;
    steps.push(Step::Rat(sum))?;
    match Cert::make(steps, Close::Done) {
        Ok(cert) => Ok(cert),
        Err(_) => unreachable!(),
    }
}
