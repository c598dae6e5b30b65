ghost use Rattle.std.specs.Prelude.{◌≡◌, ◌+◌, ◌<◌, ◌≤◌, ◌^◌, IfOk, length};
ghost use Rattle.std.specs.List.{AllByRecursion};
ghost use Rattle.mm_num.specs.Small.{IsSmall};
ghost use Rattle.cert_kit.specs.Acceptance.{IsGood};
ghost use Rattle.cert_kit.specs.Depth.{cert_depth, MakesCert};
ghost use Rattle.fm_elim.specs.Unknowns.{unknowns as unknowns_of};
ghost use Rattle.farkas_rows.specs.Combining.{IsFarkas, HasRoom};
ghost use Rattle.simplex_core.specs.Solved as ends;
ghost use Rattle.relaxation.specs.Relaxing.{IsRationalPoint, IsRefutable, IfCert, IfPoint, IsCert};
ghost use Rattle.relaxation.specs.machine.Ending.{IsRefuting};

use crate::linear::forms;
use crate::reach::{are_narrow, is_in_reach};
use crate::relaxed::{Relaxation, Relaxed};
use cert_kit::{PRow, have_bounds};
use farkas_rows::to_cert;
use mm_poly::Mono;
use simplex_core::{Solved, solve_within};
use std::alloc::{AllocError, Global};

// The simplex numbers its variables in 32 bits.
const MOST_VARIABLES: usize = 4294967296;

/// Solves or refutes the rows over the rationals, by at most so many pivots of a simplex.
///
/// The unknowns are those of the rows, in monomial order. It isn't tried where its tableau would be large and there are
/// more candidate bases than turns, nor where a number is 2^30 or more.
pub fn relax(
    alloc: Global,
    rows: &[PRow],
    unknowns: &[Mono],
    turns: u32,
) -> Result<Relaxation, AllocError>
    requires unknowns { unknowns.now ≡ unknowns_of rows.now }
    requires rows { length rows.now < 2 ^ 32 }
    ensures good { IfOk result (λ r. IfCert (IsGood rows.now) r.relaxed) }
    ensures makes { IfOk result (λ r. IfCert (λ c. MakesCert c.steps c.close) r.relaxed) }
    ensures shallow { IfOk result (λ r. IfCert (λ c. cert_depth c ≤ 4000) r.relaxed) }
    ensures point { IfOk result (λ r. IfPoint (IsRationalPoint rows.now) r.relaxed) }
    // Where the turns are at least the candidate bases, and the numbers of these small, rows without rational solution
    // have a certificate.
    ensures refuted { IsRefutable turns rows.now → IfOk result (λ r. IsCert r.relaxed) }
    ensures left { IfOk result (λ r. r.left ≤ turns) }
{
    if unknowns.len() + rows.len() >= MOST_VARIABLES {
        return Ok(open(turns));
    }
    if !is_in_reach(unknowns.len(), rows.len(), turns) {
        return Ok(open(turns));
    }
    have_bounds(rows);
    let forms = forms(alloc, rows, unknowns)?;
    if !are_narrow(&forms) {
        return Ok(open(turns));
    }
    let walked = solve_within(alloc, &forms, turns)?;
    let relaxed = ended(alloc, rows, turns, walked.solved)?;
    Ok(Relaxation {
        relaxed,
        left: walked.left,
    })
}

fn open(turns: u32) -> Relaxation
    ensures relaxed { result.relaxed ≡ Relaxed.Open }
    ensures left { result.left ≡ turns }
{
    Relaxation {
        relaxed: Relaxed::Open,
        left: turns,
    }
}

// What the simplex's end says of the rows.
fn ended(alloc: Global, rows: &[PRow], turns: u32, solved: Solved) -> Result<Relaxed, AllocError>
    requires rows { length rows.now < 2 ^ 32 }
    requires small { ends.IfFarkas (AllByRecursion IsSmall) solved }
    requires farkas { ends.IfFarkas (IsFarkas rows.now) solved }
    requires room { IsRefutable turns rows.now → ends.IfFarkas (HasRoom rows.now) solved }
    requires point { ends.IfPoint (IsRationalPoint rows.now) solved }
    requires refuted { IsRefutable turns rows.now → IsRefuting solved }
    ensures good { IfOk result (IfCert (IsGood rows.now)) }
    ensures makes { IfOk result (IfCert (λ c. MakesCert c.steps c.close)) }
    ensures shallow { IfOk result (IfCert (λ c. cert_depth c ≤ 4000)) }
    ensures point { IfOk result (IfPoint (IsRationalPoint rows.now)) }
    ensures refuted { IsRefutable turns rows.now → IfOk result IsCert }
{
    let _ = turns;
    match solved {
        Solved::Farkas(multipliers) => match to_cert(alloc, rows, &multipliers)? {
            Some(cert) => Ok(Relaxed::Cert(cert)),
            None => Ok(Relaxed::Open),
        },
        Solved::Point(values) => Ok(Relaxed::Point(values)),
        Solved::Turns(_) | Solved::Size(_) => Ok(Relaxed::Open),
    }
}
