ghost use Rattle.std.specs.Prelude.{◌≡◌, IfOk, [], ◌∷◌, map};
ghost use Rattle.fm_elim.specs.Unknowns.{unknowns};
ghost use Rattle.fm_elim.specs.Points.{AreLinear, AreRows};

use cert_kit::{PRow, variables};
use mm_poly::Mono;
use std::alloc::{AllocError, Global};

/// The unknowns of linear rows: each variable alone, rising.
pub fn linear_unknowns(alloc: Global, rows: &[PRow]) -> Result<Vec<Mono>, AllocError>
    requires { AreLinear rows.now }
    ensures { IfOk result (λ us. us.items ≡ unknowns rows.now) }
{
    are_rows(rows);
    let vars = variables(alloc, rows)?;
    each_alone(alloc, &vars)
}

fn each_alone(alloc: Global, vars: &[u32]) -> Result<Vec<Mono>, AllocError>
    ensures { IfOk result (λ us. us.items ≡ map (λ v. (v, 1) ∷ []) vars.now) }
{
    let mut alone = Vec::with_capacity(alloc, vars.len())?;
    for var in vars {
        alone.push(Mono::var(alloc, *var)?)?;
    }
    Ok(alone)
}

// Each polynomial is within the limits, since it is a `Poly`.
fn are_rows(rows: &[PRow])
    ensures { AreRows rows.now }
{
    for row in rows {
        prove!(row.poly.spread() <= 65_536);
    }
}
