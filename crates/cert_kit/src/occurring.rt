ghost use Rattle.std.specs.Prelude.{◌≡◌, ◌++◌, IfOk, OnOk};
ghost use Rattle.cert_kit.specs.Variables.{mono_variables, poly_variables, variables_of};

use crate::row::PRow;
use mm_poly::Poly;
use std::alloc::{AllocError, Global};

/// The variables that occur in rows, rising.
pub fn variables(alloc: Global, rows: &[PRow]) -> Result<Vec<u32>, AllocError>
    ensures { IfOk result (λ vars. vars.items ≡ variables_of rows.now) }
{
    let mut vars = Vec::new(alloc);
    for row in rows {
        push_variables(&mut vars, &row.poly)?;
    }
    vars.sort_unstable();
    vars.dedup();
    Ok(vars)
}

/// The variables that occur in a polynomial, as they stand, pushed at the end.
pub fn push_variables(vars: &mut Vec<u32>, poly: &Poly) -> Result<(), AllocError>
    ensures { OnOk result (vars.new.items ≡ vars.old.items ++ poly_variables poly.now) }
{
    let terms = poly.terms();
    for term in terms {
        push_factors(vars, term.mono.factors())?;
    }
    Ok(())
}

fn push_factors(vars: &mut Vec<u32>, factors: &[(u32, u8)]) -> Result<(), AllocError>
    ensures { OnOk result (vars.new.items ≡ vars.old.items ++ mono_variables factors.now) }
{
    for factor in factors {
        vars.push(factor.0)?;
    }
    Ok(())
}
