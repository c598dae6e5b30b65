//! The name of a clause.

ghost use Rattle.std.specs.Prelude.{◌≡◌, IfOk};
ghost use Rattle.goal_serve.specs.KeyName.{key_name};

use cert_kit::Clause;
use clause_form::clause_name;
use std::alloc::AllocError;

/// The name of a clause's key. `Err` where a clause has 2^32 rows or more, and so no key.
pub fn key_name(clause: &Clause) -> Result<[u8; 16], AllocError>
    ensures { IfOk result (λ name. name ≡ key_name clause.now) }
{
    if clause.rows.as_slice().len() > u32::MAX as usize {
        return Err(AllocError);
    }
    Ok(clause_name(clause))
}
