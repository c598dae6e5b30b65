ghost use Rattle.std.specs.Prelude.{◌≡◌, IfOk};

use crate::cert::{Cert, Step};
use crate::row::{Clause, PRow};
use sqlite_items::Items;
use std::alloc::{AllocError, Global};

impl Clause {
    /// The rows, moved into a list of their own.
    pub fn into_rows(self, alloc: Global) -> Result<Vec<PRow>, AllocError>
        ensures { IfOk result (λ rows. rows.items ≡ self.rows) }
    {
        moved(alloc, self.rows)
    }
}

impl Cert {
    /// The steps, moved into a list of their own.
    pub fn into_steps(self, alloc: Global) -> Result<Vec<Step>, AllocError>
        ensures { IfOk result (λ steps. steps.items ≡ self.steps) }
    {
        moved(alloc, self.steps)
    }
}

// The items, each moved.
fn moved<T: Drop>(alloc: Global, mut items: Items<T>) -> Result<Vec<T>, AllocError>
    ensures { IfOk result (λ v. v.items ≡ items) }
{
    let mut out = Vec::with_capacity(alloc, items.len())?;
    while let Some(item) = items.pop() {
        out.push(item)?;
    }
    out.reverse();
    Ok(out)
}
