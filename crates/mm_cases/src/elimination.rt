//! How eliminations end.

use crate::case::input_of;
use crate::clauses::clause_of;
use crate::settled::{judged, point};
use fm_elim::{Elim, eliminate};
use std::alloc::{AllocError, Global};

/// How the elimination of rows, parted by `; `, ends: `contra`, `point` and its values, `grey` or `over`.
pub fn end(alloc: Global, input: &str) -> Result<Vec<u8>, AllocError> {
    let bytes = input_of(alloc, input)?;
    let rows = String::from_utf8_lossy(alloc, &bytes)?;
    let Some(clause) = clause_of(alloc, &rows)? else {
        return Vec::from_slice(alloc, b"no rows");
    };
    if clause.rows.len() > u32::MAX as usize {
        return Vec::from_slice(alloc, b"no rows");
    }
    match eliminate(alloc, clause.rows.as_slice())? {
        Elim::Contra(cert) => judged(alloc, "contra", &clause, &cert),
        Elim::Point(values) => point(alloc, &values),
        Elim::Grey => Vec::from_slice(alloc, b"grey"),
        Elim::Over => Vec::from_slice(alloc, b"over"),
    }
}
