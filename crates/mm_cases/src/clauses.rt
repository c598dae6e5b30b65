//! The clauses of goals, their keys and the names of these.

use crate::algebra::read;
use crate::goal::{goal_of, no_goal};
use crate::translated::refusal;
use cert_kit::{Clause, PRow};
use cert_text::print_row;
use clause_form::{ClauseFail, Named, clause_name, clauses, key};
use std::alloc::{AllocError, Global};
use std::cmp::Ordering;
use zify::zify;

// The goal's variables at the places of the clause's own, and the rows.
fn push_clause(alloc: Global, out: &mut Vec<u8>, named: &Named) -> Result<(), AllocError> {
    let mut before = "[";
    for variable in named.vars.as_slice() {
        out.extend_from_slice(format!(in alloc; "{before}{variable}")?.as_bytes())?;
        before = " ";
    }
    out.extend_from_slice(if before == "[" { b"[]" } else { b"]" })?;
    let mut before = " ";
    for row in named.clause.rows.as_slice() {
        out.extend_from_slice(before.as_bytes())?;
        out.extend_from_slice(print_row(alloc, row)?.as_slice())?;
        before = "; ";
    }
    Ok(())
}

fn text_of(alloc: Global, list: &[Named]) -> Result<Vec<u8>, AllocError> {
    let mut out = Vec::new(alloc);
    for named in list {
        if !out.is_empty() {
            out.extend_from_slice(b" | ")?;
        }
        push_clause(alloc, &mut out, named)?;
    }
    if out.is_empty() {
        out.extend_from_slice(b"none")?;
    }
    Ok(out)
}

/// The clauses of the goal, parted by ` | `, or how many there are where that is too many.
pub fn answer(alloc: Global, text: &[u8]) -> Result<Vec<u8>, AllocError> {
    let goal = match goal_of(alloc, text) {
        Ok(goal) => goal,
        Err(why) => return no_goal(alloc, why),
    };
    let z = match zify(alloc, &goal) {
        Ok(z) => z,
        Err(why) => return refusal(alloc, why),
    };
    match clauses(alloc, &z) {
        Ok(list) => text_of(alloc, &list),
        Err(ClauseFail::Splits(number)) => Ok(format!(in alloc; "splits {number}")?.into_bytes()),
        Err(ClauseFail::NoMemory) => Err(AllocError),
    }
}

/// The clause of these rows, parted by `; `, if they are rows.
pub fn clause_of(alloc: Global, rows: &str) -> Result<Option<Clause>, AllocError> {
    let mut text = String::new(alloc);
    for row in rows.split("; ") {
        if !row.is_empty() {
            text.push_str("row ")?;
            text.push_str(row)?;
            text.push_str("\n")?;
        }
    }
    text.push_str("cert done\n")?;
    Ok(read(alloc, text.as_bytes())?.map(|check| check.0))
}

// The bytes of the clause's key, if the rows are a clause and fewer than 2^32.
fn key_of(alloc: Global, rows: &str) -> Result<Option<Vec<u8>>, AllocError> {
    let Some(clause) = clause_of(alloc, rows)? else {
        return Ok(None);
    };
    if clause.rows.len() > u32::MAX as usize {
        return Ok(None);
    }
    Ok(Some(key(alloc, &clause)?))
}

/// The key of the clause of these rows, in hexadecimal.
pub fn key_text(alloc: Global, rows: &str) -> Result<Vec<u8>, AllocError> {
    let Some(bytes) = key_of(alloc, rows)? else {
        return Vec::from_slice(alloc, b"no rows");
    };
    let mut out = String::new(alloc);
    for byte in bytes {
        out.push_str(format!(in alloc; "{byte:02x}")?.as_str())?;
    }
    Ok(out.into_bytes())
}

/// The name of the key of the clause of these rows, after the number of the key's bytes.
pub fn name(alloc: Global, rows: &str) -> Result<Vec<u8>, AllocError> {
    let Some(clause) = clause_of(alloc, rows)? else {
        return Vec::from_slice(alloc, b"no rows");
    };
    if clause.rows.len() > u32::MAX as usize {
        return Vec::from_slice(alloc, b"no rows");
    }
    let length = key(alloc, &clause)?.len();
    let name = clause_name(&clause);
    let mut out = format!(in alloc; "{length} ")?.into_bytes();
    out.extend_from_slice(&name)?;
    Ok(out)
}

fn word_of(order: Ordering) -> &'static [u8] {
    match order {
        Ordering::Less => b"less",
        Ordering::Equal => b"equal",
        Ordering::Greater => b"greater",
    }
}

fn compared(rows: &[PRow]) -> &'static [u8] {
    match rows {
        [first, second] => word_of(first.order(second)),
        _ => b"not two rows",
    }
}

/// How two rows, parted by `; `, compare.
pub fn row_order(alloc: Global, rows: &str) -> Result<Vec<u8>, AllocError> {
    match clause_of(alloc, rows)? {
        Some(clause) => Vec::from_slice(alloc, compared(clause.rows.as_slice())),
        None => Vec::from_slice(alloc, b"no rows"),
    }
}
