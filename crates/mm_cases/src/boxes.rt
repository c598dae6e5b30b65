//! What comes of boxes and of cubes.

use crate::case::input_of;
use crate::clauses::clause_of;
use crate::goal::{assigned, goal_of, no_goal};
use crate::settled::{judged, point};
use box_enum::{BoxEnd, boxed, cube, settle};
use cert_kit::Clause;
use std::alloc::{AllocError, Global};

fn settled(alloc: Global, clause: &Clause, turns: u32) -> Result<Vec<u8>, AllocError> {
    let rows = clause.rows.as_slice();
    if rows.len() >= 1 << 31 {
        return Vec::from_slice(alloc, b"no rows");
    }
    let Some(bounds) = boxed(alloc, rows)? else {
        return Vec::from_slice(alloc, b"no box");
    };
    match settle(alloc, rows, &bounds, turns)? {
        BoxEnd::Point(values) => point(alloc, values.as_slice()),
        BoxEnd::Cert(cert) => judged(alloc, "none", clause, &cert),
        BoxEnd::TooWide => Vec::from_slice(alloc, b"too wide"),
    }
}

/// What comes of the box of the rows after the first `; `, parted by `; `, in so many turns as stand before it: `no box`,
/// `too wide`, `none` with an accepted certificate, or `point` and its values.
pub fn end(alloc: Global, input: &str) -> Result<Vec<u8>, AllocError> {
    let Some((turns, rows)) = input.split_once("; ") else {
        return Vec::from_slice(alloc, b"no turns");
    };
    let bytes = input_of(alloc, rows)?;
    let rows = String::from_utf8_lossy(alloc, &bytes)?;
    match (turns.parse::<u32>(), clause_of(alloc, &rows)?) {
        (Ok(turns), Some(clause)) => settled(alloc, &clause, turns),
        _ => Vec::from_slice(alloc, b"no rows"),
    }
}

/// The lines of the first assignment of the goal's cube, parted by `, `, or `none`.
pub fn first(alloc: Global, text: &[u8]) -> Result<Vec<u8>, AllocError> {
    let goal = match goal_of(alloc, text) {
        Ok(goal) => goal,
        Err(why) => return no_goal(alloc, why),
    };
    match cube(alloc, &goal)? {
        Some(a) => assigned(alloc, &goal, &a),
        None => Vec::from_slice(alloc, b"none"),
    }
}
