//! Rows, each on a line.

ghost use Rattle.std.specs.Prelude.{◌≡◌, ℕ, IfOk};
ghost use Rattle.std.specs.Option.{option_map};
ghost use Rattle.cert_text.specs.Place.{FindsRow};
ghost use Rattle.cert_text.specs.Reading.{Gives, op_at, row_at, rows_at};

use crate::fail::TextFail;
use crate::polynomial::polynomial;
use crate::word::{front_length, skip, strip};
use cert_kit::{Op, PRow};
use std::alloc::{AllocError, Global};

// How a row compares to 0, up to the end of its line, and what follows it.
#[tactic(auto, unfolding(crate::specs::Reading::op_at))]
fn op(bytes: &[u8]) -> Result<(Op, &[u8]), TextFail>
    ensures { Gives (λ x. (x.0, x.1.now)) result (op_at bytes.now) }
{
    if let Some(rest) = strip(bytes, b" >= 0\n") {
        return Ok((Op::Ge, rest));
    }
    let rest = skip(bytes, b" = 0\n")?;
    Ok((Op::Eq, rest))
}

// A row's line, and what follows it.
#[tactic(auto, unfolding(crate::specs::Reading::row_at))]
fn row(alloc: Global, bytes: &[u8]) -> Result<(PRow, &[u8]), TextFail>
    ensures { Gives (λ x. (x.0, x.1.now)) result (row_at bytes.now) }
{
    let line = skip(bytes, b"row ")?;
    let (poly, rest) = polynomial(alloc, line)?;
    let (op, rest) = op(rest)?;
    Ok((PRow { poly, op }, rest))
}

// The row's line at the front of the bytes, if there is one, and what follows it.
fn next_row(alloc: Global, bytes: &[u8]) -> Result<Option<(PRow, &[u8])>, AllocError>
    ensures { IfOk result (λ o. option_map (λ x. (x.0, x.1.now)) o ≡ row_at bytes.now) }
{
    match row(alloc, bytes) {
        Ok(next) => Ok(Some(next)),
        Err(TextFail::Bad) => Ok(None),
        Err(TextFail::NoMemory) => Err(AllocError),
    }
}

/// The line of a row at the front of the bytes, as the row and its length with the line feed: none where no such line
/// stands there.
#[tactic(auto, using(crate::proofs::FoundLaws::row_short, crate::proofs::FoundLaws::row_missing))]
pub fn read_row_line(alloc: Global, bytes: &[u8]) -> Result<Option<(PRow, usize)>, AllocError>
    ensures { IfOk result (FindsRow bytes.now) }
{
    match next_row(alloc, bytes)? {
        Some((row, rest)) => Ok(Some((row, front_length(bytes, rest)))),
        None => Ok(None),
    }
}

/// At most this many lines of rows, as many as there are, and what follows them.
pub fn rows(alloc: Global, most: u32, bytes: &[u8]) -> Result<(Vec<PRow>, &[u8]), AllocError>
    ensures { IfOk result (λ x. (x.0.items, x.1.now) ≡ rows_at most bytes.now) }
{
    let mut rows = Vec::new(alloc);
    let mut rest = bytes;
    for _ in 0..most {
        let Some((next, after)) = next_row(alloc, rest)? else {
            return Ok((rows, rest));
        };
        rows.push(next)?;
        rest = after;
    }
    Ok((rows, rest))
}
