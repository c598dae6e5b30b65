//! The simplex, asked by rows: `TURNS; ROW; ROW`, a row being `>= 1 -2 : 3` or `= ..` for the coefficients and the constant.

ghost use Rattle.std.specs.Prelude.{◌≡◌, ◌<◌, ◌^◌, ◌↔◌, IsTrue, IfOk, IfSome, length};
ghost use Rattle.std.specs.List.{All};
ghost use Rattle.mm_num.specs.Small.{IsSmall};
ghost use Rattle.simplex_core.specs.Rows.{AreWide, IsSmallRow, AreSmall};

use mm_num::Frac;
use simplex_core::{LinRow, Pivot, Solved, solve};
use std::alloc::{AllocError, Global};

fn is_small(a: i128) -> bool
    ensures { IsTrue result ↔ IsSmall a }
{
    a.unsigned_abs() < 1 << 126
}

// The numbers, parted by blanks, if each is one and small.
fn numbers_of(alloc: Global, words: &str) -> Result<Option<Vec<i128>>, AllocError>
    ensures { IfOk result (λ found. IfSome found (λ ns. All IsSmall ns.items)) }
{
    let mut numbers = Vec::new(alloc);
    for word in words.split_whitespace() {
        let Ok(number) = word.parse::<i128>() else {
            return Ok(None);
        };
        if !is_small(number) {
            return Ok(None);
        }
        numbers.push(number)?;
    }
    Ok(Some(numbers))
}

// A row of so many coefficients, if it is one.
fn row_of(alloc: Global, text: &str, width: usize) -> Result<Option<LinRow>, AllocError>
    ensures wide { IfOk result (λ found. IfSome found (λ r. length r.coeffs.items ≡ width)) }
    ensures small { IfOk result (λ found. IfSome found IsSmallRow) }
{
    let Some((sign, numbers)) = text.split_once(' ') else {
        return Ok(None);
    };
    let Some((left, right)) = numbers.split_once(':') else {
        return Ok(None);
    };
    let Ok(constant) = right.trim().parse::<i128>() else {
        return Ok(None);
    };
    let Some(coeffs) = numbers_of(alloc, left)? else {
        return Ok(None);
    };
    if coeffs.len() != width || !is_small(constant) {
        return Ok(None);
    }
    Ok(Some(LinRow {
        coeffs,
        constant,
        equal: sign == "=",
    }))
}

// How many coefficients the first row has.
fn width_of(text: &str) -> usize {
    match text.split_once(':') {
        Some((left, _)) => left.split_whitespace().count().saturating_sub(1),
        None => 0,
    }
}

// The rows, parted by `; `, if each is one and all have as many coefficients as the first.
fn rows_of(alloc: Global, text: &str, width: usize) -> Result<Option<Vec<LinRow>>, AllocError>
    ensures wide { IfOk result (λ found. IfSome found (λ rows. AreWide width rows.items)) }
    ensures small { IfOk result (λ found. IfSome found (λ rows. AreSmall rows.items)) }
{
    let mut rows = Vec::new(alloc);
    for part in text.split("; ") {
        if part.is_empty() {
            continue;
        }
        let Some(row) = row_of(alloc, part, width)? else {
            return Ok(None);
        };
        rows.push(row)?;
    }
    Ok(Some(rows))
}

// What the simplex answers, if there is room for its variables.
fn solved(
    alloc: Global,
    rows: &[LinRow],
    width: usize,
    turns: u32,
) -> Result<Option<Solved>, AllocError>
    requires wide { AreWide width rows.now }
    requires small { AreSmall rows.now }
{
    if width >= 1 << 31 || rows.len() >= 1 << 31 {
        return Ok(None);
    }
    Ok(Some(solve(alloc, rows, turns)?))
}

fn push_fraction(alloc: Global, out: &mut Vec<u8>, x: &Frac) -> Result<(), AllocError> {
    let num = x.num();
    let den = x.den();
    let text = if den == 1 {
        format!(in alloc; " {num}")?
    } else {
        format!(in alloc; " {num}/{den}")?
    };
    out.extend_from_slice(text.as_bytes())
}

fn push_pivots(alloc: Global, out: &mut Vec<u8>, pivots: &[Pivot]) -> Result<(), AllocError> {
    for pivot in pivots {
        let leaves = pivot.leaves;
        let enters = pivot.enters;
        out.extend_from_slice(format!(in alloc; " {leaves}>{enters}")?.as_bytes())?;
    }
    Ok(())
}

// The word of the end, and its numbers.
fn text_of(alloc: Global, found: &Solved) -> Result<Vec<u8>, AllocError> {
    let mut out = Vec::new(alloc);
    match found {
        Solved::Point(values) => {
            out.extend_from_slice(b"point")?;
            for x in values {
                push_fraction(alloc, &mut out, x)?;
            }
        }
        Solved::Farkas(multipliers) => {
            out.extend_from_slice(b"farkas")?;
            for m in multipliers {
                out.extend_from_slice(format!(in alloc; " {m}")?.as_bytes())?;
            }
        }
        Solved::Turns(pivots) => {
            out.extend_from_slice(b"turns")?;
            push_pivots(alloc, &mut out, pivots)?;
        }
        Solved::Size(pivots) => {
            out.extend_from_slice(b"size")?;
            push_pivots(alloc, &mut out, pivots)?;
        }
    }
    Ok(out)
}

fn no_rows(alloc: Global) -> Result<Vec<u8>, AllocError> {
    Vec::from_slice(alloc, b"no rows")
}

/// What the simplex answers within the turns: `point` and values, `farkas` and multipliers, `turns` or `size` and the
/// pivots, `LEAVES>ENTERS` each.
pub fn answer(alloc: Global, input: &str) -> Result<Vec<u8>, AllocError> {
    let Some((turns, text)) = input.split_once(';') else {
        return no_rows(alloc);
    };
    let Ok(turns) = turns.parse::<u32>() else {
        return no_rows(alloc);
    };
    let text = text.trim_start();
    let width = width_of(text);
    let Some(rows) = rows_of(alloc, text, width)? else {
        return no_rows(alloc);
    };
    match solved(alloc, &rows, width, turns)? {
        Some(found) => text_of(alloc, &found),
        None => no_rows(alloc),
    }
}

/// The word of the end that the simplex comes to within the turns.
pub fn end(alloc: Global, input: &str) -> Result<Vec<u8>, AllocError> {
    let answer = answer(alloc, input)?;
    let word = answer.split(|b| *b == b' ').next().unwrap_or(b"");
    Vec::from_slice(alloc, word)
}
