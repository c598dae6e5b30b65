//! Polynomials and rows, asked by their texts.

use cert_check::{Verdict, check};
use cert_kit::{Cert, Clause, Op, PRow, cut_row};
use cert_text::{CheckText, print_cert, print_row, read_check};
use mm_poly::{Poly, PolyFail};
use std::alloc::{AllocError, Global};

// The check of these bytes, if it is one.
pub fn read(alloc: Global, bytes: &[u8]) -> Result<Option<(Clause, Cert)>, AllocError> {
    match read_check(alloc, bytes) {
        Ok(found) => Ok(Some(found)),
        Err(CheckText::Bad { .. }) => Ok(None),
        Err(CheckText::NoMemory) => Err(AllocError),
    }
}

// The rows and the certificate, each on a line.
fn text_of(alloc: Global, clause: &Clause, cert: &Cert) -> Result<Vec<u8>, AllocError> {
    let mut text = Vec::new(alloc);
    for row in clause.rows.as_slice() {
        text.extend_from_slice(b"row ")?;
        text.extend_from_slice(print_row(alloc, row)?.as_slice())?;
        text.extend_from_slice(b"\n")?;
    }
    text.extend_from_slice(b"cert ")?;
    text.extend_from_slice(print_cert(alloc, cert)?.as_slice())?;
    text.extend_from_slice(b"\n")?;
    Ok(text)
}

/// Whether a copy of the check that these bytes are is printed as they stand, and what the rules say of that copy.
pub fn again(alloc: Global, bytes: &[u8]) -> Result<Vec<u8>, AllocError> {
    let Some((clause, cert)) = read(alloc, bytes)? else {
        return Vec::from_slice(alloc, b"no check");
    };
    let clause = clause.copy(alloc)?;
    let cert = cert.copy(alloc)?;
    if text_of(alloc, &clause, &cert)?.as_slice() != bytes {
        return Vec::from_slice(alloc, b"printed otherwise");
    }
    let word: &[u8] = match check(alloc, &clause, &cert)? {
        Verdict::Accepted => b"accepted",
        Verdict::Rejected => b"rejected",
        Verdict::Size => b"size",
    };
    Vec::from_slice(alloc, word)
}

// The row of this text, if it is one.
fn row_of(alloc: Global, text: &str) -> Result<Option<PRow>, AllocError> {
    let text = format!(in alloc; "row {text}\ncert done\n")?;
    let Some((clause, _)) = read(alloc, text.as_bytes())? else {
        return Ok(None);
    };
    match clause.rows.as_slice() {
        [row] => Ok(Some(row.copy(alloc)?)),
        _ => Ok(None),
    }
}

// The polynomial of this text, if it is one.
pub fn poly_of(alloc: Global, text: &str) -> Result<Option<Poly>, AllocError> {
    let row = row_of(alloc, format!(in alloc; "{text} = 0")?.as_str())?;
    Ok(row.map(|row| row.poly))
}

pub fn printed(alloc: Global, found: Result<Poly, PolyFail>) -> Result<Vec<u8>, AllocError> {
    match found {
        Ok(poly) => {
            let text = print_row(alloc, &PRow { poly, op: Op::Eq })?;
            Vec::from_slice(alloc, text.strip_suffix(b" = 0").unwrap_or(b"no equality"))
        }
        Err(PolyFail::Big) => Vec::from_slice(alloc, b"big"),
        Err(PolyFail::NoMemory) => Err(AllocError),
    }
}

pub fn no_case(alloc: Global) -> Result<Vec<u8>, AllocError> {
    Vec::from_slice(alloc, b"no polynomials")
}

// The two polynomials parted by `; `, if they are two.
pub fn two_of(alloc: Global, input: &str) -> Result<Option<(Poly, Poly)>, AllocError> {
    let Some((left, right)) = input.split_once("; ") else {
        return Ok(None);
    };
    let Some(left) = poly_of(alloc, left)? else {
        return Ok(None);
    };
    let right = poly_of(alloc, right)?;
    Ok(right.map(|right| (left, right)))
}

/// The sum of two polynomials, parted by `; `.
pub fn sum(alloc: Global, input: &str) -> Result<Vec<u8>, AllocError> {
    match two_of(alloc, input)? {
        Some((left, right)) => printed(alloc, left.add(alloc, &right)),
        None => no_case(alloc),
    }
}

/// The product of two polynomials, parted by `; `.
pub fn product(alloc: Global, input: &str) -> Result<Vec<u8>, AllocError> {
    match two_of(alloc, input)? {
        Some((left, right)) => printed(alloc, left.mul(alloc, &right)),
        None => no_case(alloc),
    }
}

/// The multiple of the polynomial after `; ` by the number before it.
pub fn multiple(alloc: Global, input: &str) -> Result<Vec<u8>, AllocError> {
    let Some((times, text)) = input.split_once("; ") else {
        return no_case(alloc);
    };
    let (Ok(times), Some(poly)) = (times.parse::<i128>(), poly_of(alloc, text)?) else {
        return no_case(alloc);
    };
    if times.unsigned_abs() >= 1 << 126 {
        return no_case(alloc);
    }
    printed(alloc, poly.scale(alloc, times))
}

// The numbers, parted by blanks.
pub fn point_of(alloc: Global, words: &str) -> Result<Vec<i128>, AllocError> {
    let mut point = Vec::new(alloc);
    for word in words.split_whitespace() {
        point.push(word.parse::<i128>().unwrap_or(0))?;
    }
    Ok(point)
}

/// The value of the polynomial after `; ` at the numbers before it.
pub fn value(alloc: Global, input: &str) -> Result<Vec<u8>, AllocError> {
    let Some((words, text)) = input.split_once("; ") else {
        return no_case(alloc);
    };
    let point = point_of(alloc, words)?;
    let Some(poly) = poly_of(alloc, text)? else {
        return no_case(alloc);
    };
    if !poly.has_places(point.len()) {
        return Vec::from_slice(alloc, b"no place");
    }
    match poly.value(&point) {
        Some(value) => Ok(format!(in alloc; "{value}")?.into_bytes()),
        None => Vec::from_slice(alloc, b"big"),
    }
}

/// The greatest divisor common to the coefficients that aren't constant.
pub fn content(alloc: Global, input: &str) -> Result<Vec<u8>, AllocError> {
    match poly_of(alloc, input)? {
        Some(poly) => {
            let content = poly.content();
            Ok(format!(in alloc; "{content}")?.into_bytes())
        }
        None => no_case(alloc),
    }
}

/// The cut of a row.
pub fn cut(alloc: Global, input: &str) -> Result<Vec<u8>, AllocError> {
    match row_of(alloc, input)? {
        Some(row) => print_row(alloc, &cut_row(alloc, &row)?),
        None => no_case(alloc),
    }
}
