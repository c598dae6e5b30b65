//! Parts of polynomials, their measures, their order, and what becomes of them, asked by their texts.

use crate::algebra::{no_case, poly_of, printed, two_of};
use mm_poly::{Poly, PolyFail};
use std::alloc::{AllocError, Global};
use std::cmp::Ordering;

/// How two polynomials, parted by `; `, compare.
pub fn order(alloc: Global, input: &str) -> Result<Vec<u8>, AllocError> {
    let Some((left, right)) = two_of(alloc, input)? else {
        return no_case(alloc);
    };
    let word: &[u8] = match left.order(&right) {
        Ordering::Less => b"less",
        Ordering::Equal => b"equal",
        Ordering::Greater => b"greater",
    };
    Vec::from_slice(alloc, word)
}

/// The norm, the spread and the degree.
pub fn measures(alloc: Global, input: &str) -> Result<Vec<u8>, AllocError> {
    let Some(poly) = poly_of(alloc, input)? else {
        return no_case(alloc);
    };
    let norm = poly.norm();
    let spread = poly.spread();
    let degree = poly.degree();
    Ok(format!(in alloc; "{norm} {spread} {degree}")?.into_bytes())
}

/// The coefficient of the first monomial of the polynomial before `; ` in the one after it.
pub fn coefficient(alloc: Global, input: &str) -> Result<Vec<u8>, AllocError> {
    let Some((one, poly)) = two_of(alloc, input)? else {
        return no_case(alloc);
    };
    if one.spread() == 0 {
        return no_case(alloc);
    }
    let coefficient = poly.coefficient(&one.term(0).mono);
    Ok(format!(in alloc; "{coefficient}")?.into_bytes())
}

// The two factors before `; `.
fn factors_of(words: &str) -> Option<(i128, i128)> {
    let (first, second) = words.split_once(' ')?;
    Some((first.parse().ok()?, second.parse().ok()?))
}

/// The sum of the two polynomials after the first `; `, each times one of the two numbers before it.
pub fn combination(alloc: Global, input: &str) -> Result<Vec<u8>, AllocError> {
    let Some((words, text)) = input.split_once("; ") else {
        return no_case(alloc);
    };
    let (Some((first, second)), Some((left, right))) = (factors_of(words), two_of(alloc, text)?)
    else {
        return no_case(alloc);
    };
    printed(alloc, left.combination(alloc, first, &right, second))
}

// The variables of a table, parted by blanks.
fn table_of(alloc: Global, words: &str) -> Result<Vec<u32>, AllocError> {
    let mut table = Vec::new(alloc);
    for word in words.split_whitespace() {
        table.push(word.parse::<u32>().unwrap_or(0))?;
    }
    Ok(table)
}

fn exchanged(alloc: Global, table: &[u32], poly: &Poly) -> Result<Poly, PolyFail> {
    if poly.has_places(table.len()) {
        Ok(poly.renamed(alloc, table)?)
    } else {
        Err(PolyFail::Big)
    }
}

/// The polynomial after `; ` with the variables of the table before it; `big` where a variable has no place in it.
pub fn renamed(alloc: Global, input: &str) -> Result<Vec<u8>, AllocError> {
    let Some((words, text)) = input.split_once("; ") else {
        return no_case(alloc);
    };
    let table = table_of(alloc, words)?;
    match poly_of(alloc, text)? {
        Some(poly) => printed(alloc, exchanged(alloc, &table, &poly)),
        None => no_case(alloc),
    }
}
