//! Expressions. What a level needs beside its parts stands in functions of their own, so that it takes little stack.

ghost use Rattle.std.specs.Prelude.{◌≡◌, ◌<◌, ℕ, pos};
ghost use Rattle.cert_text.specs.Reading.{Gives, psatz_at, leaf_at, hyp_at, const_at, square_at, mulp_end_at, mulp_at, pair_end_at, pair_at};
ghost use Rattle.cert_kit.specs.declared.cert.Psatz.TheVariants.{Add, Mul};

use crate::fail::TextFail;
use crate::number::{MAGNITUDE_LIMIT, number, positive};
use crate::polynomial::polynomial;
use crate::word::{skip, strip};
use cert_kit::Psatz;
use mm_poly::Poly;
use sqlite_items::Boxed;
use std::alloc::Global;

// A row by its number.
fn hyp(alloc: Global, bytes: &[u8]) -> Result<(Boxed<Psatz>, &[u8]), TextFail>
    ensures { Gives (λ x. (x.0, x.1.now)) result (hyp_at bytes.now) }
{
    let (row, rest) = number(bytes)?;
    Ok((Boxed::new(alloc, Psatz::Hyp(row))?, rest))
}

// A constant from 1.
fn constant(alloc: Global, bytes: &[u8]) -> Result<(Boxed<Psatz>, &[u8]), TextFail>
    ensures { Gives (λ x. (x.0, x.1.now)) result (const_at bytes.now) }
{
    let (magnitude, rest) = positive(MAGNITUDE_LIMIT, bytes)?;
    Ok((Boxed::new(alloc, Psatz::Const(magnitude as i128))?, rest))
}

// An expression without parts, and what follows it.
#[inline(never)]
#[tactic(auto, unfolding(crate::specs::Reading::leaf_at))]
fn leaf(alloc: Global, bytes: &[u8]) -> Result<(Boxed<Psatz>, &[u8]), TextFail>
    ensures { Gives (λ x. (x.0, x.1.now)) result (leaf_at bytes.now) }
{
    if let Some(rest) = strip(bytes, b"in ") {
        return hyp(alloc, rest);
    }
    if let Some(rest) = strip(bytes, b"const ") {
        return constant(alloc, rest);
    }
    let rest = skip(bytes, b"zero")?;
    Ok((Boxed::new(alloc, Psatz::Zero)?, rest))
}

// The rest of a square.
#[inline(never)]
fn square(alloc: Global, bytes: &[u8]) -> Result<(Boxed<Psatz>, &[u8]), TextFail>
    ensures { Gives (λ x. (x.0, x.1.now)) result (square_at bytes.now) }
{
    let (poly, rest) = polynomial(alloc, bytes)?;
    let rest = skip(rest, b")")?;
    Ok((Boxed::new(alloc, Psatz::Square(poly))?, rest))
}

// The rest of a polynomial times a part of at most this depth.
#[cycle(expression)]
fn multiple(alloc: Global, depth: u32, bytes: &[u8]) -> Result<(Boxed<Psatz>, &[u8]), TextFail>
    ensures { Gives (λ x. (x.0, x.1.now)) result (mulp_at (psatz_at depth) bytes.now) }
{
    let (poly, rest) = polynomial(alloc, bytes)?;
    let rest = skip(rest, b", ")?;
    let (part, rest) = expression(alloc, depth, rest)?;
    times(alloc, poly, part, rest)
}

/// Two parts of at most this depth, and what follows them.
#[cycle(expression)]
pub fn pair(
    alloc: Global,
    depth: u32,
    bytes: &[u8],
) -> Result<(Boxed<Psatz>, Boxed<Psatz>, &[u8]), TextFail>
    ensures { Gives (λ x. ((x.0, x.1), x.2.now)) result (pair_at (psatz_at depth) bytes.now) }
{
    let (first, rest) = expression(alloc, depth, bytes)?;
    let rest = skip(rest, b", ")?;
    let (second, rest) = expression(alloc, depth, rest)?;
    Ok((first, second, rest))
}

// The sum of these parts, whose end is at the front of the bytes.
#[inline(never)]
fn sum(
    alloc: Global,
    first: Boxed<Psatz>,
    second: Boxed<Psatz>,
    bytes: &[u8],
) -> Result<(Boxed<Psatz>, &[u8]), TextFail>
    ensures { Gives (λ x. (x.0, x.1.now)) result (pair_end_at Add (first, second) bytes.now) }
{
    let rest = skip(bytes, b")")?;
    Ok((Boxed::new(alloc, Psatz::Add(first, second))?, rest))
}

// The product of these parts, whose end is at the front of the bytes.
#[inline(never)]
fn product(
    alloc: Global,
    first: Boxed<Psatz>,
    second: Boxed<Psatz>,
    bytes: &[u8],
) -> Result<(Boxed<Psatz>, &[u8]), TextFail>
    ensures { Gives (λ x. (x.0, x.1.now)) result (pair_end_at Mul (first, second) bytes.now) }
{
    let rest = skip(bytes, b")")?;
    Ok((Boxed::new(alloc, Psatz::Mul(first, second))?, rest))
}

// The product of a polynomial and this part, whose end is at the front of the bytes.
#[inline(never)]
fn times(
    alloc: Global,
    poly: Poly,
    part: Boxed<Psatz>,
    bytes: &[u8],
) -> Result<(Boxed<Psatz>, &[u8]), TextFail>
    ensures { Gives (λ x. (x.0, x.1.now)) result (mulp_end_at poly part bytes.now) }
{
    let rest = skip(bytes, b")")?;
    Ok((Boxed::new(alloc, Psatz::MulPoly(poly, part))?, rest))
}

/// An expression of at most this depth, and what follows it. It's boxed, so that a level takes little stack.
#[cycle(expression)]
#[tactic(auto, unfolding(crate::specs::Reading::psatz_at, crate::specs::Reading::node_at))]
pub fn expression(
    alloc: Global,
    depth: u32,
    bytes: &[u8],
) -> Result<(Boxed<Psatz>, &[u8]), TextFail>
    ensures { Gives (λ x. (x.0, x.1.now)) result (psatz_at depth bytes.now) }
{
    if depth == 0 {
        return leaf(alloc, bytes);
    }
    if let Some(rest) = strip(bytes, b"add(") {
        let (first, second, rest) = pair(alloc, depth - 1, rest)?;
        return sum(alloc, first, second, rest);
    }
    if let Some(rest) = strip(bytes, b"mul(") {
        let (first, second, rest) = pair(alloc, depth - 1, rest)?;
        return product(alloc, first, second, rest);
    }
    if let Some(rest) = strip(bytes, b"mulp(") {
        return multiple(alloc, depth - 1, rest);
    }
    if let Some(rest) = strip(bytes, b"square(") {
        return square(alloc, rest);
    }
    leaf(alloc, bytes)
}
