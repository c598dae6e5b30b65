//! Certificates. They are boxed, and what a level needs beside its parts stands in functions of their own, so that a
//! level takes little stack.

ghost use Rattle.std.specs.Prelude.{◌≡◌, ℕ, ◌++◌, ◌∷◌, [], IfOk, OnOk};
ghost use Rattle.cert_text.specs.Place.{FindsCert};
ghost use Rattle.cert_text.specs.Reading.{Gives, step_word_at, step_at, steps_at, done_at, split_end_at, split_at, members_at, enum_end_at, enum_at, with_steps, close_at, cert_at, cert_line_at, psatz_at};
ghost use Rattle.std.specs.Option.{option_map};

use crate::expression::{expression, pair};
use crate::fail::TextFail;
use crate::polynomial::polynomial;
use crate::word::{front_length, skip, strip};
use cert_kit::{Cert, Close, Ends, Psatz, Step};
use mm_poly::Poly;
use sqlite_items::{Boxed, Items};
use std::alloc::{AllocError, Global};

// A certificate is at most this deep.
const DEEPEST: u32 = 4096;

// Whether a next step is a cut, and what follows its word: none where there is no next step.
fn step_word(bytes: &[u8]) -> Option<(bool, &[u8])>
    ensures { option_map (λ x. (x.0, x.1.now)) result ≡ step_word_at bytes.now }
{
    if let Some(rest) = strip(bytes, b"rat ") {
        return Some((false, rest));
    }
    let rest = strip(bytes, b"cut ")?;
    Some((true, rest))
}

// The rest of a step with an expression of at most this depth.
#[tactic(auto, unfolding(crate::specs::Reading::step_at))]
fn step(alloc: Global, depth: u32, cut: bool, bytes: &[u8]) -> Result<(Step, &[u8]), TextFail>
    ensures { Gives (λ x. (x.0, x.1.now)) result (step_at depth (cut, bytes.now)) }
{
    let (expression, rest) = expression(alloc, depth, bytes)?;
    let rest = skip(rest, b"; ")?;
    let expression = expression.into_inner();
    let step = if cut {
        Step::Cut(expression)
    } else {
        Step::Rat(expression)
    };
    Ok((step, rest))
}

// At most this many steps, and what follows them.
#[inline(never)]
fn steps(
    alloc: Global,
    depth: u32,
    most: usize,
    bytes: &[u8],
) -> Result<(Vec<Step>, &[u8]), TextFail>
    ensures { Gives (λ x. (x.0.items, x.1.now)) result (steps_at depth most bytes.now) }
{
    let mut steps = Vec::new(alloc);
    let mut rest = bytes;
    for _ in 0..most {
        let Some((cut, after)) = step_word(rest) else {
            return Ok((steps, rest));
        };
        let (next, after) = step(alloc, depth, cut, after)?;
        steps.push(next)?;
        rest = after;
    }
    Ok((steps, rest))
}

// These steps and `done`.
#[inline(never)]
fn done(alloc: Global, steps: Vec<Step>, bytes: &[u8]) -> Result<(Boxed<Cert>, &[u8]), TextFail>
    ensures { Gives (λ x. (x.0, x.1.now)) result (with_steps steps.items (done_at bytes.now)) }
{
    let rest = skip(bytes, b"done")?;
    let steps = Items::from_vec(steps);
    let close = Close::Done;
    Ok((Boxed::new(alloc, Cert { steps, close })?, rest))
}

// These steps and a split, whose end is at the front of the bytes.
#[inline(never)]
fn split_end(
    alloc: Global,
    steps: Vec<Step>,
    poly: Poly,
    sides: (Boxed<Cert>, Boxed<Cert>),
    bytes: &[u8],
) -> Result<(Boxed<Cert>, &[u8]), TextFail>
    ensures { Gives (λ x. (x.0, x.1.now)) result (with_steps steps.items (split_end_at poly sides.0 sides.1 bytes.now)) }
{
    let rest = skip(bytes, b")")?;
    let steps = Items::from_vec(steps);
    let close = Close::Split(poly, sides.0, sides.1);
    Ok((Boxed::new(alloc, Cert { steps, close })?, rest))
}

// These steps and the rest of a split with sides of at most this depth.
#[cycle(certificate)]
#[inline(never)]
fn split(
    alloc: Global,
    depth: u32,
    steps: Vec<Step>,
    bytes: &[u8],
) -> Result<(Boxed<Cert>, &[u8]), TextFail>
    ensures { Gives (λ x. (x.0, x.1.now)) result (with_steps steps.items (split_at (cert_at depth) bytes.now)) }
{
    let (poly, rest) = polynomial(alloc, bytes)?;
    let rest = skip(rest, b", ")?;
    let (first, rest) = certificate(alloc, depth, rest)?;
    let rest = skip(rest, b", ")?;
    let (second, rest) = certificate(alloc, depth, rest)?;
    split_end(alloc, steps, poly, (first, second), rest)
}

#[inline(never)]
fn push_member(members: &mut Vec<Cert>, member: Boxed<Cert>) -> Result<(), AllocError>
    ensures { OnOk result (members.new.items ≡ members.old.items ++ member ∷ []) }
{
    members.push(member.into_inner())?;
    Ok(())
}

// Fewer than 2^32 members of at most this depth.
#[cycle(certificate)]
#[inline(never)]
fn members(alloc: Global, depth: u32, bytes: &[u8]) -> Result<(Vec<Cert>, &[u8]), TextFail>
    ensures { Gives (λ x. (x.0.items, x.1.now)) result (members_at (cert_at depth) bytes.now) }
{
    let mut members = Vec::new(alloc);
    let mut rest = bytes;
    for _ in 0..u32::MAX {
        let Some(after) = strip(rest, b", ") else {
            return Ok((members, rest));
        };
        let (next, after) = certificate(alloc, depth, after)?;
        push_member(&mut members, next)?;
        rest = after;
    }
    Ok((members, rest))
}

// These steps and an enumeration, whose end is at the front of the bytes.
#[inline(never)]
fn enumeration_end(
    alloc: Global,
    steps: Vec<Step>,
    bounds: (Boxed<Psatz>, Boxed<Psatz>),
    members: Vec<Cert>,
    bytes: &[u8],
) -> Result<(Boxed<Cert>, &[u8]), TextFail>
    ensures { Gives (λ x. (x.0, x.1.now)) result (with_steps steps.items (enum_end_at bounds.0 bounds.1 members.items bytes.now)) }
{
    let rest = skip(bytes, b")")?;
    let steps = Items::from_vec(steps);
    let members = Items::from_vec(members);
    let ends = Ends {
        lower: bounds.0.into_inner(),
        upper: bounds.1.into_inner(),
    };
    let close = Close::Enum(Boxed::new(alloc, ends)?, members);
    Ok((Boxed::new(alloc, Cert { steps, close })?, rest))
}

// These steps and the rest of an enumeration with parts of at most this depth.
#[cycle(certificate)]
#[inline(never)]
fn enumeration(
    alloc: Global,
    depth: u32,
    steps: Vec<Step>,
    bytes: &[u8],
) -> Result<(Boxed<Cert>, &[u8]), TextFail>
    ensures { Gives (λ x. (x.0, x.1.now)) result (with_steps steps.items (enum_at (psatz_at depth) (cert_at depth) bytes.now)) }
{
    let (lower, upper, rest) = pair(alloc, depth, bytes)?;
    let (members, rest) = members(alloc, depth, rest)?;
    enumeration_end(alloc, steps, (lower, upper), members, rest)
}

// These steps and a close of at most this depth.
#[cycle(certificate)]
#[tactic(auto, unfolding(crate::specs::Reading::close_at, crate::specs::Reading::end_at))]
fn close(
    alloc: Global,
    depth: u32,
    steps: Vec<Step>,
    bytes: &[u8],
) -> Result<(Boxed<Cert>, &[u8]), TextFail>
    ensures { Gives (λ x. (x.0, x.1.now)) result (with_steps steps.items (close_at depth bytes.now)) }
{
    if depth == 0 {
        return done(alloc, steps, bytes);
    }
    if let Some(rest) = strip(bytes, b"split(") {
        return split(alloc, depth - 1, steps, rest);
    }
    if let Some(rest) = strip(bytes, b"enum(") {
        return enumeration(alloc, depth - 1, steps, rest);
    }
    done(alloc, steps, bytes)
}

// A certificate of at most this depth, and what follows it.
#[cycle(certificate)]
#[tactic(auto, using(crate::proofs::CertSteps::cert_at_parts))]
fn certificate(alloc: Global, depth: u32, bytes: &[u8]) -> Result<(Boxed<Cert>, &[u8]), TextFail>
    ensures { Gives (λ x. (x.0, x.1.now)) result (cert_at depth bytes.now) }
{
    // A step takes bytes.
    let (steps, rest) = steps(alloc, depth, bytes.len(), bytes)?;
    close(alloc, depth, steps, rest)
}

/// The certificate's line at the front of the bytes, and what follows it.
#[tactic(auto, unfolding(crate::specs::Reading::cert_line_at))]
pub fn line(alloc: Global, bytes: &[u8]) -> Result<(Cert, &[u8]), TextFail>
    ensures { Gives (λ x. (x.0, x.1.now)) result (cert_line_at bytes.now) }
{
    let line = skip(bytes, b"cert ")?;
    let (cert, rest) = certificate(alloc, DEEPEST, line)?;
    let rest = skip(rest, b"\n")?;
    Ok((cert.into_inner(), rest))
}

/// The line of a certificate at the front of the bytes, as the certificate and its length with the line feed: none where
/// no such line stands there.
#[tactic(auto, using(crate::proofs::FoundLaws::cert_missing, crate::proofs::CheckLaws::line_short))]
pub fn read_cert_line(alloc: Global, bytes: &[u8]) -> Result<Option<(Cert, usize)>, AllocError>
    ensures { IfOk result (FindsCert bytes.now) }
{
    match line(alloc, bytes) {
        Ok((cert, rest)) => Ok(Some((cert, front_length(bytes, rest)))),
        Err(TextFail::Bad) => Ok(None),
        Err(TextFail::NoMemory) => Err(AllocError),
    }
}
