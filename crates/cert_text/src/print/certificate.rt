//! Certificates printed.

ghost use Rattle.std.specs.Prelude.{◌≡◌, ◌≤◌, ◌++◌, map, true, IfOk, OnOk, decimal, codes};
ghost use Rattle.std.specs.List.{flat_map};
ghost use Rattle.cert_kit.specs.Depth.{cert_depth, cert_constants};
ghost use Rattle.cert_text.specs.Check.{has_few_members, IsCert};
ghost use Rattle.cert_text.specs.Text.{poly_text, signed_text, psatz_text, step_text, more_members, close_text, cert_text, cert_line};

use crate::grammar::has_few_members;
use crate::print::number::push_number;
use crate::print::polynomial::{push_first_sign, push_polynomial};
use cert_kit::{Cert, Close, Psatz, Step};
use mm_poly::Poly;
use std::alloc::{AllocError, Global};

fn push_constant(out: &mut Vec<u8>, constant: i128) -> Result<(), AllocError>
    ensures { OnOk result (out.new.items ≡ out.old.items ++ signed_text constant) }
{
    push_first_sign(out, constant)?;
    push_number(out, constant.unsigned_abs())
}

fn push_expression(out: &mut Vec<u8>, e: &Psatz) -> Result<(), AllocError>
    ensures { OnOk result (out.new.items ≡ out.old.items ++ psatz_text e.now) }
{
    match e {
        Psatz::Hyp(row) => {
            out.extend_from_slice(b"in ")?;
            push_number(out, u128::from(*row))
        }
        Psatz::Square(poly) => {
            out.extend_from_slice(b"square(")?;
            push_polynomial(out, poly)?;
            out.extend_from_slice(b")")
        }
        Psatz::MulPoly(poly, part) => {
            out.extend_from_slice(b"mulp(")?;
            push_polynomial(out, poly)?;
            out.extend_from_slice(b", ")?;
            push_expression(out, part.get())?;
            out.extend_from_slice(b")")
        }
        Psatz::Mul(first, second) => {
            out.extend_from_slice(b"mul(")?;
            push_expression(out, first.get())?;
            out.extend_from_slice(b", ")?;
            push_expression(out, second.get())?;
            out.extend_from_slice(b")")
        }
        Psatz::Add(first, second) => {
            out.extend_from_slice(b"add(")?;
            push_expression(out, first.get())?;
            out.extend_from_slice(b", ")?;
            push_expression(out, second.get())?;
            out.extend_from_slice(b")")
        }
        Psatz::Const(constant) => {
            out.extend_from_slice(b"const ")?;
            push_constant(out, *constant)
        }
        Psatz::Zero => out.extend_from_slice(b"zero"),
    }
}

// A step, followed by a blank.
fn push_step(out: &mut Vec<u8>, step: &Step) -> Result<(), AllocError>
    ensures { OnOk result (out.new.items ≡ out.old.items ++ step_text step.now) }
{
    match step {
        Step::Rat(e) => {
            out.extend_from_slice(b"rat ")?;
            push_expression(out, e)?;
        }
        Step::Cut(e) => {
            out.extend_from_slice(b"cut ")?;
            push_expression(out, e)?;
        }
    }
    out.extend_from_slice(b"; ")
}

fn push_steps(out: &mut Vec<u8>, steps: &[Step]) -> Result<(), AllocError>
    ensures { OnOk result (out.new.items ≡ out.old.items ++ flat_map step_text steps.now) }
{
    for step in steps {
        push_step(out, step)?;
    }
    Ok(())
}

// A split up to its first side.
fn push_split(out: &mut Vec<u8>, poly: &Poly) -> Result<(), AllocError>
    ensures { OnOk result (out.new.items ≡ out.old.items ++ codes "split(" ++ poly_text poly.now ++ codes ", ") }
{
    out.extend_from_slice(b"split(")?;
    push_polynomial(out, poly)?;
    out.extend_from_slice(b", ")
}

// The two expressions of an enumeration.
fn push_bounds(out: &mut Vec<u8>, lower: &Psatz, upper: &Psatz) -> Result<(), AllocError>
    ensures { OnOk result (out.new.items ≡ out.old.items ++ psatz_text lower.now ++ codes ", " ++ psatz_text upper.now) }
{
    push_expression(out, lower)?;
    out.extend_from_slice(b", ")?;
    push_expression(out, upper)
}

#[cycle(print)]
fn push_cert(out: &mut Vec<u8>, cert: &Cert) -> Result<(), AllocError>
    ensures { OnOk result (out.new.items ≡ out.old.items ++ cert_text cert.now) }
{
    push_steps(out, cert.steps.as_slice())?;
    push_close(out, &cert.close)
}

#[cycle(print)]
fn push_close(out: &mut Vec<u8>, close: &Close) -> Result<(), AllocError>
    ensures { OnOk result (out.new.items ≡ out.old.items ++ close_text close.now) }
{
    match close {
        Close::Done => out.extend_from_slice(b"done"),
        Close::Split(poly, first, second) => {
            push_split(out, poly)?;
            push_cert(out, first.get())?;
            out.extend_from_slice(b", ")?;
            push_cert(out, second.get())?;
            out.extend_from_slice(b")")
        }
        Close::Enum(ends, members) => {
            out.extend_from_slice(b"enum(")?;
            push_bounds(out, &ends.get().lower, &ends.get().upper)?;
            push_members(out, members.as_slice())?;
            out.extend_from_slice(b")")
        }
    }
}

#[cycle(print)]
fn push_members(out: &mut Vec<u8>, members: &[Cert]) -> Result<(), AllocError>
    ensures { OnOk result (out.new.items ≡ out.old.items ++ more_members (map cert_text members.now)) }
{
    for member in members {
        out.extend_from_slice(b", ")?;
        push_cert(out, member)?;
    }
    Ok(())
}

/// The text of a certificate. One as `Cert::make` gives it is of the grammar where each enumeration has fewer than 2^32
/// members.
pub fn print_cert(alloc: Global, cert: &Cert) -> Result<Vec<u8>, AllocError>
    ensures text { IfOk result (λ text. text.items ≡ cert_text cert.now) }
    ensures cert { cert_depth cert.now ≤ 4096 → cert_constants cert.now ≡ true → has_few_members cert.now ≡ true → IsCert cert.now }
{
    let _ = has_few_members(cert);
    let mut out = Vec::new(alloc);
    push_cert(&mut out, cert)?;
    Ok(out)
}

/// Appends the line of a certificate: `cert `, its text and a line feed. `Err` where there is no memory. A certificate as
/// `Cert::make` gives it is of the grammar where each enumeration has fewer than 2^32 members.
pub fn push_cert_line(out: &mut Vec<u8>, cert: &Cert) -> Result<(), AllocError>
    ensures text { OnOk result (out.new.items ≡ out.old.items ++ cert_line cert.now) }
    ensures cert { cert_depth cert.now ≤ 4096 → cert_constants cert.now ≡ true → has_few_members cert.now ≡ true → IsCert cert.now }
{
    let _ = has_few_members(cert);
    out.extend_from_slice(b"cert ")?;
    push_cert(out, cert)?;
    out.extend_from_slice(b"\n")
}
