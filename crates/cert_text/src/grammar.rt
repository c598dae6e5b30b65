//! Rows and certificates within the bounds of their types are those of the grammar.

ghost use Rattle.std.specs.Prelude.{◌≡◌, ◌↔◌, ◌^◌, nat_lt, true, map, IsTrue};
ghost use Rattle.mm_poly.specs.Poly.{Fits};
ghost use Rattle.mm_poly.specs.Tests.{is_polynomial};
ghost use Rattle.cert_kit.specs.Depth.{all_in_range};
ghost use Rattle.cert_text.specs.Check.{is_psatz_within, is_step_within, are_steps_within, is_close_within, is_cert_within, close_has_few_members, has_few_members, IsRow, IsCert};

use cert_kit::{Cert, Close, PRow, Psatz, Step};
use mm_poly::Poly;

/// Each row is one of the grammar.
pub fn row_fits(row: &PRow)
    ensures { IsRow row.now }
{
    polynomial_fits(&row.poly);
}

/// Whether a certificate is one of the grammar: at most 4,096 deep, each constant at least 1 and small, as `Cert::make`
/// asks, and each enumeration with fewer than 2^32 members.
pub fn is_cert(cert: &Cert) -> bool
    ensures { IsTrue result ↔ IsCert cert.now }
{
    Cert::can_make(cert.steps.as_slice(), &cert.close) && has_few_members(cert)
}

// The terms of a polynomial are within its bounds.
fn polynomial_fits(poly: &Poly)
    ensures fits { Fits poly.now }
    ensures test { is_polynomial poly.now ≡ true }
{
    let _ = poly.spread();
}

// A row number is below 2^32.
fn number_fits(n: u32)
    ensures { nat_lt n (2 ^ 32) ≡ true }
{
    let _ = n;
}

fn expression_fits(e: &Psatz)
    ensures { is_psatz_within e.now ≡ true }
{
    match e {
        Psatz::Hyp(n) => number_fits(*n),
        Psatz::Const(_) | Psatz::Zero => {}
        Psatz::Square(poly) => polynomial_fits(poly),
        Psatz::MulPoly(poly, part) => {
            polynomial_fits(poly);
            expression_fits(part.get());
        }
        Psatz::Mul(first, second) => {
            expression_fits(first.get());
            expression_fits(second.get());
        }
        Psatz::Add(first, second) => {
            expression_fits(first.get());
            expression_fits(second.get());
        }
    }
}

fn step_fits(step: &Step)
    ensures { is_step_within step.now ≡ true }
{
    match step {
        Step::Rat(e) | Step::Cut(e) => expression_fits(e),
    }
}

fn steps_fit(steps: &[Step])
    ensures { are_steps_within steps.now ≡ true }
{
    for step in steps {
        step_fits(step);
    }
}

/// Whether each enumeration of a certificate has fewer than 2^32 members. Exactly then its parts are those of the grammar,
/// since all else is within the bounds of its type.
#[cycle(few)]
pub fn has_few_members(cert: &Cert) -> bool
    ensures few { result ≡ has_few_members cert.now }
    ensures within { result ≡ is_cert_within cert.now }
{
    steps_fit(cert.steps.as_slice());
    close_has_few(&cert.close)
}

#[cycle(few)]
fn close_has_few(close: &Close) -> bool
    ensures few { result ≡ close_has_few_members close.now }
    ensures within { result ≡ is_close_within close.now }
{
    match close {
        Close::Done => true,
        Close::Split(poly, first, second) => {
            polynomial_fits(poly);
            has_few_members(first.get()) && has_few_members(second.get())
        }
        Close::Enum(ends, members) => {
            let ends = ends.get();
            expression_fits(&ends.lower);
            expression_fits(&ends.upper);
            let members = members.as_slice();
            members.len() <= u32::MAX as usize && all_have_few(members)
        }
    }
}

#[cycle(few)]
fn all_have_few(members: &[Cert]) -> bool
    ensures few { result ≡ all_in_range (map has_few_members members.now) }
    ensures within { result ≡ all_in_range (map is_cert_within members.now) }
{
    for member in members {
        if !has_few_members(member) {
            return false;
        }
    }
    true
}
