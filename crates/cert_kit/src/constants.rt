ghost use Rattle.std.specs.Prelude.{◌≡◌, map};
ghost use Rattle.cert_kit.specs.Depth.{is_constant_in_range, has_constants_in_range, step_in_range, steps_in_range, close_has_constants_in_range, cert_constants, all_in_range};

use crate::cert::{Cert, Close, Psatz, Step};

// Whether a constant is at least 1 and small.
fn constant_in_range(c: i128) -> bool
    ensures { result ≡ is_constant_in_range c }
{
    c >= 1 && c < 1 << 126
}

fn expression_in_range(e: &Psatz) -> bool
    ensures { result ≡ has_constants_in_range e.now }
{
    match e {
        Psatz::Hyp(_) | Psatz::Square(_) | Psatz::Zero => true,
        Psatz::Const(c) => constant_in_range(*c),
        Psatz::MulPoly(_, part) => expression_in_range(part.get()),
        Psatz::Mul(first, second) | Psatz::Add(first, second) => {
            expression_in_range(first.get()) && expression_in_range(second.get())
        }
    }
}

fn one_in_range(step: &Step) -> bool
    ensures { result ≡ step_in_range step.now }
{
    match step {
        Step::Rat(e) | Step::Cut(e) => expression_in_range(e),
    }
}

pub(crate) fn are_steps_in_range(steps: &[Step]) -> bool
    ensures { result ≡ steps_in_range steps.now }
{
    for step in steps {
        if !one_in_range(step) {
            return false;
        }
    }
    true
}

#[cycle(constants)]
fn is_cert_in_range(cert: &Cert) -> bool
    ensures { result ≡ cert_constants cert.now }
{
    are_steps_in_range(cert.steps.as_slice()) && is_close_in_range(&cert.close)
}

#[cycle(constants)]
pub(crate) fn is_close_in_range(close: &Close) -> bool
    ensures { result ≡ close_has_constants_in_range close.now }
{
    match close {
        Close::Done => true,
        Close::Split(_, first, second) => {
            is_cert_in_range(first.get()) && is_cert_in_range(second.get())
        }
        Close::Enum(ends, members) => {
            expression_in_range(&ends.get().lower)
                && expression_in_range(&ends.get().upper)
                && are_certs_in_range(members.as_slice())
        }
    }
}

#[cycle(constants)]
fn are_certs_in_range(members: &[Cert]) -> bool
    ensures { result ≡ all_in_range (map cert_constants members.now) }
{
    for member in members {
        if !is_cert_in_range(member) {
            return false;
        }
    }
    true
}
