ghost use Rattle.std.specs.Prelude.{◌≡◌, ◌^◌, ◌+◌, ◌-◌, min, max, map};
ghost use Rattle.cert_kit.specs.Depth.{psatz_depth, step_depth, steps_depth, deepest, close_depth, cert_depth};

use crate::cert::{Cert, Close, Ends, Psatz, Step};

/// The depth of a certificate: the greatest of its expressions' and its close's. A depth of more than `u32::MAX`
/// is given as that.
pub fn depth(cert: &Cert) -> u32
    ensures { result ≡ min (cert_depth cert.now) (2 ^ 32 - 1) }
{
    depth_of_cert(cert)
}

#[cycle(depth)]
fn depth_of_cert(cert: &Cert) -> u32
    ensures { result ≡ min (cert_depth cert.now) (2 ^ 32 - 1) }
{
    depth_of_steps(cert.steps.as_slice()).max(depth_of_close(&cert.close))
}

#[cycle(depth)]
pub(crate) fn depth_of_close(close: &Close) -> u32
    ensures { result ≡ min (close_depth close.now) (2 ^ 32 - 1) }
{
    match close {
        Close::Done => 0,
        Close::Split(_, first, second) => {
            one_deeper(depth_of_cert(first.get()), depth_of_cert(second.get()))
        }
        Close::Enum(ends, members) => {
            one_deeper(depth_of_ends(ends.get()), deepest_of(members.as_slice()))
        }
    }
}

fn depth_of_ends(ends: &Ends) -> u32
    ensures { result ≡ min (max (psatz_depth ends.now.lower) (psatz_depth ends.now.upper)) (2 ^ 32 - 1) }
{
    depth_of_expression(&ends.lower).max(depth_of_expression(&ends.upper))
}

#[cycle(depth)]
fn deepest_of(members: &[Cert]) -> u32
    ensures { result ≡ min (deepest (map cert_depth members.now)) (2 ^ 32 - 1) }
{
    let mut most = 0;
    for member in members {
        most = most.max(depth_of_cert(member));
    }
    most
}

pub(crate) fn depth_of_steps(steps: &[Step]) -> u32
    ensures { result ≡ min (steps_depth steps.now) (2 ^ 32 - 1) }
{
    let mut most = 0;
    for step in steps {
        most = most.max(depth_of_step(step));
    }
    most
}

fn depth_of_step(step: &Step) -> u32
    ensures { result ≡ min (step_depth step.now) (2 ^ 32 - 1) }
{
    match step {
        Step::Rat(e) | Step::Cut(e) => depth_of_expression(e),
    }
}

fn depth_of_expression(e: &Psatz) -> u32
    ensures { result ≡ min (psatz_depth e.now) (2 ^ 32 - 1) }
{
    match e {
        Psatz::Hyp(_) | Psatz::Const(_) | Psatz::Zero => 0,
        Psatz::Square(_) => 1,
        Psatz::MulPoly(_, part) => one_deeper(depth_of_expression(part.get()), 0),
        Psatz::Mul(first, second) | Psatz::Add(first, second) => {
            one_deeper(
                depth_of_expression(first.get()),
                depth_of_expression(second.get()),
            )
        }
    }
}

// One more than the deeper of two parts.
fn one_deeper(first: u32, second: u32) -> u32
    ensures { result ≡ min (max first second + 1) (2 ^ 32 - 1) }
{
    first.max(second).saturating_add(1)
}
