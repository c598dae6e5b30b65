ghost use Rattle.std.specs.Prelude.{◌≡◌, ◌↔◌, IsTrue};

use crate::cert::{Cert, Close, Ends, Psatz, Step};

impl Psatz {
    /// Whether it is the same expression.
    pub fn same(&self, other: &Psatz) -> bool
        ensures { IsTrue result ↔ (self.now ≡ other.now) }
    {
        match self {
            Psatz::Hyp(n) => matches!(other, Psatz::Hyp(m) if n == m),
            Psatz::Square(p) => matches!(other, Psatz::Square(q) if p.same(q)),
            Psatz::MulPoly(p, e) => match other {
                Psatz::MulPoly(q, f) => p.same(q) && e.get().same(f.get()),
                _ => false,
            },
            Psatz::Mul(d, e) => match other {
                Psatz::Mul(f, g) => d.get().same(f.get()) && e.get().same(g.get()),
                _ => false,
            },
            Psatz::Add(d, e) => match other {
                Psatz::Add(f, g) => d.get().same(f.get()) && e.get().same(g.get()),
                _ => false,
            },
            Psatz::Const(c) => matches!(other, Psatz::Const(d) if c == d),
            Psatz::Zero => matches!(other, Psatz::Zero),
        }
    }
}

impl Step {
    /// Whether it is the same step.
    pub fn same(&self, other: &Step) -> bool
        ensures { IsTrue result ↔ (self.now ≡ other.now) }
    {
        match self {
            Step::Rat(e) => matches!(other, Step::Rat(f) if e.same(f)),
            Step::Cut(e) => matches!(other, Step::Cut(f) if e.same(f)),
        }
    }
}

impl Ends {
    /// Whether both expressions are the same.
    pub fn same(&self, other: &Ends) -> bool
        ensures { IsTrue result ↔ (self.now ≡ other.now) }
    {
        self.lower.same(&other.lower) && self.upper.same(&other.upper)
    }
}

impl Cert {
    /// Whether it is the same certificate.
    pub fn same(&self, other: &Cert) -> bool
        ensures { IsTrue result ↔ (self.now ≡ other.now) }
    {
        is_same_cert(self, other)
    }
}

#[cycle(same)]
fn is_same_cert(cert: &Cert, other: &Cert) -> bool
    ensures { IsTrue result ↔ (cert.now ≡ other.now) }
{
    are_same_steps(cert.steps.as_slice(), other.steps.as_slice())
        && is_same_close(&cert.close, &other.close)
}

fn are_same_steps(steps: &[Step], others: &[Step]) -> bool
    ensures { IsTrue result ↔ (steps.now ≡ others.now) }
{
    if steps.len() != others.len() {
        return false;
    }
    for n in 0..steps.len() {
        if !steps[n].same(&others[n]) {
            return false;
        }
    }
    true
}

#[cycle(same)]
fn is_same_close(close: &Close, other: &Close) -> bool
    ensures { IsTrue result ↔ (close.now ≡ other.now) }
{
    match close {
        Close::Done => matches!(other, Close::Done),
        Close::Split(p, c, d) => match other {
            Close::Split(q, e, f) => {
                p.same(q) && is_same_cert(c.get(), e.get()) && is_same_cert(d.get(), f.get())
            }
            _ => false,
        },
        Close::Enum(ends, members) => match other {
            Close::Enum(bounds, others) => {
                ends.get().same(bounds.get())
                    && are_same_certs(members.as_slice(), others.as_slice())
            }
            _ => false,
        },
    }
}

#[cycle(same)]
fn are_same_certs(certs: &[Cert], others: &[Cert]) -> bool
    ensures { IsTrue result ↔ (certs.now ≡ others.now) }
{
    if certs.len() != others.len() {
        return false;
    }
    for n in 0..certs.len() {
        if !is_same_cert(&certs[n], &others[n]) {
            return false;
        }
    }
    true
}
