ghost use Rattle.std.specs.Prelude.{◌≡◌, IfOk};

use crate::cert::{Cert, Close, Ends, Psatz, Step};
use crate::row::{Clause, PRow};
use mm_poly::Poly;
use sqlite_items::{Boxed, Items};
use std::alloc::{AllocError, Global};

impl PRow {
    /// An equal row.
    pub fn copy(&self, alloc: Global) -> Result<PRow, AllocError>
        ensures { IfOk result (λ r. r ≡ self.now) }
    {
        Ok(PRow {
            poly: self.poly.copy(alloc)?,
            op: self.op,
        })
    }
}

impl Clause {
    /// An equal clause.
    pub fn copy(&self, alloc: Global) -> Result<Clause, AllocError>
        ensures { IfOk result (λ c. c ≡ self.now) }
    {
        let mut rows = Vec::with_capacity(alloc, self.rows.len())?;
        for row in self.rows.as_slice() {
            rows.push(row.copy(alloc)?)?;
        }
        Ok(Clause {
            rows: Items::from_vec(rows),
        })
    }
}

impl Psatz {
    /// An equal expression.
    pub fn copy(&self, alloc: Global) -> Result<Psatz, AllocError>
        ensures { IfOk result (λ e. e ≡ self.now) }
    {
        Ok(boxed_expression(alloc, self)?.into_inner())
    }
}

impl Step {
    /// An equal step.
    pub fn copy(&self, alloc: Global) -> Result<Step, AllocError>
        ensures { IfOk result (λ s. s ≡ self.now) }
    {
        match self {
            Step::Rat(e) => Ok(Step::Rat(e.copy(alloc)?)),
            Step::Cut(e) => Ok(Step::Cut(e.copy(alloc)?)),
        }
    }
}

impl Cert {
    /// An equal certificate.
    pub fn copy(&self, alloc: Global) -> Result<Cert, AllocError>
        ensures { IfOk result (λ c. c ≡ self.now) }
    {
        Ok(boxed_cert(alloc, self)?.into_inner())
    }
}

// Copies are made on the heap, so that deep values take little of the stack.
fn boxed_expression(alloc: Global, e: &Psatz) -> Result<Boxed<Psatz>, AllocError>
    ensures { IfOk result (λ copied. copied ≡ e.now) }
{
    match e {
        Psatz::Hyp(n) => Boxed::new(alloc, Psatz::Hyp(*n)),
        Psatz::Square(poly) => boxed_square(alloc, poly),
        Psatz::MulPoly(poly, part) => {
            let part = boxed_expression(alloc, part.get())?;
            boxed_multiple(alloc, poly, part)
        }
        Psatz::Mul(first, second) => {
            let first = boxed_expression(alloc, first.get())?;
            let second = boxed_expression(alloc, second.get())?;
            Boxed::new(alloc, Psatz::Mul(first, second))
        }
        Psatz::Add(first, second) => {
            let first = boxed_expression(alloc, first.get())?;
            let second = boxed_expression(alloc, second.get())?;
            Boxed::new(alloc, Psatz::Add(first, second))
        }
        Psatz::Const(c) => Boxed::new(alloc, Psatz::Const(*c)),
        Psatz::Zero => Boxed::new(alloc, Psatz::Zero),
    }
}

fn boxed_square(alloc: Global, poly: &Poly) -> Result<Boxed<Psatz>, AllocError>
    ensures { IfOk result (λ e. e ≡ Psatz.Square poly.now) }
{
    Boxed::new(alloc, Psatz::Square(poly.copy(alloc)?))
}

fn boxed_multiple(
    alloc: Global,
    poly: &Poly,
    part: Boxed<Psatz>,
) -> Result<Boxed<Psatz>, AllocError>
    ensures { IfOk result (λ e. e ≡ Psatz.MulPoly poly.now part) }
{
    Boxed::new(alloc, Psatz::MulPoly(poly.copy(alloc)?, part))
}

#[cycle(copying)]
fn boxed_cert(alloc: Global, cert: &Cert) -> Result<Boxed<Cert>, AllocError>
    ensures { IfOk result (λ copied. copied ≡ cert.now) }
{
    match &cert.close {
        Close::Done => with_steps(alloc, &cert.steps, Close::Done),
        Close::Split(poly, first, second) => {
            let first = boxed_cert(alloc, first.get())?;
            let second = boxed_cert(alloc, second.get())?;
            let close = Close::Split(poly.copy(alloc)?, first, second);
            with_steps(alloc, &cert.steps, close)
        }
        Close::Enum(ends, members) => {
            let members = copied_members(alloc, members.as_slice())?;
            let close = Close::Enum(boxed_ends(alloc, ends.get())?, members);
            with_steps(alloc, &cert.steps, close)
        }
    }
}

fn boxed_ends(alloc: Global, ends: &Ends) -> Result<Boxed<Ends>, AllocError>
    ensures { IfOk result (λ copied. copied ≡ ends.now) }
{
    let lower = ends.lower.copy(alloc)?;
    let upper = ends.upper.copy(alloc)?;
    Boxed::new(alloc, Ends { lower, upper })
}

#[cycle(copying)]
fn copied_members(alloc: Global, members: &[Cert]) -> Result<Items<Cert>, AllocError>
    ensures { IfOk result (λ copies. copies ≡ members.now) }
{
    let mut copies = Vec::with_capacity(alloc, members.len())?;
    for member in members {
        copies.push(boxed_cert(alloc, member)?.into_inner())?;
    }
    Ok(Items::from_vec(copies))
}

// A certificate of a copy of the steps, and of the close.
fn with_steps(alloc: Global, steps: &Items<Step>, close: Close) -> Result<Boxed<Cert>, AllocError>
    ensures { IfOk result (λ c. c ≡ record { steps = steps.now; close = close }) }
{
    let steps = copied_steps(alloc, steps.as_slice())?;
    Boxed::new(alloc, Cert { steps, close })
}

fn copied_steps(alloc: Global, steps: &[Step]) -> Result<Items<Step>, AllocError>
    ensures { IfOk result (λ copies. copies ≡ steps.now) }
{
    let mut copies = Vec::with_capacity(alloc, steps.len())?;
    for step in steps {
        copies.push(step.copy(alloc)?)?;
    }
    Ok(Items::from_vec(copies))
}
