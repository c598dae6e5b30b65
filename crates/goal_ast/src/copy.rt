ghost use Rattle.std.specs.Prelude.{◌≡◌, ◌++◌, IfOk, OnOk};

use crate::formula::{BTerm, Formula};
use crate::goal::{Bound, Goal, Name};
use crate::term::Term;
use sqlite_items::{Boxed, Items};
use std::alloc::{AllocError, Global};

fn boxed_term(alloc: Global, t: &Term) -> Result<Boxed<Term>, AllocError>
    ensures { IfOk result (λ made. made ≡ t.now) }
{
    match t {
        Term::Lit(n) => Boxed::new(alloc, Term::Lit(*n)),
        Term::Var(v) => Boxed::new(alloc, Term::Var(*v)),
        Term::Neg(a) => Boxed::new(alloc, Term::Neg(boxed_term(alloc, a.get())?)),
        Term::Add(a, b) => Boxed::new(
            alloc,
            Term::Add(boxed_term(alloc, a.get())?, boxed_term(alloc, b.get())?),
        ),
        Term::Sub(sort, a, b) => Boxed::new(
            alloc,
            Term::Sub(
                *sort,
                boxed_term(alloc, a.get())?,
                boxed_term(alloc, b.get())?,
            ),
        ),
        Term::Mul(a, b) => Boxed::new(
            alloc,
            Term::Mul(boxed_term(alloc, a.get())?, boxed_term(alloc, b.get())?),
        ),
        Term::Pow(a, k) => Boxed::new(alloc, Term::Pow(boxed_term(alloc, a.get())?, *k)),
        Term::Div(a, k) => Boxed::new(alloc, Term::Div(boxed_term(alloc, a.get())?, *k)),
        Term::Rem(a, k) => Boxed::new(alloc, Term::Rem(boxed_term(alloc, a.get())?, *k)),
        Term::Call1(f, a) => Boxed::new(alloc, Term::Call1(*f, boxed_term(alloc, a.get())?)),
        Term::Call2(f, a, b) => Boxed::new(
            alloc,
            Term::Call2(*f, boxed_term(alloc, a.get())?, boxed_term(alloc, b.get())?),
        ),
    }
}

impl Term {
    /// An equal term. `Err` where there is no memory.
    pub fn copy(&self, alloc: Global) -> Result<Term, AllocError>
        ensures { IfOk result (λ made. made ≡ self.now) }
    {
        Ok(boxed_term(alloc, self)?.into_inner())
    }
}

fn boxed_bool(alloc: Global, t: &BTerm) -> Result<Boxed<BTerm>, AllocError>
    ensures { IfOk result (λ made. made ≡ t.now) }
{
    match t {
        BTerm::True => Boxed::new(alloc, BTerm::True),
        BTerm::False => Boxed::new(alloc, BTerm::False),
        BTerm::Var(v) => Boxed::new(alloc, BTerm::Var(*v)),
        BTerm::Test(c, t, u) => Boxed::new(
            alloc,
            BTerm::Test(*c, boxed_term(alloc, t.get())?, boxed_term(alloc, u.get())?),
        ),
        BTerm::Not(a) => Boxed::new(alloc, BTerm::Not(boxed_bool(alloc, a.get())?)),
        BTerm::And(a, b) => Boxed::new(
            alloc,
            BTerm::And(boxed_bool(alloc, a.get())?, boxed_bool(alloc, b.get())?),
        ),
        BTerm::Or(a, b) => Boxed::new(
            alloc,
            BTerm::Or(boxed_bool(alloc, a.get())?, boxed_bool(alloc, b.get())?),
        ),
        BTerm::Call(f, a, b) => Boxed::new(
            alloc,
            BTerm::Call(*f, boxed_bool(alloc, a.get())?, boxed_bool(alloc, b.get())?),
        ),
    }
}

impl BTerm {
    /// An equal bool term. `Err` where there is no memory.
    pub fn copy(&self, alloc: Global) -> Result<BTerm, AllocError>
        ensures { IfOk result (λ made. made ≡ self.now) }
    {
        Ok(boxed_bool(alloc, self)?.into_inner())
    }
}

fn boxed_formula(alloc: Global, t: &Formula) -> Result<Boxed<Formula>, AllocError>
    ensures { IfOk result (λ made. made ≡ t.now) }
{
    match t {
        Formula::True => Boxed::new(alloc, Formula::True),
        Formula::False => Boxed::new(alloc, Formula::False),
        Formula::Atom(c, t, u) => Boxed::new(
            alloc,
            Formula::Atom(*c, boxed_term(alloc, t.get())?, boxed_term(alloc, u.get())?),
        ),
        Formula::Chain(t, c, u, d, v) => Boxed::new(
            alloc,
            Formula::Chain(
                boxed_term(alloc, t.get())?,
                *c,
                boxed_term(alloc, u.get())?,
                *d,
                boxed_term(alloc, v.get())?,
            ),
        ),
        Formula::Same(b, c) => Boxed::new(
            alloc,
            Formula::Same(boxed_bool(alloc, b.get())?, boxed_bool(alloc, c.get())?),
        ),
        Formula::Differ(b, c) => Boxed::new(
            alloc,
            Formula::Differ(boxed_bool(alloc, b.get())?, boxed_bool(alloc, c.get())?),
        ),
        Formula::Not(f) => Boxed::new(alloc, Formula::Not(boxed_formula(alloc, f.get())?)),
        Formula::And(f, g) => Boxed::new(
            alloc,
            Formula::And(
                boxed_formula(alloc, f.get())?,
                boxed_formula(alloc, g.get())?,
            ),
        ),
        Formula::Or(f, g) => Boxed::new(
            alloc,
            Formula::Or(
                boxed_formula(alloc, f.get())?,
                boxed_formula(alloc, g.get())?,
            ),
        ),
        Formula::Imp(f, g) => Boxed::new(
            alloc,
            Formula::Imp(
                boxed_formula(alloc, f.get())?,
                boxed_formula(alloc, g.get())?,
            ),
        ),
        Formula::Iff(f, g) => Boxed::new(
            alloc,
            Formula::Iff(
                boxed_formula(alloc, f.get())?,
                boxed_formula(alloc, g.get())?,
            ),
        ),
    }
}

impl Formula {
    /// An equal formula. `Err` where there is no memory.
    pub fn copy(&self, alloc: Global) -> Result<Formula, AllocError>
        ensures { IfOk result (λ made. made ≡ self.now) }
    {
        Ok(boxed_formula(alloc, self)?.into_inner())
    }
}

impl Name {
    /// An equal name. `Err` where there is no memory.
    pub fn copy(&self, alloc: Global) -> Result<Name, AllocError>
        ensures { IfOk result (λ n. n ≡ self.now) }
    {
        let bytes = Items::from_slice(alloc, self.bytes.as_slice())?;
        Ok(Name { bytes })
    }
}

impl Bound {
    /// An equal variable. `Err` where there is no memory.
    pub fn copy(&self, alloc: Global) -> Result<Bound, AllocError>
        ensures { IfOk result (λ b. b ≡ self.now) }
    {
        Ok(Bound {
            name: self.name.copy(alloc)?,
            sort: self.sort,
        })
    }
}

fn push_copies(alloc: Global, out: &mut Vec<Bound>, vars: &[Bound]) -> Result<(), AllocError>
    ensures { OnOk result (out.new.items ≡ out.old.items ++ vars.now) }
{
    for bound in vars {
        out.push(bound.copy(alloc)?)?;
    }
    Ok(())
}

fn bounds(alloc: Global, vars: &[Bound]) -> Result<Items<Bound>, AllocError>
    ensures { IfOk result (λ out. out ≡ vars.now) }
{
    let mut out = Vec::with_capacity(alloc, vars.len())?;
    push_copies(alloc, &mut out, vars)?;
    Ok(Items::from_vec(out))
}

impl Goal {
    /// An equal goal. `Err` where there is no memory.
    pub fn copy(&self, alloc: Global) -> Result<Goal, AllocError>
        ensures { IfOk result (λ g. g ≡ self.now) }
    {
        Ok(Goal {
            mode: self.mode,
            vars: bounds(alloc, self.vars.as_slice())?,
            body: self.body.copy(alloc)?,
        })
    }
}
