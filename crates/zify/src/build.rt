ghost use Rattle.std.specs.Prelude.{◌≡◌, IfOk};

use crate::form::ZForm;
use crate::term::ZTerm;
use goal_ast::Cmp;
use sqlite_items::Boxed;
use std::alloc::{AllocError, Global};

/// Each is `Err` where there is no memory.
impl ZTerm {
    /// `-a`.
    pub fn negation(alloc: Global, a: ZTerm) -> Result<ZTerm, AllocError>
        ensures { IfOk result (λ made. made ≡ ZTerm.Neg a) }
    {
        Ok(ZTerm::Neg(Boxed::new(alloc, a)?))
    }

    /// `a + b`.
    pub fn sum(alloc: Global, a: ZTerm, b: ZTerm) -> Result<ZTerm, AllocError>
        ensures { IfOk result (λ made. made ≡ ZTerm.Add a b) }
    {
        Ok(ZTerm::Add(Boxed::new(alloc, a)?, Boxed::new(alloc, b)?))
    }

    /// `a - b`.
    pub fn difference(alloc: Global, a: ZTerm, b: ZTerm) -> Result<ZTerm, AllocError>
        ensures { IfOk result (λ made. made ≡ ZTerm.Sub a b) }
    {
        Ok(ZTerm::Sub(Boxed::new(alloc, a)?, Boxed::new(alloc, b)?))
    }

    /// `a * b`.
    pub fn product(alloc: Global, a: ZTerm, b: ZTerm) -> Result<ZTerm, AllocError>
        ensures { IfOk result (λ made. made ≡ ZTerm.Mul a b) }
    {
        Ok(ZTerm::Mul(Boxed::new(alloc, a)?, Boxed::new(alloc, b)?))
    }

    /// `a ^ k`.
    pub fn power(alloc: Global, a: ZTerm, k: i128) -> Result<ZTerm, AllocError>
        ensures { IfOk result (λ made. made ≡ ZTerm.Pow a k) }
    {
        Ok(ZTerm::Pow(Boxed::new(alloc, a)?, k))
    }

    /// An equal term.
    pub fn copy(&self, alloc: Global) -> Result<ZTerm, AllocError>
        ensures { IfOk result (λ made. made ≡ self.now) }
    {
        Ok(boxed_copy(alloc, self)?.into_inner())
    }
}

fn boxed_copy(alloc: Global, t: &ZTerm) -> Result<Boxed<ZTerm>, AllocError>
    ensures { IfOk result (λ made. made ≡ t.now) }
{
    match t {
        ZTerm::Lit(n) => Boxed::new(alloc, ZTerm::Lit(*n)),
        ZTerm::Var(v) => Boxed::new(alloc, ZTerm::Var(*v)),
        ZTerm::Neg(a) => Boxed::new(alloc, ZTerm::Neg(boxed_copy(alloc, a.get())?)),
        ZTerm::Add(a, b) => Boxed::new(
            alloc,
            ZTerm::Add(boxed_copy(alloc, a.get())?, boxed_copy(alloc, b.get())?),
        ),
        ZTerm::Sub(a, b) => Boxed::new(
            alloc,
            ZTerm::Sub(boxed_copy(alloc, a.get())?, boxed_copy(alloc, b.get())?),
        ),
        ZTerm::Mul(a, b) => Boxed::new(
            alloc,
            ZTerm::Mul(boxed_copy(alloc, a.get())?, boxed_copy(alloc, b.get())?),
        ),
        ZTerm::Pow(a, k) => Boxed::new(alloc, ZTerm::Pow(boxed_copy(alloc, a.get())?, *k)),
    }
}

/// Each is `Err` where there is no memory.
impl ZForm {
    /// A comparison.
    pub fn atom(alloc: Global, c: Cmp, t: ZTerm, u: ZTerm) -> Result<ZForm, AllocError>
        ensures { IfOk result (λ made. made ≡ ZForm.Atom c t u) }
    {
        Ok(ZForm::Atom(c, Boxed::new(alloc, t)?, Boxed::new(alloc, u)?))
    }

    /// `~ f`.
    pub fn negation(alloc: Global, f: ZForm) -> Result<ZForm, AllocError>
        ensures { IfOk result (λ made. made ≡ ZForm.Not f) }
    {
        Ok(ZForm::Not(Boxed::new(alloc, f)?))
    }

    /// `f /\ g`.
    pub fn conjunction(alloc: Global, f: ZForm, g: ZForm) -> Result<ZForm, AllocError>
        ensures { IfOk result (λ made. made ≡ ZForm.And f g) }
    {
        Ok(ZForm::And(Boxed::new(alloc, f)?, Boxed::new(alloc, g)?))
    }

    /// `f \/ g`.
    pub fn disjunction(alloc: Global, f: ZForm, g: ZForm) -> Result<ZForm, AllocError>
        ensures { IfOk result (λ made. made ≡ ZForm.Or f g) }
    {
        Ok(ZForm::Or(Boxed::new(alloc, f)?, Boxed::new(alloc, g)?))
    }

    /// `f -> g`.
    pub fn implication(alloc: Global, f: ZForm, g: ZForm) -> Result<ZForm, AllocError>
        ensures { IfOk result (λ made. made ≡ ZForm.Imp f g) }
    {
        Ok(ZForm::Imp(Boxed::new(alloc, f)?, Boxed::new(alloc, g)?))
    }

    /// `f <-> g`.
    pub fn equivalence(alloc: Global, f: ZForm, g: ZForm) -> Result<ZForm, AllocError>
        ensures { IfOk result (λ made. made ≡ ZForm.Iff f g) }
    {
        Ok(ZForm::Iff(Boxed::new(alloc, f)?, Boxed::new(alloc, g)?))
    }
}
