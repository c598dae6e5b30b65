ghost use Rattle.std.specs.Prelude.{◌≡◌, IfOk};

use crate::formula::{BCmp, BFn, BTerm, Cmp, Formula};
use crate::term::{Fn1, Fn2, Sort, Term};
use sqlite_items::Boxed;
use std::alloc::{AllocError, Global};

/// Each is `Err` where there is no memory.
impl Term {
    /// `-a`.
    pub fn negation(alloc: Global, a: Term) -> Result<Term, AllocError>
        ensures { IfOk result (λ made. made ≡ Term.Neg a) }
    {
        Ok(Term::Neg(Boxed::new(alloc, a)?))
    }

    /// `a + b`.
    pub fn sum(alloc: Global, a: Term, b: Term) -> Result<Term, AllocError>
        ensures { IfOk result (λ made. made ≡ Term.Add a b) }
    {
        Ok(Term::Add(Boxed::new(alloc, a)?, Boxed::new(alloc, b)?))
    }

    /// `a - b`, on this sort.
    pub fn difference(alloc: Global, sort: Sort, a: Term, b: Term) -> Result<Term, AllocError>
        ensures { IfOk result (λ made. made ≡ Term.Sub sort a b) }
    {
        Ok(Term::Sub(sort, Boxed::new(alloc, a)?, Boxed::new(alloc, b)?))
    }

    /// `a * b`.
    pub fn product(alloc: Global, a: Term, b: Term) -> Result<Term, AllocError>
        ensures { IfOk result (λ made. made ≡ Term.Mul a b) }
    {
        Ok(Term::Mul(Boxed::new(alloc, a)?, Boxed::new(alloc, b)?))
    }

    /// `a ^ k`.
    pub fn power(alloc: Global, a: Term, k: i128) -> Result<Term, AllocError>
        ensures { IfOk result (λ made. made ≡ Term.Pow a k) }
    {
        Ok(Term::Pow(Boxed::new(alloc, a)?, k))
    }

    /// `a / k`.
    pub fn quotient(alloc: Global, a: Term, k: i128) -> Result<Term, AllocError>
        ensures { IfOk result (λ made. made ≡ Term.Div a k) }
    {
        Ok(Term::Div(Boxed::new(alloc, a)?, k))
    }

    /// `a mod k`.
    pub fn remainder(alloc: Global, a: Term, k: i128) -> Result<Term, AllocError>
        ensures { IfOk result (λ made. made ≡ Term.Rem a k) }
    {
        Ok(Term::Rem(Boxed::new(alloc, a)?, k))
    }

    /// A function of one argument.
    pub fn call1(alloc: Global, f: Fn1, a: Term) -> Result<Term, AllocError>
        ensures { IfOk result (λ made. made ≡ Term.Call1 f a) }
    {
        Ok(Term::Call1(f, Boxed::new(alloc, a)?))
    }

    /// A function of two arguments.
    pub fn call2(alloc: Global, f: Fn2, a: Term, b: Term) -> Result<Term, AllocError>
        ensures { IfOk result (λ made. made ≡ Term.Call2 f a b) }
    {
        Ok(Term::Call2(f, Boxed::new(alloc, a)?, Boxed::new(alloc, b)?))
    }
}

/// Each is `Err` where there is no memory.
impl BTerm {
    /// A comparison of numbers.
    pub fn test(alloc: Global, c: BCmp, t: Term, u: Term) -> Result<BTerm, AllocError>
        ensures { IfOk result (λ made. made ≡ BTerm.Test c t u) }
    {
        Ok(BTerm::Test(c, Boxed::new(alloc, t)?, Boxed::new(alloc, u)?))
    }

    /// `negb a`.
    pub fn negation(alloc: Global, a: BTerm) -> Result<BTerm, AllocError>
        ensures { IfOk result (λ made. made ≡ BTerm.Not a) }
    {
        Ok(BTerm::Not(Boxed::new(alloc, a)?))
    }

    /// `a && b`.
    pub fn conjunction(alloc: Global, a: BTerm, b: BTerm) -> Result<BTerm, AllocError>
        ensures { IfOk result (λ made. made ≡ BTerm.And a b) }
    {
        Ok(BTerm::And(Boxed::new(alloc, a)?, Boxed::new(alloc, b)?))
    }

    /// `a || b`.
    pub fn disjunction(alloc: Global, a: BTerm, b: BTerm) -> Result<BTerm, AllocError>
        ensures { IfOk result (λ made. made ≡ BTerm.Or a b) }
    {
        Ok(BTerm::Or(Boxed::new(alloc, a)?, Boxed::new(alloc, b)?))
    }

    /// A function of two arguments.
    pub fn call(alloc: Global, f: BFn, a: BTerm, b: BTerm) -> Result<BTerm, AllocError>
        ensures { IfOk result (λ made. made ≡ BTerm.Call f a b) }
    {
        Ok(BTerm::Call(f, Boxed::new(alloc, a)?, Boxed::new(alloc, b)?))
    }
}

/// Each is `Err` where there is no memory.
impl Formula {
    /// A comparison of numbers.
    pub fn atom(alloc: Global, c: Cmp, t: Term, u: Term) -> Result<Formula, AllocError>
        ensures { IfOk result (λ made. made ≡ Formula.Atom c t u) }
    {
        Ok(Formula::Atom(c, Boxed::new(alloc, t)?, Boxed::new(alloc, u)?))
    }

    /// Two comparisons that share their middle.
    pub fn chain(
        alloc: Global,
        t: Term,
        c: Cmp,
        u: Term,
        d: Cmp,
        v: Term,
    ) -> Result<Formula, AllocError>
        ensures { IfOk result (λ made. made ≡ Formula.Chain t c u d v) }
    {
        Ok(Formula::Chain(
            Boxed::new(alloc, t)?,
            c,
            Boxed::new(alloc, u)?,
            d,
            Boxed::new(alloc, v)?,
        ))
    }

    /// `b = c` of two bools.
    pub fn same(alloc: Global, b: BTerm, c: BTerm) -> Result<Formula, AllocError>
        ensures { IfOk result (λ made. made ≡ Formula.Same b c) }
    {
        Ok(Formula::Same(Boxed::new(alloc, b)?, Boxed::new(alloc, c)?))
    }

    /// `b <> c` of two bools.
    pub fn differ(alloc: Global, b: BTerm, c: BTerm) -> Result<Formula, AllocError>
        ensures { IfOk result (λ made. made ≡ Formula.Differ b c) }
    {
        Ok(Formula::Differ(Boxed::new(alloc, b)?, Boxed::new(alloc, c)?))
    }

    /// `~ f`.
    pub fn negation(alloc: Global, f: Formula) -> Result<Formula, AllocError>
        ensures { IfOk result (λ made. made ≡ Formula.Not f) }
    {
        Ok(Formula::Not(Boxed::new(alloc, f)?))
    }

    /// `f /\ g`.
    pub fn conjunction(alloc: Global, f: Formula, g: Formula) -> Result<Formula, AllocError>
        ensures { IfOk result (λ made. made ≡ Formula.And f g) }
    {
        Ok(Formula::And(Boxed::new(alloc, f)?, Boxed::new(alloc, g)?))
    }

    /// `f \/ g`.
    pub fn disjunction(alloc: Global, f: Formula, g: Formula) -> Result<Formula, AllocError>
        ensures { IfOk result (λ made. made ≡ Formula.Or f g) }
    {
        Ok(Formula::Or(Boxed::new(alloc, f)?, Boxed::new(alloc, g)?))
    }

    /// `f -> g`.
    pub fn implication(alloc: Global, f: Formula, g: Formula) -> Result<Formula, AllocError>
        ensures { IfOk result (λ made. made ≡ Formula.Imp f g) }
    {
        Ok(Formula::Imp(Boxed::new(alloc, f)?, Boxed::new(alloc, g)?))
    }

    /// `f <-> g`.
    pub fn equivalence(alloc: Global, f: Formula, g: Formula) -> Result<Formula, AllocError>
        ensures { IfOk result (λ made. made ≡ Formula.Iff f g) }
    {
        Ok(Formula::Iff(Boxed::new(alloc, f)?, Boxed::new(alloc, g)?))
    }
}
