ghost use Rattle.std.specs.Prelude.{◌≡◌, ◌+◌, ◌*◌, ◌^◌, ◌<◌, ◌≤◌, unsigned_abs, IfOk, IsTrue, ◌↔◌};
ghost use Rattle.mm_poly.specs.Mono.{mono_degree};
ghost use Rattle.mm_poly.specs.Poly.{term_cmp};
ghost use Rattle.mm_poly.specs.Product.{term_times};

use crate::mono::Mono;
use std::alloc::{AllocError, Global};
use std::cmp::Ordering;

/// A monomial with its coefficient.
#[derive(Debug, Drop)]
pub struct Term {
    pub coeff: i128,
    pub mono: Mono,
}

impl Term {
    /// The product of both.
    pub fn times(&self, other: &Term) -> Result<Term, AllocError>
        requires small { unsigned_abs self.now.coeff * unsigned_abs other.now.coeff < 2 ^ 126 }
        requires degree { mono_degree self.now.mono + mono_degree other.now.mono ≤ 255 }
        ensures { IfOk result (λ t. t ≡ term_times self.now other.now) }
    {
        let mono = self.mono.times(&other.mono)?;
        Ok(Term {
            coeff: self.coeff * other.coeff,
            mono,
        })
    }

    /// Whether it has the same monomial and the same coefficient.
    #[tactic(auto, using(crate::proofs::CoeffLaws::term_same))]
    pub fn same(&self, other: &Term) -> bool
        ensures { IsTrue result ↔ (self.now ≡ other.now) }
    {
        self.coeff == other.coeff && self.mono.same(&other.mono)
    }

    /// How it compares to another one: by the monomial, and then by the coefficient.
    pub fn order(&self, other: &Term) -> Ordering
        ensures { result ≡ term_cmp self.now other.now }
    {
        let by_monomial = self.mono.order(&other.mono);
        by_monomial.then(self.coeff.cmp(&other.coeff))
    }

    /// An equal term.
    pub fn copy(&self) -> Result<Term, AllocError>
        ensures { IfOk result (λ t. t ≡ self.now) }
    {
        let mono = self.mono.copy()?;
        Ok(Term {
            coeff: self.coeff,
            mono,
        })
    }
}
