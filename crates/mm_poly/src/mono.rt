ghost use Rattle.std.specs.Prelude.{◌≡◌, ℕ, ◌+◌, ◌^◌, ◌<◌, ◌≤◌, List, [], ◌∷◌, length, drop, slice_get, Some, IfOk, IfSome, IsSome, ◌↔◌, IsTrue, nat_lt};
ghost use Rattle.std.specs.Bool.{OnTrue};
ghost use Rattle.std.specs.Cmp.Lexicographic.{slice_cmp};
ghost use Rattle.mm_poly.specs.Tests.{rises, starts_rising};
ghost use Rattle.mm_poly.specs.Renaming.{by_table, renamed_mono};
ghost use Rattle.mm_poly.specs.Mono.{exponent_of, without_variable, with_exponent, mono_cmp, mono_degree, mono_times, factor_cmp, IsMono, IsMonomial, VarsBelow};

use smallvec::SmallVec;
use std::alloc::{AllocError, Global};
use std::cmp::Ordering;
use std::marker::Model;

/// Factors in any order: a variable and its exponent each. Two of them need no memory.
pub type Factors = SmallVec<(u32, u8), 2>;

/// A product of powers of variables: the variables rise, each exponent is at least 1, and they sum to at most
/// 255. The constant monomial has no factors.
#[derive(Debug, Drop)]
pub struct Mono {
    factors: Factors,
}

impl Model for Mono {
    ghost use Rattle.std.specs.Prelude.{List, ℕ};
    ghost use Rattle.mm_poly.specs.Mono.{IsMonomial};

    ghost Value = { List (ℕ × ℕ) };

    ghost view = { λ m. m.factors.items };

    ghost invariant = { λ m. IsMonomial m.factors.items };
}

impl Mono {
    /// The constant monomial.
    pub fn one(alloc: Global) -> Mono
        ensures { result ≡ [] }
    {
        Mono {
            factors: SmallVec::new(alloc),
        }
    }

    /// The monomial of one variable.
    pub fn var(alloc: Global, v: u32) -> Result<Mono, AllocError>
        ensures { IfOk result (λ m. m ≡ (v, 1) ∷ []) }
    {
        let mut factors = SmallVec::new(alloc);
        factors.push((v, 1))?;
        Ok(Mono { factors })
    }

    /// The monomial with these factors, a variable and its exponent each: none where they don't rise, an exponent
    /// is 0, or the exponents sum to more than 255.
    pub fn from_factors(mut factors: Factors) -> Option<Mono>
        ensures some { IsSome result ↔ IsMonomial factors.items }
        ensures value { IfSome result (λ m. m ≡ factors.items) }
    {
        if is_monomial(factors.as_slice()) {
            factors.shrink_to_fit();
            Some(Mono { factors })
        } else {
            None
        }
    }

    /// The power of one variable, with an exponent of at least 1.
    pub fn power(alloc: Global, v: u32, exponent: u8) -> Result<Mono, AllocError>
        requires { 1 ≤ exponent }
        ensures { IfOk result (λ m. m ≡ (v, exponent) ∷ []) }
    {
        let mut factors = SmallVec::new(alloc);
        factors.push((v, exponent))?;
        Ok(Mono { factors })
    }

    /// The factors, a variable and its exponent each: the variables rise.
    pub fn factors(&self) -> &[(u32, u8)]
        ensures value { result.now ≡ self.now }
        ensures monomial { IsMonomial self.now }
    {
        self.factors.as_slice()
    }

    /// The exponent of a variable, 0 where it doesn't occur.
    pub fn exponent(&self, v: u32) -> u8
        ensures { result ≡ exponent_of self.now v }
    {
        exponent_in(self.factors.as_slice(), v)
    }

    /// How many factors it has.
    #[tactic(auto, using(crate::proofs::MonoLaws::length_small))]
    pub fn len(&self) -> u32
        ensures value { result ≡ length self.now }
        ensures small { result ≤ 255 }
        ensures monomial { IsMonomial self.now }
    {
        let factors = self.factors.as_slice();
        factors.len() as u32
    }

    /// Whether it is the constant monomial.
    pub fn is_empty(&self) -> bool
        ensures { IsTrue result ↔ (self.now ≡ []) }
    {
        self.factors.is_empty()
    }

    /// The factor at a place from 0 on: the variable and its exponent.
    pub fn factor(&self, n: u32) -> (u32, u8)
        requires { n < length self.now }
        ensures { slice_get self.now n ≡ Some result }
    {
        self.factors[n as usize]
    }

    /// The sum of the exponents, from 0 to 255.
    pub fn degree(&self) -> u32
        ensures value { result ≡ mono_degree self.now }
        ensures small { result ≤ 255 }
        ensures monomial { IsMonomial self.now }
    {
        sum_of_exponents(self.factors.as_slice())
    }

    /// How it compares to another one in monomial order.
    pub fn order(&self, other: &Mono) -> Ordering
        ensures { result ≡ mono_cmp self.now other.now }
    {
        let higher_first = other.degree().cmp(&self.degree());
        higher_first.then(order_of_factors(self.factors.as_slice(), other.factors.as_slice()))
    }

    /// Whether each variable is below this number.
    pub fn vars_below(&self, count: usize) -> bool
        ensures { IsTrue result ↔ VarsBelow count self.now }
    {
        are_below(self.factors.as_slice(), count)
    }

    /// The product, for degrees that sum to at most 255: the exponents of a variable are added.
    pub fn times(&self, other: &Mono) -> Result<Mono, AllocError>
        requires { mono_degree self.now + mono_degree other.now ≤ 255 }
        ensures { IfOk result (λ m. m ≡ mono_times self.now other.now) }
    {
        let factors = product_of_factors(
            *self.factors.allocator(),
            self.factors.as_slice(),
            other.factors.as_slice(),
        )?;
        Ok(Mono { factors })
    }

    /// The monomial without a variable.
    pub fn without(&self, v: u32) -> Result<Mono, AllocError>
        ensures { IfOk result (λ m. m ≡ without_variable self.now v) }
    {
        let factors = other_factors(*self.factors.allocator(), self.factors.as_slice(), v)?;
        Ok(Mono { factors })
    }

    /// The same monomial but for the exponent of a variable, which becomes this one.
    pub fn with_power(&self, v: u32, exponent: u8) -> Result<Mono, AllocError>
        requires { mono_degree (without_variable self.now v) + exponent ≤ 255 }
        ensures { IfOk result (λ m. m ≡ with_exponent self.now v exponent) }
    {
        let others = self.without(v)?;
        if exponent == 0 {
            return Ok(others);
        }
        Mono::power(*self.factors.allocator(), v, exponent)?.times(&others)
    }

    /// Each variable exchanged by the one at its place in a table.
    pub fn renamed(&self, table: &[u32]) -> Result<Mono, AllocError>
        requires { VarsBelow (length table.now) self.now }
        ensures { IfOk result (λ m. m ≡ renamed_mono (by_table table.now) self.now) }
    {
        renamed_factors(*self.factors.allocator(), self.factors.as_slice(), table)
    }

    /// Whether it is the same monomial.
    #[tactic(auto, using(crate::proofs::SameLaws::same_factors))]
    pub fn same(&self, other: &Mono) -> bool
        ensures { IsTrue result ↔ (self.now ≡ other.now) }
    {
        order_of_factors(self.factors.as_slice(), other.factors.as_slice()) == Ordering::Equal
    }

    /// An equal monomial.
    pub fn copy(&self) -> Result<Mono, AllocError>
        ensures { IfOk result (λ m. m ≡ self.now) }
    {
        let factors = SmallVec::from_slice(*self.factors.allocator(), self.factors.as_slice())?;
        Ok(Mono { factors })
    }
}

// Whether each variable is below this number.
fn are_below(factors: &[(u32, u8)], count: usize) -> bool
    ensures { IsTrue result ↔ VarsBelow count factors.now }
{
    for factor in factors {
        if factor.0 as usize >= count {
            return false;
        }
    }
    true
}

// The monomial of factors whose variables are exchanged.
fn renamed_factors(alloc: Global, factors: &[(u32, u8)], table: &[u32]) -> Result<Mono, AllocError>
    requires monomial { IsMonomial factors.now }
    requires places { VarsBelow (length table.now) factors.now }
    ensures { IfOk result (λ m. m ≡ renamed_mono (by_table table.now) factors.now) }
{
    let mut renamed = Mono::one(alloc);
    for n in (0..factors.len()).rev() {
        let (variable, exponent) = factors[n];
        let factor = Mono::power(alloc, table[variable as usize], exponent)?;
        renamed = factor.times(&renamed)?;
    }
    Ok(renamed)
}

// The exponent of a variable, 0 where it doesn't occur.
fn exponent_in(factors: &[(u32, u8)], v: u32) -> u8
    ensures { result ≡ exponent_of factors.now v }
{
    for factor in factors {
        if factor.0 == v {
            return factor.1;
        }
    }
    0
}

// The factors of the other variables.
fn other_factors(alloc: Global, factors: &[(u32, u8)], v: u32) -> Result<Factors, AllocError>
    ensures { IfOk result (λ out. out.items ≡ without_variable factors.now v) }
{
    let mut out = SmallVec::new(alloc);
    for factor in factors {
        if factor.0 != v {
            out.push(*factor)?;
        }
    }
    Ok(out)
}

// The factors of both, with the sum of the exponents for a variable that both have.
fn product_of_factors(
    alloc: Global,
    left: &[(u32, u8)],
    right: &[(u32, u8)],
) -> Result<Factors, AllocError>
    requires left { IsMono left.now }
    requires right { IsMono right.now }
    requires small { mono_degree left.now + mono_degree right.now ≤ 255 }
    ensures { IfOk result (λ factors. factors.items ≡ mono_times left.now right.now) }
{
    let mut out = SmallVec::new(alloc);
    let mut i = 0;
    let mut j = 0;
    while i < left.len() && j < right.len() {
        let first = left[i];
        let second = right[j];
        match first.0.cmp(&second.0) {
            Ordering::Less => {
                out.push(first)?;
                i += 1;
            }
            Ordering::Equal => {
                out.push((first.0, first.1 + second.1))?;
                i += 1;
                j += 1;
            }
            Ordering::Greater => {
                out.push(second)?;
                j += 1;
            }
        }
    }
    out.extend_from_slice(&left[i..])?;
    out.extend_from_slice(&right[j..])?;
    Ok(out)
}

// The sum of the exponents.
fn sum_of_exponents(factors: &[(u32, u8)]) -> u32
    requires { mono_degree factors.now ≤ 255 }
    ensures { result ≡ mono_degree factors.now }
{
    let mut total = 0;
    for factor in factors {
        total += u32::from(factor.1);
    }
    total
}

// How lists of factors compare: the first factors that differ decide, and else the shorter list comes first.
fn order_of_factors(left: &[(u32, u8)], right: &[(u32, u8)]) -> Ordering
    ensures { result ≡ slice_cmp factor_cmp left.now right.now }
{
    for n in 0..left.len().min(right.len()) {
        let order = order_of_factor(left[n], right[n]);
        if order != Ordering::Equal {
            return order;
        }
    }
    left.len().cmp(&right.len())
}

fn order_of_factor(left: (u32, u8), right: (u32, u8)) -> Ordering
    ensures { result ≡ factor_cmp left right }
{
    left.0.cmp(&right.0).then(right.1.cmp(&left.1))
}

// Whether the variables rise, each exponent is at least 1, and they sum to at most 255.
fn is_monomial(factors: &[(u32, u8)]) -> bool
    ensures value { result ≡ rises 0 factors.now }
    ensures room { OnTrue result (VarsBelow (2 ^ 32) factors.now) }
{
    let mut degree = 0;
    for (n, factor) in factors.iter().enumerate() {
        degree += u32::from(factor.1);
        if !has_exponent(factor.0, factor.1) || !is_below_next(factors, n) || degree > 255 {
            return false;
        }
    }
    true
}

// Whether the exponent is at least 1. That a variable is below 2^32 is its type.
fn has_exponent(variable: u32, exponent: u8) -> bool
    ensures value { result ≡ nat_lt 0 exponent }
    ensures room { variable < 2 ^ 32 }
{
    let _ = variable;
    exponent > 0
}

// Whether the variable at this place is below the next one, if there is one.
fn is_below_next(factors: &[(u32, u8)], n: usize) -> bool
    requires { n < length factors.now }
    ensures { result ≡ starts_rising (drop n factors.now) }
{
    n + 1 >= factors.len() || factors[n].0 < factors[n + 1].0
}
