ghost use Rattle.std.specs.Prelude.{◌≡◌, ℤ, pos, ◌+ℤ◌, ◌≤ℤ◌, ◌<ℤ◌, ◌*ℤ◌, ◌↔◌, SomeIff, IsSome, IsNone, IfSome, unsigned_abs};
ghost use Rattle.std.specs.Int.{IsGcd};
ghost use Rattle.std.specs.Ordering.{int_cmp};
ghost use Rattle.mm_num.specs.Small.{IsSmall};
ghost use Rattle.mm_num.specs.Frac.{IsFraction, HasValue, CanAdd, CanMultiply, CanDivide, AreCrossSmall, left_cross, right_cross};

use crate::divide::divided;
use crate::gcd;
use std::cmp::Ordering;
use std::marker::Model;

const SMALL_LIMIT: u128 = 85070591730234615865843651857942052864;

/// A fraction: a numerator and a denominator of at least 1 without common divisor, both of magnitude below 2^126.
#[derive(Clone, Copy, Debug)]
pub struct Frac {
    num: i128,
    den: i128,
}

impl Model for Frac {
    ghost use Rattle.std.specs.Prelude.{ℤ};
    ghost use Rattle.mm_num.specs.Frac.{IsFraction};

    ghost Value = { ℤ × ℤ };

    ghost view = { λ f. (f.num, f.den) };

    ghost invariant = { λ f. IsFraction (f.num, f.den) };

    ghost inverse = { λ v. record { num = v.0; den = v.1 } };
}

impl Frac {
    /// The fraction of the value `num / den`, none for a denominator of 0.
    pub fn make(num: i128, den: i128) -> Option<Frac>
        requires num { IsSmall num }
        requires den { IsSmall den }
        ensures none { IsNone result ↔ (den ≡ pos 0) }
        ensures value { IfSome result (λ f. HasValue f num den) }
        ensures fraction { IfSome result IsFraction }
    {
        if den == 0 {
            None
        } else if den < 0 {
            Some(lowest(-num, -den))
        } else {
            Some(lowest(num, den))
        }
    }

    /// The numerator.
    pub fn num(&self) -> i128
        ensures value { result ≡ self.now.0 }
        ensures fraction { IsFraction self.now }
    {
        self.num
    }

    /// The denominator.
    pub fn den(&self) -> i128
        ensures value { result ≡ self.now.1 }
        ensures fraction { IsFraction self.now }
    {
        self.den
    }

    /// The sum, none exactly where one of the two cross products, their sum, or the product of the denominators
    /// isn't small.
    pub fn add(&self, other: &Frac) -> Option<Frac>
        ensures some { IsSome result ↔ CanAdd self.now other.now }
        ensures value { IfSome result (λ f. HasValue f
            (left_cross self.now other.now +ℤ right_cross self.now other.now)
            (self.now.1 *ℤ other.now.1)) }
        ensures fraction { IfSome result IsFraction }
    {
        let left = crossed(self, other)?;
        let right = crossed(other, self)?;
        let num = small(left + right)?;
        let den = denominators(self, other)?;
        Frac::make(num, den)
    }

    /// The product, none exactly where the product of the numerators or that of the denominators isn't small.
    pub fn mul(&self, other: &Frac) -> Option<Frac>
        ensures some { IsSome result ↔ CanMultiply self.now other.now }
        ensures value { IfSome result (λ f. HasValue f (self.now.0 *ℤ other.now.0) (self.now.1 *ℤ other.now.1)) }
        ensures fraction { IfSome result IsFraction }
    {
        let num = numerators(self, other)?;
        let den = denominators(self, other)?;
        Frac::make(num, den)
    }

    /// The quotient, none exactly where `other` is 0 or one of the two cross products isn't small.
    pub fn div(&self, other: &Frac) -> Option<Frac>
        ensures some { IsSome result ↔ CanDivide self.now other.now }
        ensures value { IfSome result (λ f. HasValue f (left_cross self.now other.now) (right_cross self.now other.now)) }
        ensures fraction { IfSome result IsFraction }
    {
        let num = crossed(self, other)?;
        let den = crossed(other, self)?;
        Frac::make(num, den)
    }

    /// The order of the values, none exactly where one of the two cross products isn't small.
    pub fn cmp(&self, other: &Frac) -> Option<Ordering>
        ensures some { IsSome result ↔ AreCrossSmall self.now other.now }
        ensures value { IfSome result (λ o. o ≡ int_cmp (left_cross self.now other.now) (right_cross self.now other.now)) }
    {
        let left = crossed(self, other)?;
        let right = crossed(other, self)?;
        Some(left.cmp(&right))
    }
}

/// The fraction in lowest terms.
fn lowest(num: i128, den: i128) -> Frac
    requires num { IsSmall num }
    requires den { IsSmall den }
    requires positive { pos 1 ≤ℤ den }
    ensures value { HasValue result num den }
    ensures fraction { IsFraction result }
{
    let divisor = common(num, den);
    let above = divided(num, divisor);
    let below = divided(den, divisor);
    Frac {
        num: above,
        den: below,
    }
}

/// The greatest common divisor of a numerator and a denominator of at least 1.
fn common(num: i128, den: i128) -> i128
    requires num { IsSmall num }
    requires den { IsSmall den }
    requires positive { pos 1 ≤ℤ den }
    ensures divisor { IsGcd (unsigned_abs num) (unsigned_abs den) (unsigned_abs result) }
    ensures positive { pos 1 ≤ℤ result }
    ensures small { IsSmall result }
{
    gcd(num, den)
}

/// The product of the numerator and the other's denominator, where it is small.
fn crossed(left: &Frac, right: &Frac) -> Option<i128>
    ensures zero { left_cross left.now right.now ≡ pos 0 → left.now.0 ≡ pos 0 }
    ensures value { SomeIff result (IsSmall (left_cross left.now right.now)) (left_cross left.now right.now) }
{
    small_product(left.num, right.den)
}

/// The product of the numerators, where it is small.
fn numerators(left: &Frac, right: &Frac) -> Option<i128>
    ensures { SomeIff result (IsSmall (left.now.0 *ℤ right.now.0)) (left.now.0 *ℤ right.now.0) }
{
    small_product(left.num, right.num)
}

/// The product of the denominators, where it is small.
#[tactic(auto, using(crate::proofs::Ring::product_positive))]
fn denominators(left: &Frac, right: &Frac) -> Option<i128>
    ensures value { SomeIff result (IsSmall (left.now.1 *ℤ right.now.1)) (left.now.1 *ℤ right.now.1) }
    ensures positive { pos 0 <ℤ (left.now.1 *ℤ right.now.1) }
{
    small_product(left.den, right.den)
}

/// The number, where it is small.
fn small(a: i128) -> Option<i128>
    ensures { SomeIff result (IsSmall a) a }
{
    if a.unsigned_abs() < SMALL_LIMIT {
        Some(a)
    } else {
        None
    }
}

/// The product of small numbers, where it is small.
fn small_product(a: i128, b: i128) -> Option<i128>
    requires a { IsSmall a }
    requires b { IsSmall b }
    ensures { SomeIff result (IsSmall (a *ℤ b)) (a *ℤ b) }
{
    small(a.checked_mul(b)?)
}
