ghost use Rattle.std.specs.Prelude.{◌≡◌, ◌<◌, pos, ◌*ℤ◌, ◌≤ℤ◌, length, slice_index_or, IfOk, IfSome};
ghost use Rattle.std.specs.List.{AllByRecursion};
ghost use Rattle.std.specs.List.Sorted.{IsStrictlySortedBy};
ghost use Rattle.std.specs.Ordering.{nat_cmp};
ghost use Rattle.mm_num.specs.Small.{IsSmall};
ghost use Rattle.mm_num.specs.Frac.{IsFraction};
ghost use Rattle.cut_branch.specs.Points.{weight_over, value_over};
ghost use Rattle.cut_branch.specs.machine.Scaling.{IsScaled};

use mm_num::{Frac, floor_div, gcd};
use mm_poly::{Mono, NORM_LIMIT, Poly};
use std::alloc::{AllocError, Global};

/// The values of a point over one denominator.
#[derive(Debug, Drop)]
pub(crate) struct Scaled {
    pub den: i128,
    pub nums: Vec<i128>,
}

/// The values over their least common denominator, where all numbers are small enough.
pub(crate) fn over_one(alloc: Global, point: &[Frac]) -> Result<Option<Scaled>, AllocError>
    ensures { IfOk result (λ found. IfSome found (IsScaled point.now)) }
{
    have_fractions(point);
    let Some(den) = common_denominator(point) else {
        return Ok(None);
    };
    let mut nums = Vec::with_capacity(alloc, point.len())?;
    for value in point {
        let Some(num) = numerator_over(value, den) else {
            return Ok(None);
        };
        nums.push(num)?;
    }
    Ok(Some(Scaled { den, nums }))
}

/// Any values are fractions in lowest terms.
pub(crate) fn have_fractions(point: &[Frac])
    ensures { AllByRecursion IsFraction point.now }
{
    for value in point {
        let _ = value.den();
    }
}

// The least common multiple of the denominators, where it is small.
fn common_denominator(point: &[Frac]) -> Option<i128>
    ensures positive { IfSome result (λ d. pos 1 ≤ℤ d) }
    ensures small { IfSome result IsSmall }
{
    let mut common = 1;
    for value in point {
        common = least_multiple(common, value.den())?;
    }
    Some(common)
}

// The least common multiple of numbers from 1 on, where it is small.
fn least_multiple(a: i128, b: i128) -> Option<i128>
    requires a { IsSmall a }
    requires b { IsSmall b }
    requires positive_a { pos 1 ≤ℤ a }
    requires positive_b { pos 1 ≤ℤ b }
    ensures positive { IfSome result (λ d. pos 1 ≤ℤ d) }
    ensures small { IfSome result IsSmall }
{
    let multiple = small_product(a, b.checked_div(gcd(a, b))?)?;
    if multiple >= 1 { Some(multiple) } else { None }
}

// The numerator of a value over a denominator that its own divides, where it is small.
fn numerator_over(value: &Frac, den: i128) -> Option<i128>
    requires small { IsSmall den }
    requires positive { pos 1 ≤ℤ den }
    ensures value { IfSome result (λ n. n *ℤ value.now.1 ≡ value.now.0 *ℤ den) }
    ensures small { IfSome result IsSmall }
{
    let times = quotient(den, value.den())?;
    small_product(value.num(), times)
}

// The quotient by a divisor.
fn quotient(a: i128, b: i128) -> Option<i128>
    requires a { IsSmall a }
    requires b { IsSmall b }
    requires positive { pos 1 ≤ℤ b }
    ensures value { IfSome result (λ q. q *ℤ b ≡ a) }
    ensures small { IfSome result IsSmall }
{
    let floor = floor_div(a, b);
    if b * floor == a { Some(floor) } else { None }
}

/// The product, where it is small.
pub(crate) fn small_product(a: i128, b: i128) -> Option<i128>
    ensures value { IfSome result (λ n. n ≡ a *ℤ b) }
    ensures small { IfSome result IsSmall }
{
    small(a.checked_mul(b)?)
}

// The number, where it is small.
fn small(a: i128) -> Option<i128>
    ensures value { IfSome result (λ n. n ≡ a) }
    ensures small { IfSome result IsSmall }
{
    if a.unsigned_abs() < NORM_LIMIT {
        Some(a)
    } else {
        None
    }
}

/// A linear polynomial's value at the point, as a numerator over the denominator, where it is small.
pub(crate) fn value_over(poly: &Poly, vars: &[u32], at: &Scaled) -> Option<i128>
    requires rising { IsStrictlySortedBy nat_cmp vars.now }
    requires each { length at.now.nums.items ≡ length vars.now }
    ensures value { IfSome result (λ v. v ≡ value_over vars.now at.now.den at.now.nums.items poly.now) }
    ensures small { IfSome result IsSmall }
{
    let terms = poly.terms();
    let mut total = 0_i128;
    for term in terms {
        let weight = weight_over(&term.mono, vars, at)?;
        let product = term.coeff.checked_mul(weight)?;
        total = total.checked_add(product)?;
    }
    small(total)
}

// What a monomial of degree at most 1 counts for at the point.
fn weight_over(mono: &Mono, vars: &[u32], at: &Scaled) -> Option<i128>
    requires rising { IsStrictlySortedBy nat_cmp vars.now }
    requires each { length at.now.nums.items ≡ length vars.now }
    ensures { IfSome result (λ w. w ≡ weight_over vars.now at.now.den at.now.nums.items mono.now) }
{
    if mono.is_empty() {
        return Some(at.den);
    }
    let factor = mono.factor(0);
    match vars.binary_search(&factor.0) {
        Ok(place) => Some(numerator_at(at, place)),
        Err(_) => None,
    }
}

fn numerator_at(at: &Scaled, place: usize) -> i128
    requires { place < length at.now.nums.items }
    ensures { result ≡ slice_index_or at.now.nums.items place (pos 0) }
{
    at.nums[place]
}
