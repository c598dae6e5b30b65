ghost use Rattle.std.specs.Prelude.{◌≡◌, ◌*◌, ◌^◌, ◌<◌, ◌≤◌, max, ◌*ℤ◌, unsigned_abs, length, IsTrue, ◌↔◌};
ghost use Rattle.mm_poly.specs.Mono.{mono_degree, VarsBelow};
ghost use Rattle.mm_num.specs.Power.{power};
ghost use Rattle.mm_poly.specs.Poly.{value, term_value, HasPlaces};
ghost use Rattle.mm_poly.specs.Point.{greatest_magnitude, value_bound, point_of};

use crate::limits::NORM_LIMIT;
use crate::term::Term;

/// Whether each variable is below this number.
pub fn have_places(terms: &[Term], count: usize) -> bool
    ensures { IsTrue result ↔ HasPlaces count terms.now }
{
    for term in terms {
        if !term.mono.vars_below(count) {
            return false;
        }
    }
    true
}

/// The greatest magnitude, 0 where there is no number.
pub fn greatest_magnitude(point: &[i128]) -> u128
    ensures { result ≡ greatest_magnitude point.now }
{
    let mut greatest = 0;
    for number in point {
        greatest = greatest.max(number.unsigned_abs());
    }
    greatest
}

/// Whether a number times a power is below the limit of values.
pub fn is_small_multiple(number: u128, base: u128, exponent: u32) -> bool
    requires base { 1 ≤ base }
    requires number { number < 2 ^ 126 }
    ensures { IsTrue result ↔ (number * base ^ exponent < 2 ^ 126) }
{
    let mut multiple = number;
    for _ in 0..exponent {
        match multiple.checked_mul(base) {
            Some(product) if product < NORM_LIMIT => multiple = product,
            _ => return false,
        }
    }
    true
}

/// The value of the terms' sum at a point.
pub fn value_of(terms: &[Term], point: &[i128]) -> i128
    requires places { HasPlaces (length point.now) terms.now }
    requires small { value_bound terms.now point.now < 2 ^ 126 }
    ensures { result ≡ value (point_of point.now) terms.now }
{
    let mut total = 0;
    for term in terms {
        total += value_of_term(term, point);
    }
    total
}

fn value_of_term(term: &Term, point: &[i128]) -> i128
    requires places { VarsBelow (length point.now) term.now.mono }
    requires small { unsigned_abs term.now.coeff * max 1 (greatest_magnitude point.now) ^ mono_degree term.now.mono < 2 ^ 126 }
    ensures { result ≡ term_value (point_of point.now) term.now }
{
    let mut product = term.coeff;
    for n in 0..term.mono.len() {
        let (variable, exponent) = term.mono.factor(n);
        let base = point[variable as usize];
        product = times_power(product, base, exponent);
    }
    product
}

// A number times a power.
fn times_power(number: i128, base: i128, exponent: u8) -> i128
    requires { unsigned_abs number * max 1 (unsigned_abs base) ^ exponent < 2 ^ 126 }
    ensures { result ≡ number *ℤ power base exponent }
{
    let mut product = number;
    for _ in 0..exponent {
        product *= base;
    }
    product
}
