ghost use Rattle.std.specs.Prelude.{◌≡◌, ◌+◌, ◌*◌, ◌^◌, ◌<◌, ◌≤◌, ◌*ℤ◌, pos, unsigned_abs};
ghost use Rattle.std.specs.List.{AllByRecursion};
ghost use Rattle.mm_num.specs.Small.{IsSmall};
ghost use Rattle.mm_poly.specs.Poly.{norm, with_weight, coeff_of};
ghost use Rattle.fm_elim.specs.Points.{rest_of, least_allowed, greatest_allowed, lowered, raised, value_after};
ghost use Rattle.fm_elim.specs.declared.removal.Removal.TheVariants.{Solved as ASolved};
ghost use Rattle.fm_elim.specs.machine.Giving.{given, AreWithin, IsBound, IsRemoval};

use crate::removal::Removal;
use crate::step::negated_product;
use crate::value::Value;
use cert_kit::PRow;
use mm_num::floor_div;
use mm_poly::{Mono, Poly, Term};

/// The value of a removal's unknown after the values of those removed later.
pub fn value_after(values: &[Value], greatest: u128, top: u128, removal: &Removal) -> i128
    requires within { AreWithin greatest values.now }
    requires room { top * (1 + greatest) < 2 ^ 126 }
    requires small { greatest < 2 ^ 126 }
    requires removal { IsRemoval top removal.now }
    ensures value { result ≡ value_after (given values.now) removal.now }
    ensures bound { IsSmall result }
{
    match removal {
        Removal::Solved(unknown, poly) => solved_value(values, greatest, top, unknown, poly),
        Removal::Bounded(unknown, lowers, uppers) => {
            let most = lowered(values, greatest, top, unknown, uppers.as_slice());
            raised(values, greatest, top, unknown, lowers.as_slice(), most)
        }
    }
}

// The value that a polynomial which is 0 gives, where the unknown's coefficient is 1 or -1.
fn solved_value(values: &[Value], greatest: u128, top: u128, unknown: &Mono, poly: &Poly) -> i128
    requires within { AreWithin greatest values.now }
    requires room { top * (1 + greatest) < 2 ^ 126 }
    requires small { greatest < 2 ^ 126 }
    requires unit { unsigned_abs (coeff_of poly.now unknown.now) ≡ 1 }
    requires within_norm { norm poly.now ≤ top }
    ensures value { result ≡ value_after (given values.now) (ASolved unknown.now poly.now) }
    ensures bound { IsSmall result }
{
    let rest = rest_of(values, greatest, unknown, poly.terms());
    negated_product(rest, poly.coefficient(unknown))
}

// 0 lowered to the greatest value that the upper rows allow.
fn lowered(values: &[Value], greatest: u128, top: u128, unknown: &Mono, uppers: &[PRow]) -> i128
    requires within { AreWithin greatest values.now }
    requires room { top * (1 + greatest) < 2 ^ 126 }
    requires small { greatest < 2 ^ 126 }
    requires rows { AllByRecursion (IsBound top unknown.now) uppers.now }
    ensures value { result ≡ lowered unknown.now (given values.now) uppers.now (pos 0) }
    ensures bound { IsSmall result }
{
    let mut most = 0;
    for row in uppers {
        most = most.min(quotient(values, greatest, top, unknown, row));
    }
    most
}

// A value raised to the least one that the lower rows allow.
fn raised(
    values: &[Value],
    greatest: u128,
    top: u128,
    unknown: &Mono,
    lowers: &[PRow],
    start: i128,
) -> i128
    requires within { AreWithin greatest values.now }
    requires room { top * (1 + greatest) < 2 ^ 126 }
    requires small { greatest < 2 ^ 126 }
    requires rows { AllByRecursion (IsBound top unknown.now) lowers.now }
    requires start { IsSmall start }
    ensures value { result ≡ raised unknown.now (given values.now) lowers.now start }
    ensures bound { IsSmall result }
{
    let mut least = start;
    for row in lowers {
        least = least.max(negated_quotient(values, greatest, top, unknown, row));
    }
    least
}

// The least value that a lower row allows.
fn negated_quotient(values: &[Value], greatest: u128, top: u128, unknown: &Mono, row: &PRow) -> i128
    requires within { AreWithin greatest values.now }
    requires room { top * (1 + greatest) < 2 ^ 126 }
    requires small { greatest < 2 ^ 126 }
    requires row { IsBound top unknown.now row.now }
    ensures value { result ≡ least_allowed unknown.now (given values.now) row.now }
    ensures bound { IsSmall result }
{
    -quotient(values, greatest, top, unknown, row)
}

// The rest of a row's value divided by the magnitude of the unknown's coefficient, and rounded down.
fn quotient(values: &[Value], greatest: u128, top: u128, unknown: &Mono, row: &PRow) -> i128
    requires within { AreWithin greatest values.now }
    requires room { top * (1 + greatest) < 2 ^ 126 }
    requires small { greatest < 2 ^ 126 }
    requires row { IsBound top unknown.now row.now }
    ensures value { result ≡ greatest_allowed unknown.now (given values.now) row.now }
    ensures bound { IsSmall result }
{
    let rest = rest_of(values, greatest, unknown, row.poly.terms());
    let coeff = row.poly.coefficient(unknown).unsigned_abs();
    floor_div(rest, coeff as i128)
}

/// What the value of terms is without an unknown's term.
pub fn rest_of(values: &[Value], greatest: u128, unknown: &Mono, terms: &[Term]) -> i128
    requires within { AreWithin greatest values.now }
    requires room { norm terms.now * (1 + greatest) < 2 ^ 126 }
    requires small { greatest < 2 ^ 126 }
    ensures value { result ≡ rest_of unknown.now (given values.now) terms.now }
    ensures bound { IsSmall result }
{
    let mut total = 0;
    for term in terms {
        total += weighted(values, greatest, unknown, term);
    }
    total
}

// A term's value, where the one of this unknown counts for nothing.
fn weighted(values: &[Value], greatest: u128, unknown: &Mono, term: &Term) -> i128
    requires within { AreWithin greatest values.now }
    requires room { unsigned_abs term.now.coeff * (1 + greatest) < 2 ^ 126 }
    requires small { greatest < 2 ^ 126 }
    ensures value { result ≡ term.now.coeff *ℤ with_weight (given values.now) unknown.now (pos 0) term.now.mono }
    ensures bound { unsigned_abs result ≤ unsigned_abs term.now.coeff * (1 + greatest) }
{
    if term.mono.same(unknown) {
        return 0;
    }
    let value = value_of(values, greatest, &term.mono);
    product(term.coeff, value)
}

// A product that is small.
fn product(coeff: i128, value: i128) -> i128
    requires room { unsigned_abs coeff * unsigned_abs value < 2 ^ 126 }
    ensures product { result ≡ coeff *ℤ value }
    ensures small { IsSmall result }
{
    coeff * value
}

/// The value of a monomial, 0 for an unknown without one.
pub fn value_of(values: &[Value], greatest: u128, mono: &Mono) -> i128
    requires within { AreWithin greatest values.now }
    requires small { greatest < 2 ^ 126 }
    ensures value { result ≡ given values.now mono.now }
    ensures bound { unsigned_abs (given values.now mono.now) ≤ 1 + greatest }
{
    for n in (0..values.len()).rev() {
        let value = &values[n];
        if value.unknown.same(mono) {
            return value.value;
        }
    }
    if mono.is_empty() { 1 } else { 0 }
}
