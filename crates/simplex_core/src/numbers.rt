ghost use Rattle.std.specs.Prelude.{◌≡◌, ◌^◌, ◌<◌, ◌≤ℤ◌, ◌<ℤ◌, ◌+ℤ◌, ◌*ℤ◌, pos, ◌↔◌, IsTrue, length, unsigned_abs};
ghost use Rattle.std.specs.List.{All};
ghost use Rattle.mm_num.specs.Small.{IsSmall};
ghost use Rattle.simplex_core.specs.Form.{at};
ghost use Rattle.simplex_core.specs.Walk.{AreNarrow};
ghost use Rattle.simplex_core.specs.machine.Tableau.{combined, content, divided, lowered, swept, turned};

use mm_num::{floor_div, gcd};

const NARROW_LIMIT: u128 = 1073741824;

/// Whether all numbers are below 2^30 in magnitude.
pub fn are_narrow(numbers: &[i128]) -> bool
    ensures { IsTrue result ↔ AreNarrow numbers.now }
{
    numbers.iter().all(|c| c.unsigned_abs() < NARROW_LIMIT)
}

/// The product of numbers below 2^30.
#[tactic(auto, using(crate::proofs::BoundLaws::product_bound))]
fn product(a: i128, b: i128) -> i128
    requires a { unsigned_abs a < 2 ^ 30 }
    requires b { unsigned_abs b < 2 ^ 30 }
    ensures value { result ≡ a *ℤ b }
    ensures bound { unsigned_abs result < 2 ^ 60 }
{
    a * b
}

/// `a * c + b * d`.
fn weighted(a: i128, c: i128, b: i128, d: i128) -> i128
    requires a { unsigned_abs a < 2 ^ 30 }
    requires c { unsigned_abs c < 2 ^ 30 }
    requires b { unsigned_abs b < 2 ^ 30 }
    requires d { unsigned_abs d < 2 ^ 30 }
    ensures value { result ≡ a *ℤ c +ℤ b *ℤ d }
    ensures bound { unsigned_abs result < 2 ^ 61 }
{
    product(a, c) + product(b, d)
}

/// Puts `a` times each number plus `b` times that of `second` in its place.
fn combine(first: &mut [i128], second: &[i128], a: i128, b: i128)
    requires a { unsigned_abs a < 2 ^ 30 }
    requires b { unsigned_abs b < 2 ^ 30 }
    requires first { AreNarrow first.old }
    requires second { AreNarrow second.now }
    requires same { length first.old ≡ length second.now }
    ensures value { first.new ≡ combined a b first.old second.now }
    ensures small { All IsSmall first.new }
{
    for i in 0..first.len() {
        first[i] = weighted(a, first[i], b, second[i]);
    }
}

/// The greatest number that divides all, 0 where all are 0.
fn content(numbers: &[i128]) -> i128
    requires { All IsSmall numbers.now }
    ensures value { result ≡ pos (content numbers.now) }
    ensures small { IsSmall result }
{
    let mut divisor = 0;
    for i in (0..numbers.len()).rev() {
        if divisor == 1 {
            return 1;
        }
        divisor = gcd(numbers[i], divisor);
    }
    divisor
}

/// Divides each number.
fn divide(numbers: &mut [i128], divisor: i128)
    requires numbers { All IsSmall numbers.old }
    requires small { IsSmall divisor }
    requires positive { pos 0 <ℤ divisor }
    ensures { numbers.new ≡ divided (unsigned_abs divisor) numbers.old }
{
    for c in numbers.iter_mut() {
        *c = floor_div(*c, divisor);
    }
}

/// Divides the numbers by what divides all of them.
fn lower(numbers: &mut [i128])
    requires { All IsSmall numbers.old }
    ensures { numbers.new ≡ lowered numbers.old }
{
    let divisor = content(numbers);
    if divisor > 1 {
        divide(numbers, divisor);
    }
}

/// Turns all signs, where the number at a place is below 0.
pub fn turn(numbers: &mut [i128], place: usize)
    requires numbers { AreNarrow numbers.old }
    requires place { place < length numbers.old }
    ensures { numbers.new ≡ turned place numbers.old }
{
    if numbers[place] < 0 {
        for c in numbers.iter_mut() {
            *c = -*c;
        }
    }
}

/// Takes a variable out of an equation, by the one that is solved for it.
pub fn sweep(numbers: &mut [i128], variable: usize, pivot: &[i128])
    requires narrow { AreNarrow numbers.old }
    requires pivot { AreNarrow pivot.now }
    requires same { length numbers.old ≡ length pivot.now }
    requires place { variable < length pivot.now }
    ensures { numbers.new ≡ swept variable pivot.now numbers.old }
{
    let factor = numbers[variable];
    if factor != 0 {
        combine(numbers, pivot, pivot[variable], -factor);
        lower(numbers);
    }
}
