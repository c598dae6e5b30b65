ghost use Rattle.std.specs.Prelude.{◌≡◌, ◌≢◌, ◌≤◌, ◌-ℤ◌, ◌*ℤ◌, ◌≤ℤ◌, pos, negsuc, unsigned_abs};
ghost use Rattle.mm_num.specs.Small.{IsSmall};
ghost use Rattle.goal_ast.specs.Truth.{quotient, remainder, stopped, sign, call_1, call_2};
ghost use Rattle.mm_num.specs.Power.{power};
ghost use Rattle.goal_ast.specs.Sorted.{is_small};
ghost use Rattle.goal_ast.specs.Evaluation.{checked, SmallIfAny};

use crate::term::{Fn1, Fn2, Sort};
use mm_num::floor_div;

// Whether the magnitude is below 2^126.
pub(crate) fn is_small(z: i128) -> bool
    ensures { result ≡ is_small z }
{
    z.unsigned_abs() < 1 << 126
}

// The number, where its magnitude is below 2^126.
pub(crate) fn small(z: i128) -> Option<i128>
    ensures value { result ≡ checked z }
    ensures small { SmallIfAny result }
{
    if is_small(z) { Some(z) } else { None }
}

// A difference, which stops at the least number of the sort.
pub(crate) fn difference(sort: Sort, a: i128, b: i128) -> i128
    requires a { IsSmall a }
    requires b { IsSmall b }
    ensures { result ≡ stopped sort (a -ℤ b) }
{
    match sort {
        Sort::Int | Sort::Bool => a - b,
        Sort::Bin | Sort::Nat => (a - b).max(0),
        Sort::Pos => (a - b).max(1),
    }
}

pub(crate) fn product(a: i128, b: i128) -> Option<i128>
    ensures value { result ≡ checked (a *ℤ b) }
    ensures small { SmallIfAny result }
{
    match a.checked_mul(b) {
        Some(product) => small(product),
        None => None,
    }
}

pub(crate) fn power_of(base: i128, exponent: u128) -> Option<i128>
    ensures value { result ≡ checked (power base exponent) }
    ensures small { SmallIfAny result }
{
    match base {
        0 => small(power_of_0(exponent)),
        1 => small(power_of_1(exponent)),
        -1 => small(power_of_minus_1(exponent)),
        _ => power_by_turns(base, exponent),
    }
}

#[tactic(auto, using(crate::proofs::PowerLaws::power_of_none))]
fn power_of_0(exponent: u128) -> i128
    ensures { result ≡ power (pos 0) exponent }
{
    if exponent == 0 { 1 } else { 0 }
}

#[tactic(auto, using(crate::proofs::PowerLaws::power_of_one))]
fn power_of_1(exponent: u128) -> i128
    ensures { result ≡ power (pos 1) exponent }
{
    1
}

#[tactic(auto, using(crate::proofs::PowerLaws::power_of_minus_one))]
fn power_of_minus_1(exponent: u128) -> i128
    ensures { result ≡ power (negsuc 0) exponent }
{
    if exponent % 2 == 0 { 1 } else { -1 }
}

// It ends where a power isn't small, since no later one is.
#[tactic(auto, using(crate::proofs::PowerLaws::power_ends))]
fn power_by_turns(base: i128, exponent: u128) -> Option<i128>
    requires { 2 ≤ unsigned_abs base }
    ensures value { result ≡ checked (power base exponent) }
    ensures small { SmallIfAny result }
{
    let mut value = 1;
    for _ in 0..exponent {
        value = product(base, value)?;
    }
    small(value)
}

// The quotient, rounded down.
#[tactic(auto, using(crate::proofs::DivisionLaws::quotient_up, crate::proofs::DivisionLaws::quotient_down))]
pub(crate) fn quotient_by(a: i128, k: &i128) -> i128
    requires a { IsSmall a }
    requires k { IsSmall k.now }
    requires divides { k.now ≢ pos 0 }
    ensures { result ≡ quotient a k.now }
{
    let k = *k;
    if k > 0 {
        floor_div(a, k)
    } else {
        floor_div(-a, -k)
    }
}

// The remainder by a divisor of at least 1.
fn rest(a: i128, k: i128) -> i128
    requires a { IsSmall a }
    requires k { IsSmall k }
    requires positive { pos 1 ≤ℤ k }
    ensures value { result ≡ remainder a k }
    ensures small { IsSmall result }
{
    a - k * floor_div(a, k)
}

// The remainder, with the sign of the divisor.
#[tactic(auto, using(crate::proofs::DivisionLaws::remainder_down))]
pub(crate) fn remainder_by(a: i128, k: &i128) -> i128
    requires a { IsSmall a }
    requires k { IsSmall k.now }
    requires divides { k.now ≢ pos 0 }
    ensures { result ≡ remainder a k.now }
{
    let k = *k;
    if k > 0 { rest(a, k) } else { -rest(-a, -k) }
}

pub(crate) fn call_one(f: Fn1, a: i128) -> i128
    requires { IsSmall a }
    ensures { result ≡ call_1 f a }
{
    match f {
        Fn1::ZSucc | Fn1::S | Fn1::NSucc | Fn1::PosSucc => a + 1,
        Fn1::ZPred => a - 1,
        Fn1::ZOpp => -a,
        Fn1::ZAbs => a.abs(),
        Fn1::ZSgn => sign_of(a),
        Fn1::NatPred | Fn1::NPred => (a - 1).max(0),
        Fn1::PosPred => (a - 1).max(1),
        Fn1::OfNat | Fn1::OfN | Fn1::OfPos => a,
        Fn1::ToNat | Fn1::ToN => a.max(0),
    }
}

fn sign_of(a: i128) -> i128
    ensures { result ≡ sign a }
{
    a.signum()
}

pub(crate) fn call_two(f: Fn2, a: i128, b: i128) -> i128
    ensures { result ≡ call_2 f a b }
{
    match f {
        Fn2::ZMin | Fn2::NatMin | Fn2::NMin | Fn2::PosMin => a.min(b),
        Fn2::ZMax | Fn2::NatMax | Fn2::NMax | Fn2::PosMax => a.max(b),
    }
}
