ghost use Rattle.std.specs.Prelude.{◌≡◌, ◌↔◌, ◌⊎◌, ◌+◌, ◌^◌, ◌<◌, ◌≢◌, pos, negsuc, neg_ℤ, ◌-ℤ◌, unsigned_abs, length, Some, IfOk, IfSome, IsNone, IsTrue};
ghost use Rattle.mm_num.specs.Quotient.{IsFloor};
ghost use Rattle.mm_num.specs.Frac.{IsFraction};
ghost use Rattle.cut_branch.specs.Points.{IsIntegral};
ghost use Rattle.cut_branch.specs.machine.Scaling.{IsSplitAt, IsFractional, shifted};

use crate::range::Range;
use mm_num::{Frac, floor_div};
use mm_poly::Poly;
use std::alloc::{AllocError, Global};

/// A value that isn't whole: its place, and how wide the range of its variable is, where it has both ends.
#[derive(Clone, Copy, Debug)]
struct Choice {
    place: usize,
    width: Option<i128>,
}

/// Whether each value is whole.
pub(crate) fn is_integral(point: &[Frac]) -> bool
    ensures { IsTrue result ↔ IsIntegral point.now }
{
    for value in point {
        if value.den() != 1 {
            return false;
        }
    }
    true
}

/// The place of the first value that isn't whole, of those whose variables have the narrowest ranges.
pub(crate) fn narrowest(point: &[Frac], ranges: &[Range]) -> Option<usize>
    requires { length ranges.now ≡ length point.now }
    ensures none { IsNone result → IsIntegral point.now }
    ensures some { IfSome result (IsFractional point.now) }
{
    let mut best = None;
    for (place, value) in point.iter().enumerate() {
        if value.den() != 1 {
            best = Some(narrower(best, place, ranges[place].width()));
        }
    }
    match best {
        Some(choice) => Some(choice.place),
        None => None,
    }
}

// What was chosen, or the value at this place where its range is narrower.
fn narrower(best: Option<Choice>, place: usize, width: Option<i128>) -> Choice
    ensures { (result.place ≡ place) ⊎ (best ≡ Some result) }
{
    match best {
        Some(choice) if !is_narrower(width, choice.width) => choice,
        _ => Choice { place, width },
    }
}

// Whether a range is narrower than another one; without both ends it isn't.
fn is_narrower(width: Option<i128>, other: Option<i128>) -> bool {
    match (width, other) {
        (Some(first), Some(second)) => first < second,
        (Some(_), None) => true,
        (None, _) => false,
    }
}

/// The split of a variable between the whole numbers around its value: the side of the nearer one comes first.
pub(crate) fn split(alloc: Global, variable: u32, value: &Frac) -> Result<Poly, AllocError>
    requires { value.now.1 ≢ pos 1 }
    ensures { IfOk result (IsSplitAt variable value.now) }
{
    let below = floor(value);
    if is_past_middle(value, below) {
        rising(alloc, variable, below)
    } else {
        falling(alloc, variable, below)
    }
}

// The greatest whole number below a value that isn't whole.
#[tactic(auto, using(crate::proofs::SplitLaws::floor_half))]
fn floor(value: &Frac) -> i128
    requires { value.now.1 ≢ pos 1 }
    ensures floor { IsFloor value.now.0 value.now.1 result }
    ensures small { unsigned_abs result + 4 < 2 ^ 126 }
    ensures fraction { IsFraction value.now }
{
    floor_div(value.num(), value.den())
}

// Whether a value is nearer to the next whole number than to the one below it.
fn is_past_middle(value: &Frac, below: i128) -> bool
    requires { IsFloor value.now.0 value.now.1 below }
{
    let rest = value.num() - below * value.den();
    rest > value.den() - rest
}

// The variable less the next whole number.
fn rising(alloc: Global, variable: u32, below: i128) -> Result<Poly, AllocError>
    requires { unsigned_abs below + 4 < 2 ^ 126 }
    ensures { IfOk result (λ p. p ≡ shifted (pos 1) variable (neg_ℤ below -ℤ pos 1)) }
{
    shifted(alloc, 1, variable, -below - 1)
}

// The whole number below less the variable.
fn falling(alloc: Global, variable: u32, below: i128) -> Result<Poly, AllocError>
    requires { unsigned_abs below + 4 < 2 ^ 126 }
    ensures { IfOk result (λ p. p ≡ shifted (negsuc 0) variable below) }
{
    shifted(alloc, -1, variable, below)
}

// The variable times 1 or -1, and a number.
fn shifted(alloc: Global, sign: i128, variable: u32, number: i128) -> Result<Poly, AllocError>
    requires sign { unsigned_abs sign ≡ 1 }
    requires number { unsigned_abs number + 1 < 2 ^ 126 }
    ensures { IfOk result (λ p. p ≡ shifted sign variable number) }
{
    let unknown = Poly::var(alloc, variable)?.multiple(alloc, sign)?;
    let number = Poly::constant(alloc, number)?;
    unknown.sum(alloc, &number)
}
