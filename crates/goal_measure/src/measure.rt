ghost use Rattle.std.specs.Prelude.{◌≡◌, ◌^◌, ◌≤◌, min};
ghost use Rattle.goal_measure.specs.Measure.{of_literal, of_variable, of_sum, of_product, of_power, of_atom, nothing, greater};
ghost use Rattle.goal_measure.specs.Bounding.{cap};

/// The measures of a term, or the greatest ones of some atoms: what bounds the sum of the magnitudes of the
/// coefficients, the number of terms, and the degree.
#[derive(Clone, Copy, Debug, PartialEq, Eq)]
pub struct Measure {
    pub weight: u128,
    pub spread: u128,
    pub degree: u128,
}

/// No atom's weight may reach this.
pub const WEIGHT: u128 = 1 << 100;

/// No atom's spread may reach this.
pub const SPREAD: u128 = 257;

/// No atom's degree may reach this.
pub const DEGREE: u128 = 9;

pub(crate) fn literal(n: u128) -> Measure
    ensures { result ≡ cap (of_literal n) }
{
    Measure {
        weight: n.min(WEIGHT),
        spread: 1,
        degree: 0,
    }
}

pub(crate) fn variable() -> Measure
    ensures { result ≡ of_variable }
{
    Measure {
        weight: 1,
        spread: 1,
        degree: 1,
    }
}

pub(crate) fn none() -> Measure
    ensures { result ≡ nothing }
{
    Measure {
        weight: 0,
        spread: 0,
        degree: 0,
    }
}

pub(crate) fn sum(a: Measure, b: Measure) -> Measure
    ensures { result ≡ cap (of_sum a b) }
{
    Measure {
        weight: a.weight.saturating_add(b.weight).min(WEIGHT),
        spread: a.spread.saturating_add(b.spread).min(SPREAD),
        degree: a.degree.max(b.degree).min(DEGREE),
    }
}

pub(crate) fn product(a: Measure, b: Measure) -> Measure
    ensures { result ≡ cap (of_product a b) }
{
    Measure {
        weight: a.weight.saturating_mul(b.weight).min(WEIGHT),
        spread: a.spread.saturating_mul(b.spread).min(SPREAD),
        degree: a.degree.saturating_add(b.degree).min(DEGREE),
    }
}

// The power, or the limit where it is less. It ends where a power reaches the limit, since no later one is less.
fn power_below(base: u128, exponent: u128, limit: u128) -> u128
    requires base { 2 ≤ base }
    requires limit { 2 ≤ limit }
    ensures { result ≡ min (base ^ exponent) limit }
{
    let mut value: u128 = 1;
    for _ in 0..exponent {
        value = value.saturating_mul(base);
        if value >= limit {
            return limit;
        }
    }
    value
}

#[tactic(auto, using(crate::proofs::CapLaws::power_none, crate::proofs::CapLaws::power_some, crate::proofs::CapLaws::power_one))]
fn capped_power(base: u128, exponent: u128, limit: u128) -> u128
    requires { 2 ≤ limit }
    ensures { result ≡ min (base ^ exponent) limit }
{
    match base {
        0 => { if exponent == 0 { 1 } else { 0 } }
        1 => 1,
        _ => power_below(base, exponent, limit),
    }
}

pub(crate) fn power(a: Measure, exponent: u128) -> Measure
    ensures { result ≡ cap (of_power a exponent) }
{
    Measure {
        weight: capped_power(a.weight, exponent, WEIGHT),
        spread: capped_power(a.spread, exponent, SPREAD),
        degree: exponent.saturating_mul(a.degree).min(DEGREE),
    }
}

pub(crate) fn atom(a: Measure, b: Measure) -> Measure
    ensures { result ≡ cap (of_atom a b) }
{
    Measure {
        weight: a
            .weight
            .saturating_add(b.weight)
            .saturating_add(1)
            .min(WEIGHT),
        spread: a
            .spread
            .saturating_add(b.spread)
            .saturating_add(1)
            .min(SPREAD),
        degree: a.degree.max(b.degree).min(DEGREE),
    }
}

pub(crate) fn greatest(a: Measure, b: Measure) -> Measure
    ensures { result ≡ greater a b }
{
    Measure {
        weight: a.weight.max(b.weight),
        spread: a.spread.max(b.spread),
        degree: a.degree.max(b.degree),
    }
}
