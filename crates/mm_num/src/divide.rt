ghost use Rattle.std.specs.Prelude.{◌≡◌, ◌≤ℤ◌, ◌*ℤ◌, pos, unsigned_abs};
ghost use Rattle.std.specs.Int.{◌∣◌};
ghost use Rattle.mm_num.specs.Small.{IsSmall};
ghost use Rattle.mm_num.specs.Quotient.{floor_quotient, ceil_quotient, IsFloor, IsCeiling};

/// The greatest whole number that is at most `a / b`.
#[tactic(auto, using(crate::proofs::QuotientLaws::floor_is))]
pub fn floor_div(a: i128, b: i128) -> i128
    requires a { IsSmall a }
    requires b { IsSmall b }
    requires positive { pos 1 ≤ℤ b }
    // It times `b` is at most `a`, and one more of it is above `a`.
    ensures floor { IsFloor a b result }
    ensures value { result ≡ floor_quotient a b }
    ensures small { IsSmall result }
{
    rounded_down(a, b)
}

/// The least whole number that is at least `a / b`.
#[tactic(auto, using(crate::proofs::QuotientLaws::ceiling_is))]
pub fn ceil_div(a: i128, b: i128) -> i128
    requires a { IsSmall a }
    requires b { IsSmall b }
    requires positive { pos 1 ≤ℤ b }
    // It times `b` is at least `a`, and one less of it is below `a`.
    ensures ceiling { IsCeiling a b result }
    ensures value { result ≡ ceil_quotient a b }
    ensures small { IsSmall result }
{
    -rounded_down(-a, b)
}

/// The quotient by a divisor.
#[tactic(auto, using(crate::proofs::FracLaws::exact_is))]
pub fn divided(a: i128, divisor: i128) -> i128
    requires a { IsSmall a }
    requires small { IsSmall divisor }
    requires positive { pos 1 ≤ℤ divisor }
    requires exact { unsigned_abs divisor ∣ unsigned_abs a }
    ensures value { divisor *ℤ result ≡ a }
    ensures small { IsSmall result }
{
    rounded_down(a, divisor)
}

fn rounded_down(a: i128, b: i128) -> i128
    requires a { IsSmall a }
    requires b { IsSmall b }
    requires positive { pos 1 ≤ℤ b }
    ensures value { result ≡ floor_quotient a b }
    ensures small { IsSmall result }
{
    if a >= 0 { a / b } else { -1 - (-1 - a) / b }
}
