ghost use Rattle.std.specs.Prelude.{◌≡◌, ℕ, pos, ◌≤◌, max, unsigned_abs};
ghost use Rattle.std.specs.Int.{IsGcd};
ghost use Rattle.mm_num.specs.Small.{IsSmall};
ghost use Rattle.mm_num.specs.Divisor.{gcd_of};

/// The greatest common divisor, which is 0 for two zeros.
pub fn gcd(a: i128, b: i128) -> i128
    requires a { IsSmall a }
    requires b { IsSmall b }
    // It divides both, and each number that divides both divides it.
    ensures divisor { IsGcd (unsigned_abs a) (unsigned_abs b) (unsigned_abs result) }
    ensures value { result ≡ pos (gcd_of (unsigned_abs a) (unsigned_abs b)) }
    ensures small { IsSmall result }
{
    natural_gcd(a.unsigned_abs(), b.unsigned_abs()) as i128
}

// In 64 bits where both numbers fit, since a remainder of 128 bits takes several times as long.
fn natural_gcd(a: u128, b: u128) -> u128
    ensures divisor { IsGcd a b result }
    ensures within { result ≤ max a b }
{
    if a <= u64::MAX as u128 && b <= u64::MAX as u128 {
        u128::from(narrow_gcd(a as u64, b as u64))
    } else {
        wide_gcd(a, b)
    }
}

/// Euclid's algorithm.
fn narrow_gcd(mut a: u64, mut b: u64) -> u64
    ensures divisor { IsGcd a b result }
    ensures within { result ≤ max a b }
{
    while b > 0 {
        let rest = a % b;
        a = b;
        b = rest;
    }
    a
}

/// Euclid's algorithm.
fn wide_gcd(mut a: u128, mut b: u128) -> u128
    ensures divisor { IsGcd a b result }
    ensures within { result ≤ max a b }
{
    while b > 0 {
        let rest = a % b;
        a = b;
        b = rest;
    }
    a
}
