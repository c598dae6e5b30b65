ghost use Rattle.std.specs.Prelude.{◌≡◌, ◌+◌, ◌*◌, ◌^◌, ◌<◌, ◌≤◌, unsigned_abs, IfOk, nat_lt, nat_le, ◌&&◌};
ghost use Rattle.mm_poly.specs.Poly.{norm, spread, plus, scaled};

use mm_poly::{NORM_LIMIT, Poly, PolyFail, SPREAD_LIMIT};
use std::alloc::{AllocError, Global};

/// The numbers of a polynomial by which a sum's room is told.
#[derive(Clone, Copy, Debug)]
pub struct Size {
    pub norm: u128,
    pub spread: u32,
}

/// The size of a polynomial.
pub fn size_of(poly: &Poly) -> Size
    ensures norm { result.norm ≡ norm poly.now }
    ensures spread { result.spread ≡ spread poly.now }
    ensures small { norm poly.now < 2 ^ 126 }
    ensures few { spread poly.now ≤ 65536 }
{
    Size {
        norm: poly.norm() as u128,
        spread: poly.spread(),
    }
}

/// Whether the limits leave room for a sum of two polynomials, each times a number of this magnitude.
pub fn has_room(a: u128, first: Size, b: u128, second: Size) -> bool
    requires first { first.spread ≤ 65536 }
    requires second { second.spread ≤ 65536 }
    ensures { result ≡ (nat_lt (first.norm * a + second.norm * b) (2 ^ 126) && nat_le (first.spread + second.spread) 65536) }
{
    is_small_sum(first.norm, a, second.norm, b) && first.spread + second.spread <= SPREAD_LIMIT
}

// Whether the products of numbers sum to less than the limit of norms.
fn is_small_sum(a: u128, b: u128, c: u128, d: u128) -> bool
    ensures { result ≡ nat_lt (a * b + c * d) (2 ^ 126) }
{
    match (a.checked_mul(b), c.checked_mul(d)) {
        (Some(first), Some(second)) => match first.checked_add(second) {
            Some(sum) => sum < NORM_LIMIT,
            None => false,
        },
        _ => false,
    }
}

/// The sum of two polynomials, each times a number, where the limits leave room for it.
pub fn combination(
    alloc: Global,
    first: &Poly,
    a: i128,
    second: &Poly,
    b: i128,
) -> Result<Poly, AllocError>
    requires norm { norm first.now * unsigned_abs a + norm second.now * unsigned_abs b < 2 ^ 126 }
    requires spread { spread first.now + spread second.now ≤ 65536 }
    ensures { IfOk result (λ p. p ≡ plus (scaled a first.now) (scaled b second.now)) }
{
    match first.combination(alloc, a, second, b) {
        Ok(sum) => Ok(sum),
        Err(PolyFail::NoMemory) => Err(AllocError),
        Err(PolyFail::Big) => unreachable!(),
    }
}
