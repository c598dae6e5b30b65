ghost use Rattle.std.specs.Prelude.{◌≡◌};
ghost use Rattle.cert_kit.specs.Meaning.{own_bounds, no_bounds, constant_bounds, product_bounds, sum_bounds, where_within};
ghost use Rattle.cert_kit.specs.Acceptance.{below_bounds};

use mm_poly::{DEGREE_LIMIT, NORM_LIMIT, Poly, SPREAD_LIMIT};

/// Bounds on the norm, the spread and the degree of a row. An expression's go by its parts, and may be above its row's
/// own numbers.
#[derive(Clone, Copy, Debug, PartialEq, Eq)]
pub struct Bounds {
    pub norm: u128,
    pub spread: u64,
    pub degree: u32,
}

impl Bounds {
    /// A polynomial's own numbers.
    pub fn of(poly: &Poly) -> Bounds
        ensures { result ≡ own_bounds poly.now }
    {
        Bounds {
            norm: poly.norm().unsigned_abs(),
            spread: u64::from(poly.spread()),
            degree: poly.degree(),
        }
    }

    /// Those of a constant that isn't 0.
    pub fn of_constant(c: i128) -> Bounds
        ensures { result ≡ constant_bounds c }
    {
        Bounds {
            norm: c.unsigned_abs(),
            spread: 1,
            degree: 0,
        }
    }

    /// Those of 0.
    pub fn none() -> Bounds
        ensures { result ≡ no_bounds }
    {
        Bounds {
            norm: 0,
            spread: 0,
            degree: 0,
        }
    }

    /// Those of a polynomial's negation less 1.
    pub fn below(poly: &Poly) -> Bounds
        ensures { result ≡ below_bounds poly.now }
    {
        Bounds {
            norm: poly.norm().unsigned_abs() + 1,
            spread: u64::from(poly.spread()) + 1,
            degree: poly.degree(),
        }
    }

    /// The bounds of a product, where they are within the limits.
    pub fn times(self, other: Bounds) -> Option<Bounds>
        ensures { result ≡ where_within (product_bounds self other) }
    {
        Bounds {
            norm: self.norm.checked_mul(other.norm)?,
            spread: self.spread.saturating_mul(other.spread),
            degree: self.degree.saturating_add(other.degree),
        }
        .tested()
    }

    /// The bounds of a sum, where they are within the limits.
    pub fn plus(self, other: Bounds) -> Option<Bounds>
        ensures { result ≡ where_within (sum_bounds self other) }
    {
        Bounds {
            norm: self.norm.saturating_add(other.norm),
            spread: self.spread.saturating_add(other.spread),
            degree: self.degree.max(other.degree),
        }
        .tested()
    }

    /// These bounds, where they are within the limits of rows.
    pub fn tested(self) -> Option<Bounds>
        ensures { result ≡ where_within self }
    {
        let within = self.norm < NORM_LIMIT
            && self.spread <= u64::from(SPREAD_LIMIT)
            && self.degree <= DEGREE_LIMIT;
        within.then_some(self)
    }
}
