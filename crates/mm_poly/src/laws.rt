//! What holds of polynomials and monomials, said by functions that do nothing: each clause is a law for callers.

ghost use Rattle.std.specs.Prelude.{◌≡◌, ℕ, ◌+◌, ℤ, pos, ◌+ℤ◌, ◌*ℤ◌, List, [], length};
ghost use Rattle.std.specs.declared.cmp.Ordering.TheVariants.{Equal};
ghost use Rattle.std.specs.Ordering.{nat_cmp};
ghost use Rattle.std.specs.Cmp.{IsTotalOrder};
ghost use Rattle.std.specs.Cmp.Lexicographic.{slice_cmp};
ghost use Rattle.mm_poly.specs.Mono.{exponent_of, mono_value, mono_degree, mono_cmp, mono_times, repeated};
ghost use Rattle.mm_poly.specs.Poly.{HasPlaces, norm, spread, degree, value, linear_value, with_weight, coeff_of, plus, scaled, times, constant_of, variable_of};
ghost use Rattle.mm_poly.specs.Renaming.{by_table, renamed, renamed_terms, Rises};
ghost use Rattle.mm_poly.specs.Product.{total_of, all_products};

use crate::mono::Mono;
use crate::poly::Poly;

/// Values are those of the parts.
pub fn values(p: &Poly, q: &Poly)
    ensures sum { (x : ℕ → ℤ) → value x (plus p.now q.now) ≡ value x p.now +ℤ value x q.now }
    ensures multiple { (x : ℕ → ℤ) (c : ℤ) → value x (scaled c p.now) ≡ c *ℤ value x p.now }
    ensures product { (x : ℕ → ℤ) → value x (times p.now q.now) ≡ value x p.now *ℤ value x q.now }
    ensures constant { (x : ℕ → ℤ) (c : ℤ) → value x (constant_of c) ≡ c }
    ensures variable { (x : ℕ → ℤ) (v : ℕ) → value x (variable_of v) ≡ x v }
{
    let _ = p;
    let _ = q;
}

/// Values where each monomial counts for itself, with a weight, are those of the parts too.
pub fn linear_values(p: &Poly, q: &Poly)
    ensures point { (x : ℕ → ℤ) → value x p.now ≡ linear_value (mono_value x) p.now }
    ensures sum { (w : List (ℕ × ℕ) → ℤ) → linear_value w (plus p.now q.now) ≡ linear_value w p.now +ℤ linear_value w q.now }
    ensures multiple { (w : List (ℕ × ℕ) → ℤ) (c : ℤ) → linear_value w (scaled c p.now) ≡ c *ℤ linear_value w p.now }
    // With one weight changed: the monomial's coefficient times it, and the rest as where it is 0.
    ensures changed { (w : List (ℕ × ℕ) → ℤ) (u : List (ℕ × ℕ)) (z : ℤ) → linear_value (with_weight w u z) p.now ≡ coeff_of p.now u *ℤ z +ℤ linear_value (with_weight w u (pos 0)) p.now }
{
    let _ = p.spread();
    let _ = q;
}

/// A polynomial is a finite map from monomials to coefficients.
pub fn coefficients(p: &Poly, q: &Poly)
    ensures sum { (m : List (ℕ × ℕ)) → coeff_of (plus p.now q.now) m ≡ coeff_of p.now m +ℤ coeff_of q.now m }
    ensures multiple { (c : ℤ) (m : List (ℕ × ℕ)) → coeff_of (scaled c p.now) m ≡ c *ℤ coeff_of p.now m }
    // Each term of one times each term of the other.
    ensures product { (m : List (ℕ × ℕ)) → coeff_of (times p.now q.now) m ≡ total_of (all_products p.now q.now) m }
    ensures same { ((m : List (ℕ × ℕ)) → coeff_of p.now m ≡ coeff_of q.now m) → p.now ≡ q.now }
{
    let _ = p.spread();
    let _ = q.spread();
}

/// A monomial is a finite map from variables to exponents.
pub fn exponents(a: &Mono, b: &Mono)
    ensures product { (v : ℕ) → exponent_of (mono_times a.now b.now) v ≡ exponent_of a.now v + exponent_of b.now v }
    ensures same { ((v : ℕ) → exponent_of a.now v ≡ exponent_of b.now v) → a.now ≡ b.now }
{
    let _ = a.degree();
    let _ = b.degree();
}

/// The order of monomials is total, tells different ones apart, and stays where both are multiplied by a monomial.
pub fn monomial_order(a: &Mono, b: &Mono, c: &Mono)
    ensures total { IsTotalOrder mono_cmp }
    ensures exact { mono_cmp a.now b.now ≡ Equal → a.now ≡ b.now }
    // At one degree it is that of the lists of variables, each repeated by its exponent.
    ensures repeated { mono_degree a.now ≡ mono_degree b.now → mono_cmp a.now b.now ≡ slice_cmp nat_cmp (repeated a.now) (repeated b.now) }
    ensures product { mono_cmp (mono_times c.now a.now) (mono_times c.now b.now) ≡ mono_cmp a.now b.now }
{
    let _ = a.degree();
    let _ = b.degree();
    let _ = c.degree();
}

/// A polynomial with its variables exchanged by those of a table that has a place for each.
pub fn renaming(p: &Poly, table: &[u32])
    requires { HasPlaces (length table.now) p.now }
    ensures value { (x : ℕ → ℤ) → value x (renamed (by_table table.now) p.now) ≡ value (λ v. x (by_table table.now v)) p.now }
    // A table that rises keeps each term at its place, and so norm, spread and degree.
    ensures rising { Rises (length table.now) (by_table table.now) → renamed (by_table table.now) p.now ≡ renamed_terms (by_table table.now) p.now }
    ensures norm { Rises (length table.now) (by_table table.now) → norm (renamed (by_table table.now) p.now) ≡ norm p.now }
    ensures spread { Rises (length table.now) (by_table table.now) → spread (renamed (by_table table.now) p.now) ≡ spread p.now }
    ensures degree { Rises (length table.now) (by_table table.now) → degree (renamed (by_table table.now) p.now) ≡ degree p.now }
{
    let _ = p.spread();
    let _ = table;
}
