ghost use Rattle.std.specs.Prelude.{◌≡◌, ℕ, ◌+◌, ◌*◌, ◌^◌, ◌<◌, ◌≤◌, ℤ, pos, negsuc, ◌≤ℤ◌, unsigned_abs, List, [], not, length, drop, slice_get, Some, IfOk, IfSome, IsSome, IsNone, IsErrOf, IsOk, ◌↔◌, ◌⊎◌, IsTrue};
ghost use Rattle.std.specs.Bool.{OnTrue};
ghost use Rattle.std.specs.Ordering.{int_eq};
ghost use Rattle.mm_num.specs.Small.{IsSmall};
ghost use Rattle.mm_poly.specs.Mono.{IsMonomial};
ghost use Rattle.mm_poly.specs.Tests.{ordered, starts_ordered};
ghost use Rattle.mm_poly.specs.Poly.{Fits, plus, scaled, times, constant_of, variable_of, norm, spread, degree, value, content, IsContent, EachMono, HasPlaces, coeff_of, constant_part, without_constant, floor_divided, is_opposite, poly_cmp, nonzero_terms, joined};
ghost use Rattle.mm_poly.specs.Renaming.{by_table, renamed};
ghost use Rattle.mm_poly.specs.Room.{SumHasRoom, ProductHasRoom};
ghost use Rattle.mm_poly.specs.Point.{value_bound, point_of};

use crate::fail::PolyFail;
use crate::insert::joined_lists;
use crate::limits::{DEGREE_LIMIT, NORM_LIMIT, SPREAD_LIMIT};
use crate::mono::Mono;
use crate::parts::{
    are_opposite, coefficient, constant, order, quotients, renamed_terms, unknowns,
};
use crate::point::{greatest_magnitude, have_places, is_small_multiple, value_of};
use crate::product::{join, product};
use crate::sum::{combine, copies, merge, multiples, opposites};
use crate::term::Term;
use mm_num::gcd;
use std::alloc::{AllocError, Global};
use std::cmp::Ordering;
use std::marker::Model;

/// A polynomial: its terms stand in monomial order and no coefficient is 0. The norm is below 2^126, there are at
/// most 65,536 terms, and the degree is at most 255.
#[derive(Debug, Drop)]
pub struct Poly {
    terms: Vec<Term>,
}

impl Model for Poly {
    ghost use Rattle.std.specs.Prelude.{List};
    ghost use Rattle.mm_poly.specs.declared.term.Term.{Term};
    ghost use Rattle.mm_poly.specs.Poly.{Fits};

    ghost Value = { List Term };

    ghost view = { λ p. p.terms.items };

    ghost invariant = { λ p. Fits p.terms.items };
}

impl Poly {
    /// The constant polynomial, which has no term for 0.
    pub fn constant(alloc: Global, c: i128) -> Result<Poly, AllocError>
        requires { IsSmall c }
        ensures { IfOk result (λ p. p ≡ constant_of c) }
    {
        if c == 0 {
            return Ok(Poly {
                terms: Vec::new(alloc),
            });
        }
        let mut terms = Vec::with_capacity(alloc, 1)?;
        terms.push(Term {
            coeff: c,
            mono: Mono::one(alloc),
        })?;
        Ok(Poly { terms })
    }

    /// The polynomial of one variable.
    pub fn var(alloc: Global, v: u32) -> Result<Poly, AllocError>
        ensures { IfOk result (λ p. p ≡ variable_of v) }
    {
        let mut terms = Vec::with_capacity(alloc, 1)?;
        terms.push(Term {
            coeff: 1,
            mono: Mono::var(alloc, v)?,
        })?;
        Ok(Poly { terms })
    }

    /// The polynomial with these terms: none where they don't stand in monomial order, a coefficient is 0, or
    /// norm or spread pass their bounds.
    pub fn from_terms(mut terms: Vec<Term>) -> Option<Poly>
        ensures some { IsSome result ↔ Fits terms.items }
        ensures value { IfSome result (λ p. p ≡ terms.items) }
    {
        if !is_polynomial(&terms) {
            return None;
        }
        terms.shrink_to_fit();
        Some(Poly { terms })
    }

    /// The sum: `Big` where the norms sum to 2^126 or more, or the spreads to more than 65,536.
    pub fn add(&self, alloc: Global, other: &Poly) -> Result<Poly, PolyFail>
        ensures sum { IfOk result (λ p. p ≡ plus self.now other.now) }
        ensures big { IsErrOf result PolyFail.Big → (2 ^ 126 ≤ norm self.now + norm other.now) ⊎ (65536 < spread self.now + spread other.now) }
        ensures fits { IsOk result → (norm self.now + norm other.now < 2 ^ 126) × (spread self.now + spread other.now ≤ 65536) }
    {
        if self.spread() + other.spread() > SPREAD_LIMIT {
            return Err(PolyFail::Big);
        }
        if sum_of_magnitudes(&self.terms) + sum_of_magnitudes(&other.terms) >= NORM_LIMIT {
            return Err(PolyFail::Big);
        }
        Ok(self.sum(alloc, other)?)
    }

    /// The sum, where the limits leave room for it.
    pub fn sum(&self, alloc: Global, other: &Poly) -> Result<Poly, AllocError>
        requires { SumHasRoom self.now other.now }
        ensures { IfOk result (λ p. p ≡ plus self.now other.now) }
    {
        let terms = merge(alloc, &self.terms, &other.terms)?;
        Ok(Poly { terms })
    }

    /// The sum, out of the parts' own terms where one is much longer: then it takes time for each term of the shorter.
    pub fn into_sum(self, alloc: Global, other: Poly) -> Result<Poly, AllocError>
        requires { SumHasRoom self other }
        ensures { IfOk result (λ p. p ≡ plus self other) }
    {
        let terms = joined_lists(alloc, self.terms, other.terms)?;
        Ok(Poly { terms })
    }

    /// A multiple: `Big` where the norm times the magnitude is 2^126 or more.
    pub fn scale(&self, alloc: Global, c: i128) -> Result<Poly, PolyFail>
        requires { IsSmall c }
        ensures multiple { IfOk result (λ p. p ≡ scaled c self.now) }
        ensures big { IsErrOf result PolyFail.Big → 2 ^ 126 ≤ norm self.now * unsigned_abs c }
        ensures fits { IsOk result → norm self.now * unsigned_abs c < 2 ^ 126 }
    {
        if !is_small_product(sum_of_magnitudes(&self.terms), c.unsigned_abs()) {
            return Err(PolyFail::Big);
        }
        Ok(self.multiple(alloc, c)?)
    }

    /// A multiple, where the limits leave room for it.
    pub fn multiple(&self, alloc: Global, c: i128) -> Result<Poly, AllocError>
        requires { norm self.now * unsigned_abs c < 2 ^ 126 }
        ensures { IfOk result (λ p. p ≡ scaled c self.now) }
    {
        let terms = multiples(alloc, &self.terms, c)?;
        Ok(Poly { terms })
    }

    /// The multiple by -1, which needs no memory.
    pub fn negated(self) -> Poly
        ensures { result ≡ scaled (negsuc 0) self }
    {
        Poly {
            terms: opposites(self.terms),
        }
    }

    /// The product: `Big` where the norms' product is 2^126 or more, the spreads' product is more than 65,536, or
    /// the degrees sum to more than 255.
    pub fn mul(&self, alloc: Global, other: &Poly) -> Result<Poly, PolyFail>
        ensures product { IfOk result (λ p. p ≡ times self.now other.now) }
        ensures big { IsErrOf result PolyFail.Big → (2 ^ 126 ≤ norm self.now * norm other.now) ⊎ ((65536 < spread self.now * spread other.now) ⊎ (255 < degree self.now + degree other.now)) }
        ensures fits { IsOk result → (norm self.now * norm other.now < 2 ^ 126) × (spread self.now * spread other.now ≤ 65536) × (degree self.now + degree other.now ≤ 255) }
    {
        if u64::from(self.spread()) * u64::from(other.spread()) > u64::from(SPREAD_LIMIT) {
            return Err(PolyFail::Big);
        }
        if self.degree() + other.degree() > DEGREE_LIMIT {
            return Err(PolyFail::Big);
        }
        if !is_small_product(
            sum_of_magnitudes(&self.terms),
            sum_of_magnitudes(&other.terms),
        ) {
            return Err(PolyFail::Big);
        }
        Ok(self.product(alloc, other)?)
    }

    /// The product, where the limits leave room for it.
    pub fn product(&self, alloc: Global, other: &Poly) -> Result<Poly, AllocError>
        requires { ProductHasRoom self.now other.now }
        ensures { IfOk result (λ p. p ≡ times self.now other.now) }
    {
        let terms = product(alloc, &self.terms, &other.terms)?;
        Ok(Poly { terms })
    }

    /// The combination of both, each times a number: `Big` where the norms times the magnitudes sum to 2^126 or more,
    /// or the spreads to more than 65,536.
    pub fn combination(
        &self,
        alloc: Global,
        times: i128,
        other: &Poly,
        other_times: i128,
    ) -> Result<Poly, PolyFail>
        ensures sum { IfOk result (λ p. p ≡ plus (scaled times self.now) (scaled other_times other.now)) }
        ensures big { IsErrOf result PolyFail.Big → (2 ^ 126 ≤ norm self.now * unsigned_abs times + norm other.now * unsigned_abs other_times) ⊎ (65536 < spread self.now + spread other.now) }
        ensures fits { IsOk result → (norm self.now * unsigned_abs times + norm other.now * unsigned_abs other_times < 2 ^ 126) × (spread self.now + spread other.now ≤ 65536) }
    {
        if self.spread() + other.spread() > SPREAD_LIMIT {
            return Err(PolyFail::Big);
        }
        if !is_small_combination(
            sum_of_magnitudes(&self.terms),
            times.unsigned_abs(),
            sum_of_magnitudes(&other.terms),
            other_times.unsigned_abs(),
        ) {
            return Err(PolyFail::Big);
        }
        let terms = combine(alloc, &self.terms, times, &other.terms, other_times)?;
        Ok(Poly { terms })
    }

    /// The polynomial that terms in any order sum to: `Big` where the coefficients' magnitudes sum to 2^126 or more,
    /// or there are more than 65,536 terms.
    pub fn joined(alloc: Global, terms: Vec<Term>) -> Result<Poly, PolyFail>
        ensures sum { IfOk result (λ p. p ≡ joined terms.items) }
        ensures big { IsErrOf result PolyFail.Big → (2 ^ 126 ≤ norm terms.items) ⊎ (65536 < spread terms.items) }
        ensures fits { IsOk result → (norm terms.items < 2 ^ 126) × (spread terms.items ≤ 65536) }
    {
        if terms.len() > SPREAD_LIMIT as usize || !is_small(&terms) {
            return Err(PolyFail::Big);
        }
        have_monomials(&terms);
        let terms = join(alloc, without_zeros(terms))?;
        Ok(Poly { terms })
    }

    /// The terms, in monomial order.
    pub fn terms(&self) -> &[Term]
        ensures value { result.now ≡ self.now }
        ensures fits { Fits self.now }
    {
        &self.terms
    }

    /// The terms, in monomial order, and nothing else.
    pub fn into_terms(self) -> Vec<Term>
        ensures { result.items ≡ self }
    {
        self.terms
    }

    /// The coefficient of a monomial, 0 where it doesn't occur.
    pub fn coefficient(&self, mono: &Mono) -> i128
        ensures value { result ≡ coeff_of self.now mono.now }
        ensures within { unsigned_abs (coeff_of self.now mono.now) ≤ norm self.now }
        ensures small { unsigned_abs (coeff_of self.now mono.now) < 2 ^ 126 }
    {
        coefficient(&self.terms, mono)
    }

    /// The coefficient of the constant monomial, 0 where there is none.
    pub fn constant_term(&self) -> i128
        ensures value { result ≡ constant_part self.now }
        ensures within { unsigned_abs (constant_part self.now) ≤ norm self.now }
        ensures small { unsigned_abs (constant_part self.now) < 2 ^ 126 }
    {
        constant(&self.terms)
    }

    /// The terms that aren't constant, in monomial order.
    pub fn unknowns(&self) -> &[Term]
        ensures { result.now ≡ without_constant self.now }
    {
        unknowns(&self.terms)
    }

    /// Whether it is a constant.
    pub fn is_constant(&self) -> bool
        ensures { IsTrue result ↔ (without_constant self.now ≡ []) }
    {
        unknowns(&self.terms).is_empty()
    }

    /// Whether both are the same but for their constants.
    pub fn has_unknowns_of(&self, other: &Poly) -> bool
        ensures { IsTrue result ↔ (without_constant self.now ≡ without_constant other.now) }
    {
        are_same(unknowns(&self.terms), unknowns(&other.terms))
    }

    /// Whether the other one is this one times -1.
    pub fn is_opposite(&self, other: &Poly) -> bool
        ensures { result ≡ is_opposite self.now other.now }
    {
        are_opposite(&self.terms, &other.terms)
    }

    /// Whether the other one is this one times -1 but for the constants.
    pub fn has_opposite_unknowns(&self, other: &Poly) -> bool
        ensures { result ≡ is_opposite (without_constant self.now) (without_constant other.now) }
    {
        are_opposite(unknowns(&self.terms), unknowns(&other.terms))
    }

    /// The polynomial without its constant.
    pub fn without_constant(&self, alloc: Global) -> Result<Poly, AllocError>
        ensures { IfOk result (λ p. p ≡ without_constant self.now) }
    {
        let terms = copies(alloc, unknowns(&self.terms))?;
        Ok(Poly { terms })
    }

    /// Each coefficient divided by a number of at least 1, and rounded down.
    pub fn floor_divided(&self, alloc: Global, divisor: i128) -> Result<Poly, AllocError>
        requires small { IsSmall divisor }
        requires positive { pos 1 ≤ℤ divisor }
        ensures { IfOk result (λ p. p ≡ floor_divided (unsigned_abs divisor) self.now) }
    {
        let terms = quotients(alloc, &self.terms, divisor)?;
        Ok(Poly { terms })
    }

    /// Each variable exchanged by the one at its place in a table, and equal monomials joined.
    pub fn renamed(&self, alloc: Global, table: &[u32]) -> Result<Poly, AllocError>
        requires { HasPlaces (length table.now) self.now }
        ensures { IfOk result (λ p. p ≡ renamed (by_table table.now) self.now) }
    {
        let terms = renamed_terms(alloc, &self.terms, table)?;
        have_monomials(&terms);
        let terms = join(alloc, terms)?;
        Ok(Poly { terms })
    }

    /// How it compares to another one, term by term, by the monomial and then by the coefficient; where one is the
    /// beginning of the other, the shorter comes first.
    pub fn order(&self, other: &Poly) -> Ordering
        ensures { result ≡ poly_cmp self.now other.now }
    {
        order(&self.terms, &other.terms)
    }

    /// The term at a place from 0 on, in monomial order.
    pub fn term(&self, n: u32) -> &Term
        requires { n < spread self.now }
        ensures { slice_get self.now n ≡ Some result.now }
    {
        &self.terms[n as usize]
    }

    /// The sum of the coefficients' magnitudes.
    pub fn norm(&self) -> i128
        ensures value { result ≡ pos (norm self.now) }
        ensures small { norm self.now < 2 ^ 126 }
    {
        sum_of_magnitudes(&self.terms) as i128
    }

    /// The number of terms.
    pub fn spread(&self) -> u32
        ensures value { result ≡ spread self.now }
        ensures small { result ≤ 65536 }
        ensures fits { Fits self.now }
    {
        self.terms.len() as u32
    }

    /// The greatest degree of a term.
    pub fn degree(&self) -> u32
        ensures value { result ≡ degree self.now }
        ensures small { result ≤ 255 }
    {
        let mut greatest = 0;
        for term in &self.terms {
            greatest = greatest.max(term.mono.degree());
        }
        greatest
    }

    /// The greatest common divisor of the coefficients that aren't constant, 0 where there are none.
    #[tactic(auto, using(crate::proofs::ContentLaws::is_content))]
    pub fn content(&self) -> i128
        ensures value { result ≡ pos (content self.now) }
        ensures small { content self.now < 2 ^ 126 }
        // It divides each of those coefficients, and each number that does so divides it.
        ensures divisor { IsContent self.now (content self.now) }
        ensures fits { Fits self.now }
    {
        common_divisor(&self.terms)
    }

    /// Whether a point of this many numbers has a place for each variable.
    pub fn has_places(&self, count: usize) -> bool
        ensures { IsTrue result ↔ HasPlaces count self.now }
    {
        have_places(&self.terms, count)
    }

    /// The value at a point that has a place for each variable; none where a bound on it reaches 2^126. The bound
    /// is the norm times a power: the greatest magnitude in the point, or 1 where that is 0, to the degree.
    pub fn value(&self, point: &[i128]) -> Option<i128>
        requires { HasPlaces (length point.now) self.now }
        ensures none { IsNone result ↔ (2 ^ 126 ≤ value_bound self.now point.now) }
        ensures value { IfSome result (λ v. v ≡ value (point_of point.now) self.now) }
    {
        let greatest = greatest_magnitude(point).max(1);
        if is_small_multiple(sum_of_magnitudes(&self.terms), greatest, self.degree()) {
            Some(value_of(&self.terms, point))
        } else {
            None
        }
    }

    /// The value at a point that has a place for each variable, where the bound on it is below 2^126.
    pub fn value_within(&self, point: &[i128]) -> i128
        requires places { HasPlaces (length point.now) self.now }
        requires small { value_bound self.now point.now < 2 ^ 126 }
        ensures { result ≡ value (point_of point.now) self.now }
    {
        value_of(&self.terms, point)
    }

    /// Whether it is the same polynomial.
    pub fn same(&self, other: &Poly) -> bool
        ensures { IsTrue result ↔ (self.now ≡ other.now) }
    {
        are_same(&self.terms, &other.terms)
    }

    /// An equal polynomial.
    pub fn copy(&self, alloc: Global) -> Result<Poly, AllocError>
        ensures { IfOk result (λ p. p ≡ self.now) }
    {
        let terms = copies(alloc, &self.terms)?;
        Ok(Poly { terms })
    }
}

// Whether the product is below the limit of norms.
fn is_small_product(a: u128, b: u128) -> bool
    ensures { IsTrue result ↔ (a * b < 2 ^ 126) }
{
    match a.checked_mul(b) {
        Some(product) => product < NORM_LIMIT,
        None => false,
    }
}

// Whether the products of numbers sum to less than the limit of norms.
fn is_small_combination(a: u128, b: u128, c: u128, d: u128) -> bool
    ensures { IsTrue result ↔ (a * b + c * d < 2 ^ 126) }
{
    match (a.checked_mul(b), c.checked_mul(d)) {
        (Some(first), Some(second)) => match first.checked_add(second) {
            Some(sum) => sum < NORM_LIMIT,
            None => false,
        },
        _ => false,
    }
}

// The terms whose coefficient isn't 0.
fn without_zeros(mut terms: Vec<Term>) -> Vec<Term>
    ensures { result.items ≡ nonzero_terms terms.items }
{
    terms.retain(|term| is_nonzero(term));
    terms
}

fn is_nonzero(term: &Term) -> bool
    ensures { result ≡ not (int_eq term.now.coeff (pos 0)) }
{
    term.coeff != 0
}

// Each monomial is one, since it is a `Mono`.
fn have_monomials(terms: &[Term])
    ensures { EachMono IsMonomial terms.now }
{
    for term in terms {
        prove!(term.mono.degree() <= 255);
    }
}

// Whether both have the same terms.
fn are_same(left: &[Term], right: &[Term]) -> bool
    ensures { IsTrue result ↔ (left.now ≡ right.now) }
{
    if left.len() != right.len() {
        return false;
    }
    for n in 0..left.len() {
        if !left[n].same(&right[n]) {
            return false;
        }
    }
    true
}

// The greatest common divisor of the coefficients that aren't constant.
fn common_divisor(terms: &[Term]) -> i128
    requires { norm terms.now < 2 ^ 126 }
    ensures value { result ≡ pos (content terms.now) }
    ensures small { content terms.now < 2 ^ 126 }
{
    let mut divisor = 0;
    for n in (0..terms.len()).rev() {
        if divisor == 1 {
            return 1;
        }
        let term = &terms[n];
        if !term.mono.is_empty() {
            divisor = gcd(term.coeff, divisor);
        }
    }
    divisor
}

// Whether the terms stand in monomial order with no coefficient 0, and norm and spread are within their bounds.
fn is_polynomial(terms: &[Term]) -> bool
    ensures { IsTrue result ↔ Fits terms.now }
{
    terms.len() <= SPREAD_LIMIT as usize && is_ordered(terms) && is_small(terms)
}

// Whether the terms stand in monomial order and no coefficient is 0.
fn is_ordered(terms: &[Term]) -> bool
    ensures value { result ≡ ordered terms.now }
    ensures monos { OnTrue result (EachMono IsMonomial terms.now) }
{
    for (n, term) in terms.iter().enumerate() {
        prove!(term.mono.degree() <= 255);
        if term.coeff == 0 || !comes_before_next(terms, n) {
            return false;
        }
    }
    true
}

// Whether the term at this place comes before the next one, if there is one.
fn comes_before_next(terms: &[Term], n: usize) -> bool
    requires { n < length terms.now }
    ensures { result ≡ starts_ordered (drop n terms.now) }
{
    n + 1 >= terms.len() || terms[n].mono.order(&terms[n + 1].mono) == Ordering::Less
}

// Whether the norm is below its limit.
fn is_small(terms: &[Term]) -> bool
    ensures { IsTrue result ↔ (norm terms.now < 2 ^ 126) }
{
    let mut total = 0;
    for term in terms {
        total += term.coeff.unsigned_abs();
        if total >= NORM_LIMIT {
            return false;
        }
    }
    true
}

// The sum of the coefficients' magnitudes.
fn sum_of_magnitudes(terms: &[Term]) -> u128
    requires { norm terms.now < 2 ^ 126 }
    ensures { result ≡ norm terms.now }
{
    let mut total = 0;
    for term in terms {
        total += term.coeff.unsigned_abs();
    }
    total
}
