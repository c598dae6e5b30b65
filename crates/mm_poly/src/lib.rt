//! Polynomials with integer coefficients, with bounds on their size.
//!
//! A polynomial is seen as the list of its terms in monomial order: its value at an integer point, its norm, its
//! spread, its degree and its content are read off that list. Sums, products and multiples are exact, and answer
//! `Big` exactly where the bounds of the parts don't leave room for the result. `Poly::value` answers exactly where
//! a bound on the value leaves room for each step. `Poly::from_terms` takes exactly the lists that are polynomials.
#![tactic(auto)]

mod fail;
mod insert;
mod laws;
mod limits;
mod mono;
mod parts;
mod point;
mod poly;
mod product;
mod sum;
mod term;

pub use fail::PolyFail;
pub use laws::{coefficients, exponents, linear_values, monomial_order, renaming, values};
pub use limits::{DEGREE_LIMIT, NORM_LIMIT, SPREAD_LIMIT};
pub use mono::{Factors, Mono};
pub use poly::Poly;
pub use term::Term;
