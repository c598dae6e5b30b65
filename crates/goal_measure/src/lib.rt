//! How large the atoms of a goal's translation to the integers are.
//!
//! The translation has a bound on the coefficients, on the number of terms and on the degree of what each of its atoms
//! says of polynomials. They are found on the goal itself, without making the translation, and are exact below their
//! limits.
#![tactic(auto)]

mod measure;
mod weigh;

pub use measure::{DEGREE, Measure, SPREAD, WEIGHT};
pub use weigh::{Weighed, weigh_formula};
