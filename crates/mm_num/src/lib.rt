//! Exact arithmetic on whole numbers of 128 bits.
//!
//! A number is small where its magnitude is below 2^126: then sums, differences and quotients fit, and
//! nothing here takes memory or rounds in another way than it says. A fraction stands in lowest terms over a
//! denominator of at least 1. The definitions of floor, ceiling, greatest common divisor and fraction stand here
//! for all crates above, and so do the identities of a ring.
#![tactic(auto)]

mod divide;
mod divisor;
mod frac;

pub use divide::{ceil_div, floor_div};
pub use divisor::gcd;
pub use frac::Frac;
