//! Cuts and splits at a rational point that isn't whole, as the steps of a certificate by branch and cut.
//!
//! A cut is wanted first: a row, or a sum of small multiples of two rows, whose rounded form the point doesn't solve.
//! Where none is found, a variable without a whole value is split between the whole numbers around it.
#![tactic(auto)]

mod own;
mod picking;
mod range;
mod rounding;
mod scaled;
mod splitting;
mod summing;
mod types;

pub use picking::{pick, pick_split};
pub use types::Pick;
