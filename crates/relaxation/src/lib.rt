//! The rational relaxation of rows: a certificate where no rational values of their unknowns solve them, and else
//! values that do.
//!
//! Each monomial that isn't constant is an unknown of its own, so this serves rows of any degree. The certificate is
//! that of Farkas' lemma, by the multipliers that a simplex ends with.
#![tactic(auto)]

mod alone;
mod linear;
mod reach;
mod relaxed;
mod relaxing;

pub use alone::linear_unknowns;
pub use linear::forms;
pub use relaxed::{Relaxation, Relaxed};
pub use relaxing::relax;
