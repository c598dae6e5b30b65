//! One clause: a certificate that no integer point solves it, a point that does, or why neither is given.
#![tactic(auto)]

mod engine;
mod linear;
mod outcome;

pub use engine::prove_clause;
pub use outcome::{Outcome, Why};
