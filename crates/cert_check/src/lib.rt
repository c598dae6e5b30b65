//! The checker of certificates.
//!
//! `check` says of a certificate over a clause whether the rules accept it, and why not: the verdict is that of the
//! certificate's first fault, and where there is none, no integer point solves the clause. Rows that steps append are let go
//! after their last use, so a long certificate takes the memory of the rows that are still to be used.
#![tactic(auto)]

mod checking;
mod close;
mod example;
mod fail;
mod interval;
mod node;
mod rows;
mod split;
mod step;
mod uses;
mod walk;
mod walked;

pub use checking::{Verdict, check};
pub use example::three_steps_are_good;
