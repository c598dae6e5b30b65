//! Goals of integer arithmetic, and their truth.
//!
//! A goal is a formula over variables with sorts. Its truth at an assignment is defined over unbounded integers, by
//! cases on its terms, in the terms of the Rocq manual; `eval` computes it in 128 bits and says where a number is too
//! big for that.
#![tactic(auto)]

mod arithmetic;
mod build;
mod copy;
mod evaluate;
mod formula;
mod goal;
mod judge;
mod law;
mod term;
mod types;

pub use formula::{BCmp, BFn, BTerm, Cmp, Formula};
pub use goal::{Assignment, Bound, Goal, Mode, Name};
pub use judge::{eval, in_range};
pub use law::{bound_variables, equality, strictness};
pub use term::{Fn1, Fn2, Operator, Sort, Term};
pub use types::Eval;
