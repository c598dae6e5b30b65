//! A simplex over exact numbers by Bland's rule: it answers with a point, with multipliers that refute, or with the
//! pivots of its walk.
//!
//! Rows say that a linear form of rational unknowns is at least 0, or 0. The variables are the unknowns and, after
//! them, one slack for each row: the value of its form. A basis is a set of variables, as many as there are rows,
//! each of which the rows make an affine function of the others; its form is these functions, as equations in whole
//! numbers without common divisor. A walk exchanges one variable at a time, the least that breaks its row for the
//! least that can mend it, and meets no basis twice.
#![tactic(auto)]

mod answer;
mod choice;
mod exchange;
mod law;
mod numbers;
mod row;
mod simplex;
mod solved;
mod tableau;

pub use law::{few_pivots, no_return};
pub use row::LinRow;
pub use simplex::{solve, solve_within};
pub use solved::{Pivot, Solved, Walked};
