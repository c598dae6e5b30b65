//! Clauses of a goal over the integers.
//!
//! The hypotheses and the negation of the body, written as alternatives, are lists of rows: polynomials that are at
//! least 0, or 0. Each alternative, with its variables renumbered and its rows sorted, is a clause. A point satisfies
//! the hypotheses and not the body exactly where it solves one of the clauses, so the goal is valid exactly where no
//! clause has an integer solution.
#![tactic(auto)]

mod clause_list;
mod digesting;
mod fail;
mod keys;
mod law;
mod named;
mod naming;
mod plan;
mod poly;
mod row;
mod tally;
mod walk;

pub use clause_list::{CLAUSE_LIMIT, clauses};
pub use fail::ClauseFail;
pub use keys::{clause_name, equal_keys, key};
pub use law::{bounds, numbering, refutation, solutions};
pub use named::Named;
pub use tally::{Tally, count, count_clauses};
