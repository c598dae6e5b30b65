//! A report, checked again by one who trusts nobody's search.
//!
//! `recheck` reads the bytes line by line, with memory for one goal at a time, and answers where they are no report, which
//! goal is the first that isn't good, or that each is. A proved goal is good where its clauses are the listed ones, with
//! the names of their keys, and the rules accept each certificate; a refuted one where it is false at its assignment. So
//! each proved goal of a report that is accepted holds for all values.
#![tactic(auto)]

mod checking;
mod judging;
mod law;
mod plan;
mod proved;
mod refuted;
mod types;

pub use checking::recheck;
pub use law::{good_goals_are_right, one_verdict, served_reports_are_accepted};
pub use types::Recheck;
