//! The text of a goal and of an assignment.
//!
//! A goal has one text. It has parentheses exactly where the grammar of goals needs them, and it is read again as that
//! goal.
#![tactic(auto)]

mod assignment;
mod binders;
mod bools;
mod formula;
mod goal;
mod law;
mod pieces;
mod precedence;
mod spelling;
mod term;

pub use assignment::{print_assignment, push_assignment};
pub use goal::{print_goal, push_goal};
pub use law::reads_back;
