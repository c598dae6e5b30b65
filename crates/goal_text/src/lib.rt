//! Goal files, read and sorted.
//!
//! `read_file` gives the sessions of a file, their goals and the places of all that was read. What it reads is in the
//! grammar and within the limits; what it refuses is not, and the refusal has the place of the first token that no file
//! has there, or that passes a limit. A text has at most one reading, and `sorts` takes each goal of it.
#![tactic(auto)]

mod closing;
mod fail;
mod file;
mod following;
mod frame;
mod goal;
mod joining;
mod kind;
mod opening;
mod operands;
mod precedence;
mod prefix;
mod raw;
mod read;
mod reader;
mod session;
mod stack;
mod state;

pub use fail::TextFail;
pub use file::{one_reading, read_file, readable, within_limits};
pub use goal_sort::{SortFail, one_sorting, sorts};
pub use raw::{Head, RawBound, RawExpr, RawGoal, RawSession};
