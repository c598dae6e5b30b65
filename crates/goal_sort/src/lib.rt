//! Goals as they are read from a file, and the goals that they are.
//!
//! `sorts` gives each node of a goal as it was read its sort, or says at which place the sorts don't fit. The goal that
//! it gives is well formed, it is the only one that the rules of sorts allow, and there is none where it refuses.
#![tactic(auto)]

mod fail;
mod law;
mod leaf;
mod node;
mod number;
mod operator;
mod parts;
mod raw;
mod root;
mod statement;
mod term;
mod truth;
mod value;

pub use fail::SortFail;
pub use law::{one_sorting, sorted_goals_are_well_formed, sorting_gives};
pub use raw::{Head, RawBound, RawExpr, RawGoal, RawSession};
pub use root::sorts;
