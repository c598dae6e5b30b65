//! The answer to one goal: a certificate for each of its clauses, an assignment that makes it false, or why neither is
//! given; and the lines of a report that say so.
#![tactic(auto)]

mod answering;
mod answers;
mod keys;
mod law;
mod lines;
mod placing;
mod print;
mod trying;

pub use answering::answer;
pub use answers::{Answer, Kind, Origin, Shown};
pub use clause_engine::Why;
pub use keys::key_name;
pub use law::proved_goals_are_valid;
pub use lines::{
    push_asked, push_begin, push_cache, push_end, push_ill_sorted, push_session, push_unsorted,
};
pub use print::{print_answer, push_answer};
