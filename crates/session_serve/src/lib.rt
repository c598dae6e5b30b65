//! All sessions of a goal file, and the report on them.
//!
//! `serve_all` gives a good answer to each goal of each session. `print_report` prints the sessions, their goals and the
//! answers line by line, so that the report is a function of them.
#![tactic(auto)]

mod law;
mod report;
mod serve;
mod served;
mod spelling;

pub use law::{good_answers_are_replies, good_answers_are_right, proved_sessions_are_valid};
pub use report::print_report;
pub use serve::serve_all;
pub use served::{Caches, Served, Unserved, all_proved};
