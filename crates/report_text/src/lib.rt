//! The lines of a report: read one by one, with which line fits after which.
//!
//! A report is its sessions, goals, answers and the histories of two caches; its lines are a list, and its text is theirs,
//! one after the other. `next_line` reads the line that fits next, or says that none does, so a report is read with memory
//! for one goal at a time. A text has at most one reading, and bytes that are no report go wrong at one place: that of the
//! first line that doesn't fit, or their length.
#![tactic(auto)]

mod answer;
mod between;
mod call;
mod clause;
mod goal;
mod history;
mod law;
mod lines;
mod name;
mod next;
mod number;
mod part;
mod progress;
mod value;
mod whole;
mod word;

pub use call::Call;
pub use law::{one_line, one_place, one_reading, reading_goes_on, reports_are_lines};
pub use lines::Line;
pub use next::{Next, next_line};
pub use progress::{Due, Progress};
pub use whole::wrong_at;
