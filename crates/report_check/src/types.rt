/// What comes of checking a report.
#[derive(Clone, Copy, Debug, PartialEq, Eq)]
pub enum Recheck {
    /// Each of its proved and refuted goals is good.
    Accepted,
    /// The first goal that isn't good: the number of its session, and its own in the session.
    Rejected { session: u64, goal: u64 },
    /// The bytes are no report: the offset of the first line that doesn't fit, or their length.
    Bad { at: u64 },
}
