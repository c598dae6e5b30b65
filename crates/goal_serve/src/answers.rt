use cert_kit::{Cert, Clause};
use clause_engine::Why;
use goal_ast::Assignment;
use sqlite_items::Items;

/// Where a certificate comes from.
#[derive(Clone, Copy, Debug, PartialEq, Eq)]
pub enum Origin {
    /// It was found for this goal.
    New,
}

/// A clause of a goal with its certificate.
#[derive(Debug, Drop)]
pub struct Shown {
    pub clause: Clause,
    pub origin: Origin,
    pub cert: Cert,
}

/// Which limit a goal passes.
#[derive(Clone, Copy, Debug, PartialEq, Eq)]
pub enum Kind {
    Weight,
    Spread,
    Degree,
    /// The number of its clauses, which is more than 4,096.
    Splits(u64),
}

/// What is said of a goal.
#[derive(Debug, Drop)]
pub enum Answer {
    /// Each clause has a certificate, so the goal is valid.
    Proved(Items<Shown>),
    /// The goal is false at the assignment.
    Refuted(Assignment),
    /// A clause has neither a certificate nor a point that witnesses, and why.
    Unsettled { clause: u32, why: Why },
    /// The goal passes a limit.
    Oversize(Kind),
    /// The goal has no sort at the place of its text.
    IllSorted { at: u64 },
}
