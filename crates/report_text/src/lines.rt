use crate::call::Call;
use cert_kit::{Cert, PRow};
use clause_engine::Why;
use goal_ast::{Goal, Mode, Name};
use goal_serve::{Kind, Origin};

/// A line of a report.
#[derive(Debug, Drop)]
pub enum Line {
    /// The first line.
    Begin,
    /// A session: its number and name.
    Session {
        number: u64,
        name: Name,
    },
    /// A goal: its number and mode, and the goal itself where it has sorts.
    Asked {
        number: u64,
        mode: Mode,
        goal: Option<Goal>,
    },
    /// So many clauses follow.
    Proved(u64),
    /// A clause: its number, the name of its key, and where its certificate comes from.
    Clause {
        number: u64,
        name: [u8; 16],
        origin: Origin,
    },
    /// A row of the clause.
    Row(PRow),
    /// The certificate of the clause.
    Certificate(Cert),
    /// The assignment follows.
    Refuted,
    /// The value of the next variable.
    Value(i128),
    /// A clause is unsettled, and why.
    Unsettled {
        clause: u64,
        why: Why,
    },
    /// The goal passes a limit.
    Oversize(Kind),
    /// The place where the goal has no sorts.
    IllSorted {
        at: u64,
    },
    /// A cache: how many entries it was opened with, how many were stored, and how many are saved.
    Cache {
        mode: Mode,
        opened: u64,
        stored: u64,
        saved: u64,
    },
    /// A call of the cache's history.
    Called(Call),
    /// The last line.
    End,
}
