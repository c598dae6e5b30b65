//! How far a report is read.

ghost use Rattle.std.specs.Prelude.{◌≡◌, ◌≤◌, List};
ghost use Rattle.goal_ast.specs.declared.goal.Bound.{Bound};
ghost use Rattle.report_text.specs.Fitting.{begin};
ghost use Rattle.report_text.specs.Progress.{reading_of};

use goal_ast::Mode;

/// What may come next in a report.
#[derive(Clone, Copy, Debug, PartialEq, Eq)]
pub enum Due {
    /// The first line.
    Begin,
    /// A session, a goal of the session, or the first cache.
    Between,
    /// What is said of the goal.
    Answer,
    /// The place where the goal has no sorts.
    Place,
    /// The value of the goal's variable of this number; where there is none, what may come between goals.
    Value(usize),
    /// The clause of this number, where the last one has that number.
    Clause { number: u64, last: u64 },
    /// A row or the certificate of the clause of this number, after so many rows, where the last clause has that number.
    Row { number: u64, rows: u32, last: u64 },
    /// A call of the cache of this mode, of which so many still store; where none does, also what follows the calls.
    Call { mode: Mode, stores: u64 },
    /// Nothing.
    Nothing,
}

/// How far a report is read: how many sessions, how many goals in all, how many of them in the last session, and what may
/// come next.
#[derive(Clone, Copy, Debug, PartialEq, Eq)]
pub struct Progress {
    pub sessions: u64,
    pub goals: u64,
    pub here: u64,
    pub due: Due,
}

impl Progress {
    /// Where no line is read.
    pub fn new() -> Progress
        ensures reading { (vars : List Bound) → reading_of vars result ≡ begin }
        ensures counted { result.here ≤ result.goals }
    {
        Progress {
            sessions: 0,
            goals: 0,
            here: 0,
            due: Due::Begin,
        }
    }
}
