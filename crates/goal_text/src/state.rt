use crate::operands::Operands;
use crate::raw::{RawBound, RawExpr, RawSession};
use goal_ast::{Mode, Name};
use sqlite_items::Items;

/// A name that waits for its sort.
#[derive(Debug, Drop)]
pub struct Named {
    pub name: Name,
    pub at: u64,
}

/// Where reading stands in a file.
#[derive(Debug, Drop)]
pub enum State {
    /// Before the first session.
    Start,
    /// A session's name is to come.
    Name,
    /// The dot after it.
    NameEnd(Named),
    /// In a session.
    Within(RawSession, Between),
}

/// The sessions that are whole, and where reading stands in the file.
pub type FileState = (Items<RawSession>, State);

/// Where reading stands in a session.
#[derive(Debug, Drop)]
pub enum Between {
    /// A goal or a session may come.
    Open,
    /// `Qed` too.
    Ended,
    /// The dot after it.
    QedEnd,
    /// In a goal, whose place this is, with what it binds so far.
    Goal(u64, Items<RawBound>, Part),
}

/// Where reading stands in a goal.
#[derive(Debug, Drop)]
pub enum Part {
    /// A prefix or the body.
    Head,
    /// After `forall`.
    Binders,
    /// In a group that stands alone, after one or more names.
    Bare(Items<Named>),
    /// The sort of such a group.
    BareSort(Items<Named>),
    /// The comma after it.
    BareEnd,
    /// In a group in parentheses, after these names.
    Grouped(Items<Named>),
    /// The sort of such a group.
    GroupedSort(Items<Named>),
    /// The closing parenthesis after it.
    GroupedEnd,
    /// After a group in parentheses.
    NextGroup,
    /// In the body, after so many tokens.
    Body(Operands, u32),
    /// After the body and its dot.
    Command(RawExpr),
    /// The dot after `Proof`.
    ProofEnd(RawExpr),
    /// The mode after it.
    ModeAfterProof(RawExpr),
    /// The dot after the mode.
    ModeEnd(RawExpr, Mode),
}

/// The names that a goal has bound, and where reading stands in it.
pub type GoalState = (Items<RawBound>, Part);
