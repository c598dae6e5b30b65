pub use goal_sort::{Head, RawBound, RawExpr, RawGoal, RawSession};

/// An expression with its level.
pub type Leveled = (RawExpr, u8);
