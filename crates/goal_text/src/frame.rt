use crate::raw::RawExpr;
use goal_token::{Function, Sign};

/// A construct of an expression that is open: what was read of it.
#[derive(Debug, Drop)]
pub enum Frame {
    /// A parenthesis.
    Open,
    /// A sign before its operand.
    Prefix(Sign, u64),
    /// A sign after its left operand.
    Infix(Sign, u64, RawExpr),
    /// Two comparisons, with the operands before each.
    Chain(Sign, u64, Sign, RawExpr, RawExpr),
    /// A function before the first of its two arguments.
    First(Function, u64),
    /// A function before its last argument, and the one before that.
    Last(Function, u64, Option<RawExpr>),
}
