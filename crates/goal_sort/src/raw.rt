use goal_ast::{Mode, Name, Sort};
use sqlite_items::Items;

/// What stands at a node of an expression: a leaf, or an operator or function by the number of its token.
#[derive(Debug, Drop)]
pub enum Head {
    /// A literal.
    Lit(i128),
    /// A name, or one of `True`, `False`, `true` and `false`.
    Name(Name),
    /// A sign before its operand.
    Prefix(u8),
    /// A sign between its operands.
    Infix(u8),
    /// Two signs between three operands.
    Chain(u8, u8),
    /// A function before its arguments.
    Apply(u8),
}

/// An expression as it was read, with the place of its own token; that of a chain is its first sign's.
#[derive(Debug, Drop)]
pub struct RawExpr {
    pub head: Head,
    pub at: u64,
    pub parts: Items<RawExpr>,
}

/// A bound name.
#[derive(Debug, Drop)]
pub struct RawBound {
    pub name: Name,
    pub sort: Sort,
    pub at: u64,
}

/// A goal as it was read, with the place of the word `Goal`.
#[derive(Debug, Drop)]
pub struct RawGoal {
    pub mode: Mode,
    pub bound: Items<RawBound>,
    pub body: RawExpr,
    pub at: u64,
}

/// A session as it was read.
#[derive(Debug, Drop)]
pub struct RawSession {
    pub name: Name,
    pub goals: Items<RawGoal>,
}
