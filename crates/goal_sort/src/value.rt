//! What is known of a node.

use goal_ast::{BTerm, Formula, Sort, Term};

/// The sort of a number, where it has one yet.
#[derive(Clone, Copy, Debug)]
pub enum NumberSort {
    /// It takes the sort of the numbers that it is joined with; whether a `/` or `mod` stands in it.
    Free(bool),
    /// It has this one.
    Fixed(Sort),
}

/// A number. While it is free, its subtractions are on Z, and `zero` is the place of its first literal 0; then that of
/// the first literal 0 in it that is positive.
#[derive(Debug, Drop)]
pub struct Number {
    pub sort: NumberSort,
    pub term: Term,
    pub zero: Option<u64>,
}

/// A bool, and the place of the first literal 0 in it that is positive.
#[derive(Debug, Drop)]
pub struct Truth {
    pub term: BTerm,
    pub zero: Option<u64>,
}

/// A formula, and the place of the first literal 0 in it that is positive.
#[derive(Debug, Drop)]
pub struct Statement {
    pub formula: Formula,
    pub zero: Option<u64>,
}

/// What a node is.
#[derive(Debug, Drop)]
pub enum Sorted {
    Number(Number),
    Truth(Truth),
    Statement(Statement),
}

/// Two numbers with one sort, or with none yet.
#[derive(Debug, Drop)]
pub struct Pair {
    pub sort: NumberSort,
    pub left: Term,
    pub right: Term,
    pub zero: Option<u64>,
}

/// Three numbers with one sort, or with none yet.
#[derive(Debug, Drop)]
pub struct Triple {
    pub left: Term,
    pub middle: Term,
    pub right: Term,
    pub zero: Option<u64>,
}

/// A node as an exponent or a divisor.
#[derive(Clone, Copy, Debug)]
pub enum Written {
    /// A literal.
    Literal(i128),
    /// A minus before a literal.
    Negated(i128),
    Other,
}
