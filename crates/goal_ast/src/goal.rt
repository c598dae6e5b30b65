use crate::formula::Formula;
use crate::term::Sort;
use sqlite_items::Items;

/// The proof command that a goal is for.
#[derive(Clone, Copy, Debug, PartialEq, Eq)]
pub enum Mode {
    /// Linear arithmetic.
    Lia,
    /// Nonlinear arithmetic.
    Nia,
}

/// A name, in ASCII.
#[derive(Debug, Drop)]
pub struct Name {
    pub bytes: Items<u8>,
}

/// A bound variable.
#[derive(Debug, Drop)]
pub struct Bound {
    pub name: Name,
    pub sort: Sort,
}

/// A formula under its bound variables, which are numbered from 0 in the order of `vars`.
#[derive(Debug, Drop)]
pub struct Goal {
    pub mode: Mode,
    pub vars: Items<Bound>,
    pub body: Formula,
}

/// A value for each bound variable, in their order; `false` is 0 and `true` is 1.
#[derive(Debug, Drop)]
pub struct Assignment {
    pub values: Items<i128>,
}
