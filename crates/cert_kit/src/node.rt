use crate::bounds::Bounds;
use crate::row::PRow;

/// Why a certificate isn't good.
#[derive(Clone, Copy, Debug, PartialEq, Eq)]
pub enum Fault {
    /// A rule isn't met.
    Rule,
    /// A bound is passed.
    Bound,
}

/// A row that an expression means, with the bounds of the expression.
#[derive(Debug, Drop)]
pub struct Node {
    pub row: PRow,
    pub bounds: Bounds,
}
