use crate::live::Live;
use crate::removal::Removal;

/// Where an elimination stands.
#[derive(Debug, Drop)]
pub struct State {
    pub rows: Vec<Live>,
    /// Whether each step was exact.
    pub exact: bool,
    pub removed: Vec<Removal>,
    /// The greatest norm of a tidy row before.
    pub norm: u128,
}

/// How an elimination ended.
#[derive(Debug, Drop)]
pub enum Ran {
    /// The last row of the log is constant and false.
    Contra,
    /// The removals by which the unknowns have values, and the greatest norm of a tidy row.
    Point(Vec<Removal>, u128),
    Grey,
    Over,
}

/// What comes after a step.
#[derive(Debug, Drop)]
pub enum Next {
    Going(State),
    Ended(Ran),
}
