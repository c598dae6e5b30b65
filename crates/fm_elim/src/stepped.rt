use crate::live::Live;

/// What comes of a step and of tidying after it.
#[derive(Debug, Drop)]
pub enum Stepped {
    /// The tidy rows.
    Rows(Vec<Live>),
    /// The last row of the log is constant and false.
    Contra,
    /// The limits were passed.
    Over,
}
