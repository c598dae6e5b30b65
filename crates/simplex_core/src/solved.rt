use mm_num::Frac;

/// One exchange of a walk: the variable that leaves the basis, and the one that enters it. The unknowns are counted
/// first, from 0, and then the rows' slacks.
#[derive(Clone, Copy, Debug, PartialEq, Eq)]
pub struct Pivot {
    pub leaves: u32,
    pub enters: u32,
}

/// What the simplex finds.
#[derive(Debug, Drop)]
pub enum Solved {
    /// A value for each unknown, which solve all rows.
    Point(Vec<Frac>),
    /// A multiplier for each row, at least 0 for an inequality: together the rows give a negative constant.
    Farkas(Vec<i128>),
    /// All turns were taken: the pivots of the walk, after which another is due.
    Turns(Vec<Pivot>),
    /// The pivots of a walk to a basis whose form has a number of magnitude at least 2^30.
    Size(Vec<Pivot>),
}

/// What the simplex finds within its turns, and how many of them are left.
#[derive(Debug, Drop)]
pub struct Walked {
    pub solved: Solved,
    pub left: u32,
}
