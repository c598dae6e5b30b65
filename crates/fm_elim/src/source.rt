/// What a row is made of: rows before it, which are named by their numbers.
#[derive(Clone, Copy, Debug)]
pub enum Combination {
    /// This row.
    Given(u32),
    /// The sum of the first row and a multiple of an equality.
    Sum(u32, i128, u32),
    /// The sum of a multiple of a lower row and one of an upper row.
    Pair(i128, u32, i128, u32),
    /// An equality is at least 0.
    Half(u32),
    /// The equality's negation is at least 0.
    OtherHalf(u32),
}

/// How a row is made: it is the cut of a combination, or the combination itself.
#[derive(Clone, Copy, Debug)]
pub struct Source {
    pub combination: Combination,
    pub is_cut: bool,
}

/// What gives a row its number: it has one, or it is made.
#[derive(Clone, Copy, Debug)]
pub enum Origin {
    Stands(u32),
    Made(Source),
}
