/// A linear form of rational unknowns, `coeffs * x + constant`, that is at least 0, or equal to 0.
#[derive(Debug, Drop)]
pub struct LinRow {
    pub coeffs: Vec<i128>,
    pub constant: i128,
    pub equal: bool,
}
