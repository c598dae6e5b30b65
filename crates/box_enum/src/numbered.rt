use cert_kit::PRow;

/// A row, and its number among the rows so far.
#[derive(Debug, Drop)]
pub struct Numbered {
    pub row: PRow,
    pub number: u32,
}

/// A value for a variable, and the number of the row `variable - value = 0`.
#[derive(Clone, Copy, Debug)]
pub struct Choice {
    pub variable: u32,
    pub value: i128,
    pub row: u32,
}
