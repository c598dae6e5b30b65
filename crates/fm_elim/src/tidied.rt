use cert_kit::PRow;

/// The cut of a row, and whether it is another row.
#[derive(Debug, Drop)]
pub struct Tidied {
    pub row: PRow,
    pub is_cut: bool,
}
