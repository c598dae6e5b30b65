use cert_kit::PRow;

/// A row that stands, and its number among the rows of the certificate.
#[derive(Debug, Drop)]
pub struct Live {
    pub row: PRow,
    pub number: u32,
}
