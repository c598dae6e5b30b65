use cert_kit::Cert;
use sqlite_items::Items;

/// What comes of a box.
#[derive(Debug, Drop)]
pub enum BoxEnd {
    /// No point of the box solves the clause, and so no integer point does: a certificate.
    Cert(Cert),
    /// The first point of the box that solves the clause, a value for each variable.
    Point(Items<i128>),
    /// The box isn't small enough for the turns, or the rows aren't for certificates over it.
    TooWide,
}
