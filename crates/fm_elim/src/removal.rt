use cert_kit::PRow;
use mm_poly::{Mono, Poly};
use sqlite_items::Items;

/// An unknown that was removed, and what its value goes by.
#[derive(Debug, Drop)]
pub enum Removal {
    /// The polynomial is 0, and the unknown's coefficient in it is 1 or -1.
    Solved(Mono, Poly),
    /// The unknown's lower rows and its upper rows.
    Bounded(Mono, Items<PRow>, Items<PRow>),
}
