use crate::numbered::Numbered;
use sqlite_items::Items;

/// A row of a certificate, and how many values there are once each of its variables has one.
#[derive(Debug, Drop)]
pub struct Standing {
    pub due: usize,
    pub numbered: Numbered,
}

/// The rows that no point of a box solves all, and the greatest magnitude of a value.
#[derive(Debug, Drop)]
pub struct Ground {
    pub standing: Items<Standing>,
    pub reach: u128,
}
