use crate::source::Source;

/// Sources that are kept of a log, and the new number of each row that it made, where it is kept.
#[derive(Debug, Drop)]
pub struct Pruned {
    pub sources: Vec<Source>,
    pub places: Vec<Option<u32>>,
}
