use crate::source::Source;
use cert_kit::PRow;

/// The rows that were given, and how those after them were made, in the order of their numbers.
#[derive(Debug, Drop)]
pub struct Log<'a> {
    pub given: &'a [PRow],
    pub sources: Vec<Source>,
}
