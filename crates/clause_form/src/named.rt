use cert_kit::Clause;
use sqlite_items::Items;

/// A clause whose variables are numbered from 0, and what they are in the goal.
#[derive(Debug, Drop)]
pub struct Named {
    pub clause: Clause,
    /// The variable of the goal at the place of each variable of the clause; they rise.
    pub vars: Items<u32>,
}
