use crate::form::ZForm;
use sqlite_items::Items;

/// Hypotheses and what they are to imply, over variables that are numbered from 0.
#[derive(Debug, Drop)]
pub struct ZGoal {
    /// How many variables there are.
    pub vars: u32,
    /// How many of them are the bound variables of a goal, which come first.
    pub bound: u32,
    pub hyps: Items<ZForm>,
    pub body: ZForm,
}
