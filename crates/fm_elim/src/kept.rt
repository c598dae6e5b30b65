ghost use Rattle.std.specs.Prelude.{◌≤◌, length};

use crate::live::Live;

/// The rows that tidying keeps of those that it took, or that they are too many.
#[derive(Debug, Drop)]
pub struct Kept {
    pub rows: Vec<Live>,
    pub is_over: bool,
    ghost few: { length rows.items ≤ 512 },
}
