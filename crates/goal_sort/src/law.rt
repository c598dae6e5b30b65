//! The law of sorting.

ghost use Rattle.std.specs.Prelude.{◌≡◌, Ok};
ghost use Rattle.goal_ast.specs.declared.goal.Goal.{Goal};
ghost use Rattle.goal_ast.specs.Sorted.{IsWellFormed};
ghost use Rattle.goal_sort.specs.declared.raw.RawGoal.{RawGoal};
ghost use Rattle.goal_sort.specs.IsSorted.{IsSorted};
ghost use Rattle.goal_sort.specs.Sorting.{sorting, IsReadable};

/// A goal as it was read is at most one goal.
pub fn one_sorting()
    ensures { (raw : RawGoal) (goal other : Goal) → IsSorted raw goal → IsSorted raw other → goal ≡ other }
{}

/// The goal that a goal as it was read is, is what sorting gives.
pub fn sorting_gives()
    ensures { (raw : RawGoal) (goal : Goal) → IsSorted raw goal → sorting raw ≡ Ok goal }
{}

/// The goal that a readable goal is, is well formed.
pub fn sorted_goals_are_well_formed()
    ensures { (raw : RawGoal) (goal : Goal) → IsReadable raw → IsSorted raw goal → IsWellFormed goal }
{}
