//! The law of printing.

ghost use Rattle.goal_ast.specs.declared.goal.Goal.{Goal};
ghost use Rattle.goal_sort.specs.declared.raw.RawGoal.{RawGoal};
ghost use Rattle.goal_sort.specs.IsSorted.{IsSorted};
ghost use Rattle.goal_text.specs.GoalsRead.{IsGoalOfFile};
ghost use Rattle.goal_print.specs.ReadsBack.{ReadsBack};

/// The text of a goal that a goal of a file is, in a file of its own, is within the limits and reads back as that goal.
pub fn reads_back()
    ensures { (raw : RawGoal) (goal : Goal) → IsGoalOfFile raw → IsSorted raw goal → ReadsBack goal }
{}
