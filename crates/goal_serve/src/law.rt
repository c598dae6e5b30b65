//! The law of answers.

ghost use Rattle.std.specs.Prelude.{ℕ};
ghost use Rattle.goal_ast.specs.declared.goal.Goal.{Goal};
ghost use Rattle.goal_ast.specs.Range.{IsValid};
ghost use Rattle.goal_ast.specs.Sorted.{IsWellFormed};
ghost use Rattle.goal_serve.specs.declared.answers.Answer.{Answer};
ghost use Rattle.goal_serve.specs.Answering.{MeetsGoal, IfProved};

/// A goal that a good answer says is proved holds for all values.
pub fn proved_goals_are_valid()
    ensures { (goal : Goal) (turns : ℕ) (a : Answer) → IsWellFormed goal → MeetsGoal goal turns a → IfProved (IsValid goal) a }
{}
