ghost use Rattle.std.specs.Prelude.{◌≡◌, ◌↔◌};
ghost use Rattle.std.specs.List.{AllByRecursion};
ghost use Rattle.goal_ast.specs.declared.goal.Goal.{Goal as Question};
ghost use Rattle.goal_ast.specs.Range.{IsValid, SuitsSorts, sorts_of};
ghost use Rattle.goal_ast.specs.Sorted.{IsWellFormed};
ghost use Rattle.goal_ast.specs.Truth.{Point, truth_of};
ghost use Rattle.zify.specs.Truth.{IsValidTranslated, HoldsTranslated, z_truth_of};
ghost use Rattle.zify.specs.Translation.{translated};

/// The law of translation: a goal is valid exactly where, at every integer point, the hypotheses of its translation
/// imply the body.
pub fn translation()
    ensures { (goal : Question) → IsWellFormed goal → (IsValid goal ↔ IsValidTranslated (translated goal)) }
{}

/// Point by point: where the hypotheses of its translation hold, the goal's bound variables suit their sorts, and the two
/// bodies are true or false alike.
pub fn points()
    ensures suits { (goal : Question) (y : Point) → IsWellFormed goal → AllByRecursion (HoldsTranslated y) (translated goal).hyps → SuitsSorts y (sorts_of goal.vars) }
    ensures same { (goal : Question) (y : Point) → IsWellFormed goal → AllByRecursion (HoldsTranslated y) (translated goal).hyps → z_truth_of y (translated goal).body ≡ truth_of y goal.body }
{}
