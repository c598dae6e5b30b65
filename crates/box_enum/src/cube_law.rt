ghost use Rattle.std.specs.Prelude.{◌≡◌, ◌≤◌, ℤ, length, unsigned_abs, Some, None};
ghost use Rattle.std.specs.List.{AllByRecursion};
ghost use Rattle.goal_ast.specs.declared.goal.Goal.{Goal as Question};
ghost use Rattle.goal_ast.specs.declared.goal.Assignment.{Assignment as Given};
ghost use Rattle.goal_ast.specs.Range.{IsInRange, point_of};
ghost use Rattle.goal_ast.specs.Evaluation.{eval_of};
ghost use Rattle.box_enum.specs.Cube.{cube_of};

use goal_ast::Eval;

/// The cube's assignment is in range and the goal is false there. Where there is none, no assignment of at most 6 variables
/// that is in range and has values from -2 to 2 makes the goal false.
pub fn cubes()
    ensures found { (goal : Question) (a : Given) → cube_of goal ≡ Some a → IsInRange goal a × (eval_of (point_of a.values) goal.body ≡ Eval.False) }
    ensures none { (goal : Question) (a : Given) → cube_of goal ≡ None → length goal.vars ≤ 6 → IsInRange goal a → AllByRecursion (λ z. unsigned_abs z ≤ 2) a.values
        → eval_of (point_of a.values) goal.body ≡ Eval.False → ⊥ }
{}
