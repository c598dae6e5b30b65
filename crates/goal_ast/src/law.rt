ghost use Rattle.std.specs.Prelude.{◌≡◌, ◌↔◌, ℕ, true, length};
ghost use Rattle.goal_ast.specs.declared.term.Term.{Term as Number};
ghost use Rattle.goal_ast.specs.declared.formula.BTerm.{BTerm as Truthful};
ghost use Rattle.goal_ast.specs.declared.formula.Formula.{Formula as Statement};
ghost use Rattle.goal_ast.specs.declared.goal.Goal.{Goal as Question};
ghost use Rattle.goal_ast.specs.Truth.{Point, value_of, bool_of, truth_of};
ghost use Rattle.goal_ast.specs.Evaluation.{only_if, evaluated, bool_evaluated, truth_evaluated, all_small, bool_all_small, formula_all_small, eval_of};
ghost use Rattle.goal_ast.specs.Variables.{SameBelow, names_below, bool_names_below, formula_names_below};
ghost use Rattle.goal_ast.specs.Equality.{same_term};
ghost use Rattle.goal_ast.specs.Sorted.{IsWellFormed};

/// The law of evaluation: there is a result exactly where the value of each subterm is small, and the result is the
/// value over unbounded integers.
pub fn strictness()
    ensures terms { (x : Point) (t : Number) → evaluated x t ≡ only_if (all_small x t) (value_of x t) }
    ensures bools { (x : Point) (b : Truthful) → bool_evaluated x b ≡ only_if (bool_all_small x b) (bool_of x b) }
    ensures formulas { (x : Point) (f : Statement) → truth_evaluated x f ≡ only_if (formula_all_small x f) (truth_of x f) }
{}

/// Only the bound variables count: the body of a well-formed goal names no others, and what names no variable from
/// some number on is the same at points that agree below it.
pub fn bound_variables()
    ensures named { (goal : Question) → IsWellFormed goal → formula_names_below (length goal.vars) goal.body ≡ true }
    ensures terms { (n : ℕ) (x y : Point) (t : Number) → SameBelow n x y → names_below n t ≡ true → value_of x t ≡ value_of y t }
    ensures bools { (n : ℕ) (x y : Point) (b : Truthful) → SameBelow n x y → bool_names_below n b ≡ true → bool_of x b ≡ bool_of y b }
    ensures truth { (n : ℕ) (x y : Point) (f : Statement) → SameBelow n x y → formula_names_below n f ≡ true → truth_of x f ≡ truth_of y f }
    ensures eval { (n : ℕ) (x y : Point) (f : Statement) → SameBelow n x y → formula_names_below n f ≡ true → eval_of x f ≡ eval_of y f }
{}

/// Terms are equal exactly where they have the same operator over equal parts.
pub fn equality()
    ensures { (t u : Number) → (same_term t u ≡ true) ↔ (t ≡ u) }
{}
