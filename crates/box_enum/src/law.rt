//! What holds of boxes, said by a function that does nothing: each clause is a law for callers.

ghost use Rattle.std.specs.Prelude.{◌≡◌, ℕ, ℤ, List, Some, None};
ghost use Rattle.cert_kit.specs.declared.row.PRow.{PRow};
ghost use Rattle.cert_kit.specs.Row.{Solves, HasNoSolution};
ghost use Rattle.cert_kit.specs.Variables.{variables_of, point_over};
ghost use Rattle.box_enum.specs.Box.{Side, box_of, first_point, AreBetween};

/// Each point that solves rows with a box gives each variable a value between its bounds. So the box misses no solution:
/// where none of its points solves the rows, no integer point does. Its first point that solves them does so as a point of
/// their variables.
pub fn boxes()
    ensures within { (x : ℕ → ℤ) (rows : List PRow) (sides : List Side) → box_of rows ≡ Some sides → Solves x rows → AreBetween x (variables_of rows) sides }
    ensures none { (rows : List PRow) (sides : List Side) → box_of rows ≡ Some sides → first_point rows ≡ None → HasNoSolution rows }
    ensures first { (rows : List PRow) (zs : List ℤ) → first_point rows ≡ Some zs → Solves (point_over (variables_of rows) zs) rows }
{}
