ghost use Rattle.std.specs.Prelude.{◌≡◌, ℕ, ◌<◌, List, ◌∷◌, length};
ghost use Rattle.simplex_core.specs.declared.row.LinRow.{LinRow};
ghost use Rattle.simplex_core.specs.declared.solved.Pivot.{Pivot};
ghost use Rattle.simplex_core.specs.Form.{Line, one_of, basis_of, IsForm, HasAll};
ghost use Rattle.simplex_core.specs.Walk.{Leads, choose};

/// No walk meets a basis twice: from a basis no pivots, at least one, lead to a basis of the same variables.
pub fn no_return()
    ensures { (n : ℕ) (rows : List LinRow) (f g : List Line) (p : Pivot) (ps : List Pivot) → IsForm n rows f → Leads n rows f (p ∷ ps) g
        → HasAll (basis_of g) (basis_of f) → HasAll (basis_of f) (basis_of g) → ⊥ }
{}

/// So a walk has fewer pivots than there are sets of as many variables as rows.
pub fn few_pivots()
    ensures { (n : ℕ) (rows : List LinRow) (f g : List Line) (ps : List Pivot) → IsForm n rows f → Leads n rows f ps g
        → length ps < choose (one_of n rows) (length rows) }
{}
