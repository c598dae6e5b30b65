ghost use Rattle.std.specs.Prelude.{ℤ, List};
ghost use Rattle.cert_kit.specs.declared.row.PRow.{PRow};
ghost use Rattle.cert_kit.specs.Row.{HasNoSolution};
ghost use Rattle.farkas_rows.specs.Combining.{IsFarkas, HasNoRationalSolution};

/// Farkas' lemma, from multipliers to rows without solution: no rational point solves the rows, with each monomial as
/// an unknown, and so no integer point does.
pub fn farkas()
    ensures rationals { (rows : List PRow) (ms : List ℤ) → IsFarkas rows ms → HasNoRationalSolution rows }
    ensures whole { (rows : List PRow) → HasNoRationalSolution rows → HasNoSolution rows }
    ensures integers { (rows : List PRow) (ms : List ℤ) → IsFarkas rows ms → HasNoSolution rows }
{}
