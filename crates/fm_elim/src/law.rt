//! What holds of eliminations, said by functions that do nothing: each clause is a law for callers.

ghost use Rattle.std.specs.Prelude.{◌≡◌, ◌↔◌, ◌⊎◌, ◌<◌, ◌+◌, ℕ, true, ℤ, pos, ◌+ℤ◌, ◌*ℤ◌, ◌≤ℤ◌, neg_ℤ, List, Ok, Err};
ghost use Rattle.std.specs.List.{AllByRecursion, remove};
ghost use Rattle.mm_num.specs.Quotient.{floor_by};
ghost use Rattle.cert_kit.specs.declared.row.PRow.{PRow};
ghost use Rattle.cert_kit.specs.Row.{Solves, HasNoSolution};
ghost use Rattle.fm_elim.specs.declared.rule.Rule.TheVariants.{Solve, Halve};
ghost use Rattle.fm_elim.specs.Tidy.{Contra, Point, tidied};
ghost use Rattle.fm_elim.specs.Steps.{rule_of, poly_at, solved, halved, eliminated};
ghost use Rattle.fm_elim.specs.Elimination.{outcome_in, enough_steps, outcome, elimination};
ghost use Rattle.fm_elim.specs.Answers.{Occurs, AreNumbered};
ghost use Rattle.fm_elim.specs.Points.{HoldsBy, values_of, AreRows, AreLinear, point_at};

/// Tidy rows have the integer solutions of the rows, and where tidying meets a contradiction there is none.
pub fn tidy()
    ensures same { (x : ℕ → ℤ) (rows kept : List PRow) → tidied rows ≡ Ok kept → Solves x rows ↔ Solves x kept }
    ensures contra { (rows : List PRow) → tidied rows ≡ Err Contra → HasNoSolution rows }
{}

/// Each rule keeps the integer solutions of the rows that it applies to.
pub fn steps()
    ensures solved { (x : ℕ → ℤ) (rows after : List PRow) (k : ℕ) (u : List (ℕ × ℕ)) → rule_of rows ≡ Solve k u
        → solved u (poly_at k rows) (remove rows k) ≡ Ok after → Solves x rows → Solves x after }
    ensures halved { (x : ℕ → ℤ) (rows : List PRow) (k : ℕ) → rule_of rows ≡ Halve k → Solves x rows → Solves x (halved k rows) }
    ensures eliminated { (x : ℕ → ℤ) (rows after : List PRow) (u : List (ℕ × ℕ)) → eliminated u rows ≡ Ok after → Solves x rows → Solves x after }
{}

/// The exact shadow (Pugh 1991): of a lower bound `a*z + k >= 0` and an upper bound `-b*z + m >= 0`, where a or b is
/// 1, there is a whole number between exactly where the pair's sum `b*k + a*m` is at least 0.
pub fn exact_shadow()
    ensures { (a b : ℕ) (k m : ℤ) → 0 < a → 0 < b → (a ≡ 1) ⊎ (b ≡ 1)
        → (pos 0 ≤ℤ (pos b *ℤ k +ℤ pos a *ℤ m)) ↔ ((z : ℤ) × (pos 0 ≤ℤ (pos a *ℤ z +ℤ k)) × (pos 0 ≤ℤ (neg_ℤ (pos b *ℤ z) +ℤ m))) }
{}

/// No integer point solves rows whose elimination ends in a contradiction.
pub fn contradictions()
    ensures { (rows : List PRow) → elimination rows ≡ Contra → HasNoSolution rows }
{}

/// The values of a point solve the rows: where each monomial counts for its value, and as a point of the variables
/// where the rows are linear.
pub fn points()
    ensures values { (rows : List PRow) → AreRows rows → elimination rows ≡ Point → AllByRecursion (HoldsBy (values_of (outcome rows).removed)) rows }
    ensures linear { (rows : List PRow) → AreRows rows → AreLinear rows → elimination rows ≡ Point → Solves (point_at rows) rows }
{}

/// Linear rows in which the variables below a number occur, and no others, have these variables as unknowns, in order.
pub fn numbering()
    ensures { (rows : List PRow) (n : ℕ) → AreRows rows → AreLinear rows → ((v : ℕ) → (v < n) ↔ Occurs v rows) → AreNumbered rows }
{}

/// More steps than are counted change nothing: each rule removes an unknown or an equality.
pub fn enough()
    ensures { (rows kept : List PRow) (k : ℕ) → AreRows rows → tidied rows ≡ Ok kept → outcome_in (enough_steps kept + k) true kept ≡ outcome_in (enough_steps kept) true kept }
{}
