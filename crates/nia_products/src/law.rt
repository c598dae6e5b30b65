//! What holds of enriched rows, said by functions that do nothing: each clause is a law for callers.

ghost use Rattle.std.specs.Prelude.{◌≡◌, ◌↔◌, ◌≤◌, ℕ, ℤ, max, List, ◌++◌, Bool};
ghost use Rattle.std.specs.List.{list_any};
ghost use Rattle.std.specs.List.Sorted.{IsStrictlySortedBy};
ghost use Rattle.mm_poly.specs.Mono.{mono_cmp};
ghost use Rattle.cert_kit.specs.declared.row.PRow.{PRow};
ghost use Rattle.cert_kit.specs.declared.cert.Step.{Step};
ghost use Rattle.cert_kit.specs.declared.cert.Close.{Close};
ghost use Rattle.cert_kit.specs.Row.{Solves};
ghost use Rattle.cert_kit.specs.Acceptance.{IsGood};
ghost use Rattle.cert_kit.specs.Depth.{cert_depth, MakesCert};
ghost use Rattle.cert_kit.specs.Making.{Makes};
ghost use Rattle.nia_products.specs.Squares.{row_squares, squares_of};
ghost use Rattle.nia_products.specs.Enriching.{AreFit, enriched, source_steps};

/// The sources' steps make the enriched rows: put in front of a certificate over these, they give one over the rows.
pub fn certificates()
    ensures makes { (rows : List PRow) → AreFit rows → Makes rows (source_steps rows) (enriched rows) }
    ensures good { (rows : List PRow) (steps : List Step) (k : Close) → AreFit rows → IsGood (enriched rows) (record { steps = steps; close = k })
        → IsGood rows (record { steps = source_steps rows ++ steps; close = k }) }
    ensures parts { (rows : List PRow) (steps : List Step) (k : Close) → MakesCert steps k → MakesCert (source_steps rows ++ steps) k }
    ensures depth { (rows : List PRow) (steps : List Step) (k : Close)
        → cert_depth (record { steps = source_steps rows ++ steps; close = k }) ≤ max 1 (cert_depth (record { steps = steps; close = k })) }
{}

/// Rows and enriched rows have the same integer solutions.
pub fn solutions()
    ensures { (x : ℕ → ℤ) (rows : List PRow) → AreFit rows → Solves x rows ↔ Solves x (enriched rows) }
{}

/// Square monomials are told in monomial order, each once, and no others than those that stand in the rows.
pub fn square_monomials()
    ensures rise { (rows : List PRow) → IsStrictlySortedBy mono_cmp (squares_of rows) }
    ensures same { (rows : List PRow) (test : List (ℕ × ℕ) → Bool) → list_any test (squares_of rows) ≡ list_any test (row_squares rows) }
{}
