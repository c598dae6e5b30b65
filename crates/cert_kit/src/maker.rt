//! The laws for those who make certificates: none of them needs a look at the walk of the rules.

ghost use Rattle.std.specs.Prelude.{◌≡◌, ◌↔◌, ◌≤◌, ℕ, ℤ, List, [], ◌∷◌, ◌++◌, length, true, ◌&&◌, Option, Some, slice_get};
ghost use Rattle.std.specs.Option.{option_map_or};
ghost use Rattle.std.specs.List.{AllByRecursion};
ghost use Rattle.mm_num.specs.Option.{◌>>=◌ as ◌>>>◌};
ghost use Rattle.mm_poly.specs.declared.term.Term.{Term};
ghost use Rattle.mm_poly.specs.Poly.{norm, spread, degree, IsPoly, Fits, times};
ghost use Rattle.cert_kit.specs.declared.row.PRow.{PRow};
ghost use Rattle.cert_kit.specs.declared.cert.Psatz.{Psatz as Expression};
ghost use Rattle.cert_kit.specs.declared.cert.Psatz.TheVariants.{Hyp, Square, MulPoly, Mul, Add, Const, Zero};
ghost use Rattle.cert_kit.specs.declared.cert.Step.{Step as AStep};
ghost use Rattle.cert_kit.specs.declared.cert.Step.TheVariants.{Rat, Cut};
ghost use Rattle.cert_kit.specs.declared.cert.Cert.{Cert as Certificate};
ghost use Rattle.cert_kit.specs.declared.cert.Close.{Close as AClose};
ghost use Rattle.cert_kit.specs.declared.cert.Close.TheVariants.{Done, Split, Enum};
ghost use Rattle.cert_kit.specs.Row.{Holds, is_false};
ghost use Rattle.cert_kit.specs.Cut.{cut_of};
ghost use Rattle.cert_kit.specs.Meaning.{meaning, measure, measure_of, own_bounds, no_bounds, product_bounds, sum_bounds, constant_bounds, are_within, product_row, sum_row, multiple_row, constant_row, at_least_0, equal_to_0};
ghost use Rattle.cert_kit.specs.Acceptance.{with_row, ends_false, below_0, below_bounds, Range, range_of, values_of, IsGood};
ghost use Rattle.cert_kit.specs.Making.{ends, Makes, AreGood, numbers_of, renumbered};

/// What each form of expression means.
pub fn meanings()
    ensures hyp { (n : ℕ) (rows : List PRow) → meaning (Hyp n) rows ≡ slice_get rows n }
    ensures square { (p : List Term) (rows : List PRow) → meaning (Square p) rows ≡ Some (at_least_0 (times p p)) }
    ensures mulp { (p : List Term) (e : Expression) (rows : List PRow) → meaning (MulPoly p e) rows ≡ (meaning e rows >>> λ r. multiple_row p r.op r.poly) }
    ensures mul { (e f : Expression) (rows : List PRow) → meaning (Mul e f) rows ≡ (meaning e rows >>> λ r. meaning f rows >>> λ s. Some (product_row r s)) }
    ensures add { (e f : Expression) (rows : List PRow) → meaning (Add e f) rows ≡ (meaning e rows >>> λ r. meaning f rows >>> λ s. Some (sum_row r s)) }
    ensures constant { (c : ℤ) (rows : List PRow) → meaning (Const c) rows ≡ constant_row c }
    ensures zero { (rows : List PRow) → meaning Zero rows ≡ Some (equal_to_0 []) }
{}

/// The bounds of each form of expression, and whether all its nodes are within the limits.
pub fn measures()
    ensures hyp { (n : ℕ) (rows : List PRow) → measure (Hyp n) rows ≡ measure_of (option_map_or (λ (r : PRow). own_bounds r.poly) (slice_get rows n) no_bounds) true }
    ensures square { (p : List Term) (rows : List PRow) → measure (Square p) rows ≡ measure_of (product_bounds (own_bounds p) (own_bounds p)) true }
    ensures mulp { (p : List Term) (e : Expression) (rows : List PRow) → measure (MulPoly p e) rows ≡ measure_of (product_bounds (own_bounds p) (measure e rows).bounds) (measure e rows).within }
    ensures mul { (e f : Expression) (rows : List PRow) → measure (Mul e f) rows ≡ measure_of (product_bounds (measure e rows).bounds (measure f rows).bounds) ((measure e rows).within && (measure f rows).within) }
    ensures add { (e f : Expression) (rows : List PRow) → measure (Add e f) rows ≡ measure_of (sum_bounds (measure e rows).bounds (measure f rows).bounds) ((measure e rows).within && (measure f rows).within) }
    ensures constant { (c : ℤ) (rows : List PRow) → measure (Const c) rows ≡ measure_of (constant_bounds c) true }
    ensures zero { (rows : List PRow) → measure Zero rows ≡ measure_of no_bounds true }
{}

/// Steps make rows one after another.
pub fn steps_make_rows()
    ensures none { (rows : List PRow) → Makes rows [] rows }
    ensures rat { (rows : List PRow) (e : Expression) (r : PRow) → meaning e rows ≡ Some r → (measure e rows).within ≡ true → Makes rows (Rat e ∷ []) (with_row rows r) }
    ensures cut { (rows : List PRow) (e : Expression) (r : PRow) → meaning e rows ≡ Some r → (measure e rows).within ≡ true → Makes rows (Cut e ∷ []) (with_row rows (cut_of r)) }
    ensures both { (given rows after : List PRow) (s t : List AStep) → Makes given s rows → Makes rows t after → Makes given (s ++ t) after }
{}

/// A certificate is good where its steps make rows over which its close is good.
pub fn closes_are_good()
    ensures ends { (rows : List PRow) (r : PRow) → ends_false (with_row rows r) ≡ is_false r }
    ensures done { (given rows : List PRow) (steps : List AStep) → Makes given steps rows → ends_false rows ≡ true → IsGood given (record { steps = steps; close = Done }) }
    ensures split { (given rows : List PRow) (steps : List AStep) (p : List Term) (c d : Certificate) → Makes given steps rows
        → are_within (own_bounds p) ≡ true → are_within (below_bounds p) ≡ true
        → IsGood (with_row rows (at_least_0 p)) c → IsGood (with_row rows (at_least_0 (below_0 p))) d
        → IsGood given (record { steps = steps; close = Split p c d }) }
    ensures enumeration { (given rows : List PRow) (steps : List AStep) (e f : Expression) (r s : PRow) (found : Range) (cs : List Certificate) → Makes given steps rows
        → meaning e rows ≡ Some r → meaning f rows ≡ Some s → range_of r s ≡ Some found → length cs ≡ values_of found
        → (measure e rows).within ≡ true → (measure f rows).within ≡ true → AreGood found.poly found.low cs rows
        → IsGood given (record { steps = steps; close = Enum (ends e f) cs }) }
    ensures after { (given rows : List PRow) (first steps : List AStep) (k : AClose) → Makes given first rows → IsGood rows (record { steps = steps; close = k })
        → IsGood given (record { steps = first ++ steps; close = k }) }
{}

/// More rows behind, and other numbers for the same rows, keep what an expression means and its bounds.
pub fn rows_may_be_renumbered()
    ensures appended { (e : Expression) (rows more : List PRow) (r : PRow) → meaning e rows ≡ Some r
        → (meaning e (rows ++ more) ≡ Some r) × (measure e (rows ++ more) ≡ measure e rows) }
    ensures renumbered { (e : Expression) (rows out : List PRow) (f : ℕ → ℕ) → AllByRecursion (λ n. slice_get out (f n) ≡ slice_get rows n) (numbers_of e)
        → (meaning (renumbered f e) out ≡ meaning e rows) × (measure (renumbered f e) out ≡ measure e rows) }
{}

/// A row and its cut have the same integer solutions.
pub fn cuts_keep_solutions()
    ensures { (x : ℕ → ℤ) (r : PRow) → Holds x r ↔ Holds x (cut_of r) }
{}

/// A cut is its own cut, and its norm, spread and degree are at most the row's.
pub fn cuts_of_cuts()
    ensures same { (r : PRow) → Fits r.poly → cut_of (cut_of r) ≡ cut_of r }
    ensures norm { (r : PRow) → IsPoly r.poly → norm (cut_of r).poly ≤ norm r.poly }
    ensures spread { (r : PRow) → IsPoly r.poly → spread (cut_of r).poly ≤ spread r.poly }
    ensures degree { (r : PRow) → IsPoly r.poly → degree (cut_of r).poly ≤ degree r.poly }
{}
