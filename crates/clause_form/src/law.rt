ghost use Rattle.std.specs.Prelude.{◌≡◌, ℕ, ℤ, ◌↔◌, Any, Some, slice_get};
ghost use Rattle.std.specs.List.{AllByRecursion};
ghost use Rattle.std.specs.List.Sorted.{IsStrictlySortedBy};
ghost use Rattle.std.specs.Ordering.{nat_cmp};
ghost use Rattle.cert_kit.specs.Row.{Solves};
ghost use Rattle.zify.specs.declared.term.ZTerm.{ZTerm as Written};
ghost use Rattle.zify.specs.declared.goal.ZGoal.{ZGoal as Question};
ghost use Rattle.zify.specs.Truth.{IsValidTranslated};
ghost use Rattle.zify.specs.Measure.{measure_of};
ghost use Rattle.clause_form.specs.Polynomial.{poly_of, Within};
ghost use Rattle.clause_form.specs.declared.named.Named.{Named as ANamed};
ghost use Rattle.clause_form.specs.Clauses.{clauses_of, SolvedBy, GivesBack, IsNumbered, Refutes, AllUnsolvable};

/// The law of clauses: a point satisfies the hypotheses and not the body exactly where, renumbered, it solves one of the
/// clauses; so the goal is valid exactly where no clause has an integer solution.
pub fn refutation()
    ensures point { (z : Question) (x : ℕ → ℤ) → Refutes x z ↔ Any (SolvedBy x) (clauses_of z) }
    ensures valid { (z : Question) → IsValidTranslated z ↔ AllUnsolvable (clauses_of z) }
{}

/// The norm of a term's polynomial is at most the term's weight, its spread and degree at most the term's.
pub fn bounds()
    ensures { (t : Written) → Within (poly_of t) (measure_of t) }
{}

/// A point that gives the variables of a clause what a solution gives their numbers refutes the goal.
pub fn solutions()
    ensures { (z : Question) (x y : ℕ → ℤ) (k : ℕ) (n : ANamed) → slice_get (clauses_of z) k ≡ Some n → GivesBack n.vars y x → Solves y n.clause.rows → Refutes x z }
{}

/// The variables of a clause are numbered from 0 on, without a gap, in the order of the goal's.
pub fn numbering()
    ensures numbers { (z : Question) → AllByRecursion IsNumbered (clauses_of z) }
    ensures order { (z : Question) → AllByRecursion (λ (n : ANamed). IsStrictlySortedBy nat_cmp n.vars) (clauses_of z) }
{}
