ghost use Rattle.std.specs.Prelude.{◌≡◌, ◌^◌, ◌-◌, ◌*◌, min, length};
ghost use Rattle.clause_form.specs.Alternatives.{sides_of};
ghost use Rattle.clause_form.specs.Clauses.{number_of};
ghost use Rattle.clause_form.specs.machine.Tally.{joint_number, tally_of, of_both, of_same, of_comparison, negated};

use goal_ast::Cmp;
use zify::{ZForm, ZGoal};

/// How many alternatives a formula and its negation have. A number of more than `u64::MAX` is given as that.
#[derive(Clone, Copy, Debug, PartialEq, Eq)]
pub struct Tally {
    /// The alternatives of the formula.
    pub holds: u64,
    /// Those of its negation.
    pub fails: u64,
}

/// Counts the alternatives of a formula and of its negation.
#[tactic(auto, using(crate::proofs::TallyLaws::holds_tallied, crate::proofs::TallyLaws::fails_tallied))]
pub fn count(form: &ZForm) -> Tally
    ensures holds { result.holds ≡ min (length (sides_of form.now).holds) (2 ^ 64 - 1) }
    ensures fails { result.fails ≡ min (length (sides_of form.now).fails) (2 ^ 64 - 1) }
{
    counted(form)
}

/// Counts the clauses of a goal. A number of more than `u64::MAX` is given as that.
#[tactic(auto, using(crate::proofs::TallyLaws::goal_counted))]
pub fn count_clauses(goal: &ZGoal) -> u64
    ensures { result ≡ number_of goal.now }
{
    with_hypotheses(count(&goal.body).fails, goal.hyps.as_slice())
}

// Each alternative of each hypothesis with so many others.
#[tactic(auto, using(crate::proofs::TallyLaws::joint_step))]
fn with_hypotheses(others: u64, hyps: &[ZForm]) -> u64
    ensures { result ≡ min (others * joint_number hyps.now) (2 ^ 64 - 1) }
{
    let mut number = others;
    for hyp in hyps {
        number = number.saturating_mul(count(hyp).holds);
    }
    number
}

fn counted(form: &ZForm) -> Tally
    ensures { result ≡ tally_of form.now }
{
    match form {
        ZForm::True => Tally { holds: 1, fails: 0 },
        ZForm::False => Tally { holds: 0, fails: 1 },
        ZForm::Atom(cmp, _, _) => Tally::of_comparison(*cmp),
        ZForm::Not(f) => counted(f.get()).negated(),
        ZForm::And(f, g) => counted(f.get()).and(counted(g.get())),
        ZForm::Or(f, g) => {
            let both = counted(f.get()).negated().and(counted(g.get()).negated());
            both.negated()
        }
        ZForm::Imp(f, g) => counted(f.get()).and(counted(g.get()).negated()).negated(),
        ZForm::Iff(f, g) => counted(f.get()).same(counted(g.get())),
    }
}

impl Tally {
    // Those of a comparison.
    pub(crate) fn of_comparison(cmp: Cmp) -> Tally
        ensures { result ≡ of_comparison cmp }
    {
        match cmp {
            Cmp::Eq => Tally { holds: 1, fails: 2 },
            Cmp::Ne => Tally { holds: 2, fails: 1 },
            Cmp::Lt | Cmp::Le | Cmp::Gt | Cmp::Ge => Tally { holds: 1, fails: 1 },
        }
    }

    // Those of the negation.
    pub(crate) fn negated(self) -> Tally
        ensures { result ≡ negated self }
    {
        Tally {
            holds: self.fails,
            fails: self.holds,
        }
    }

    // Those of a conjunction: each alternative of one with each of the other.
    pub(crate) fn and(self, other: Tally) -> Tally
        ensures { result ≡ of_both self other }
    {
        Tally {
            holds: self.holds.saturating_mul(other.holds),
            fails: self.fails.saturating_add(other.fails),
        }
    }

    // Those of an equivalence.
    pub(crate) fn same(self, other: Tally) -> Tally
        ensures { result ≡ of_same self other }
    {
        let both = self.holds.saturating_mul(other.holds);
        let neither = self.fails.saturating_mul(other.fails);
        let first = self.holds.saturating_mul(other.fails);
        let second = self.fails.saturating_mul(other.holds);
        Tally {
            holds: both.saturating_add(neither),
            fails: first.saturating_add(second),
        }
    }
}
