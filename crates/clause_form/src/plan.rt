ghost use Rattle.std.specs.Prelude.{◌≡◌, map, reverse, All, IfOk};
ghost use Rattle.goal_measure.specs.Measure.{of_atom};
ghost use Rattle.zify.specs.declared.form.ZForm.{ZForm as Form};
ghost use Rattle.zify.specs.Measure.{measure_of, greatest_in, IsWithinLimits as GoalWithinLimits};
ghost use Rattle.clause_form.specs.Polynomial.{IsWithinLimits};
ghost use Rattle.clause_form.specs.Alternatives.{comparison, opposite, ComparisonHasRoom};
ghost use Rattle.clause_form.specs.machine.Tally.{of_comparison};
ghost use Rattle.clause_form.specs.machine.Plan.{planned, right_plan, made_by, made_constant, made_atom, made_not, made_both, made_same, made, made_part, made_parts, made_goal};

use crate::poly::polynomial;
use crate::row::comparison;
use crate::tally::Tally;
use cert_kit::PRow;
use goal_ast::Cmp;
use mm_poly::Poly;
use sqlite_items::{Boxed, Items};
use std::alloc::{AllocError, Global};
use zify::{ZForm, ZGoal, ZTerm};

// A formula with its atoms' rows, and beside each part how many alternatives it has.
#[derive(Debug, Drop)]
pub(crate) enum Plan {
    Constant(bool),
    // The rows of a comparison and of its opposite, each an alternative by itself.
    Rows(Items<PRow>, Items<PRow>),
    Not(Boxed<Plan>),
    Both(Tally, Tally, Boxed<Plan>, Boxed<Plan>),
    Same(Tally, Tally, Boxed<Plan>, Boxed<Plan>),
}

// A plan and how many alternatives it has.
#[derive(Debug, Drop)]
pub(crate) struct Counted {
    pub tally: Tally,
    pub plan: Boxed<Plan>,
}

// The plan of a hypothesis or of what is not the body, and how many alternatives all that comes after it has.
#[derive(Debug, Drop)]
pub(crate) struct Part {
    pub plan: Boxed<Plan>,
    pub others: u64,
}

// The plan of a formula whose atoms are within the limits.
#[tactic(auto, using(crate::proofs::PlanLaws::first_within, crate::proofs::PlanLaws::second_within))]
pub(crate) fn plan_of(alloc: Global, form: &ZForm) -> Result<Counted, AllocError>
    requires { IsWithinLimits (greatest_in form.now) }
    ensures { IfOk result (λ c. made_by c ≡ made form.now) }
{
    match form {
        ZForm::True => constant(alloc, true),
        ZForm::False => constant(alloc, false),
        ZForm::Atom(cmp, t, u) => atom(alloc, *cmp, t.get(), u.get()),
        ZForm::Not(f) => negation(alloc, plan_of(alloc, f.get())?),
        ZForm::And(f, g) => {
            let first = plan_of(alloc, f.get())?;
            let second = plan_of(alloc, g.get())?;
            both(alloc, first, second)
        }
        ZForm::Or(f, g) => {
            let first = plan_of(alloc, f.get())?;
            let second = plan_of(alloc, g.get())?;
            either(alloc, first, second)
        }
        ZForm::Imp(f, g) => {
            let first = plan_of(alloc, f.get())?;
            let second = plan_of(alloc, g.get())?;
            implication(alloc, first, second)
        }
        ZForm::Iff(f, g) => {
            let first = plan_of(alloc, f.get())?;
            let second = plan_of(alloc, g.get())?;
            equivalence(alloc, first, second)
        }
    }
}

// The plans of the hypotheses of a goal, and last of what is not its body.
#[tactic(auto, using(crate::proofs::GoalPlanLaws::body_within, crate::proofs::GoalPlanLaws::hypotheses_within))]
pub(crate) fn parts_of(alloc: Global, goal: &ZGoal) -> Result<Vec<Part>, AllocError>
    requires { GoalWithinLimits goal.now }
    ensures { IfOk result (λ parts. map made_part parts.items ≡ made_goal goal.now) }
{
    let body = plan_of(alloc, &goal.body)?;
    let last = negation(alloc, body)?;
    let mut parts = parts_back(alloc, goal.hyps.as_slice(), last)?;
    parts.reverse();
    Ok(parts)
}

// The last part and the hypotheses, from the last one on.
fn parts_back(alloc: Global, hyps: &[ZForm], last: Counted) -> Result<Vec<Part>, AllocError>
    requires { All (λ (h : Form). IsWithinLimits (greatest_in h)) hyps.now }
    ensures { IfOk result (λ parts. map made_part (reverse parts.items) ≡ made_parts hyps.now (made_by last)) }
{
    let mut parts = Vec::with_capacity(alloc, hyps.len().saturating_add(1))?;
    let mut others = last.tally.holds;
    parts.push(Part {
        plan: last.plan,
        others: 1,
    })?;
    for n in (0..hyps.len()).rev() {
        let hyp = plan_of(alloc, &hyps[n])?;
        parts.push(Part {
            plan: hyp.plan,
            others,
        })?;
        others = others.saturating_mul(hyp.tally.holds);
    }
    Ok(parts)
}

fn constant(alloc: Global, value: bool) -> Result<Counted, AllocError>
    ensures { IfOk result (λ c. made_by c ≡ made_constant value) }
{
    let tally = if value {
        Tally { holds: 1, fails: 0 }
    } else {
        Tally { holds: 0, fails: 1 }
    };
    Ok(Counted {
        tally,
        plan: Boxed::new(alloc, Plan::Constant(value))?,
    })
}

#[tactic(auto, using(crate::proofs::PlanLaws::left_within, crate::proofs::PlanLaws::right_within, crate::proofs::PlanLaws::atom_room))]
fn atom(alloc: Global, cmp: Cmp, left: &ZTerm, right: &ZTerm) -> Result<Counted, AllocError>
    requires { IsWithinLimits (of_atom (measure_of left.now) (measure_of right.now)) }
    ensures { IfOk result (λ c. made_by c ≡ made_atom cmp left.now right.now) }
{
    let left = polynomial(alloc, left)?;
    let right = polynomial(alloc, right)?;
    rows(alloc, cmp, &left, &right)
}

fn rows(alloc: Global, cmp: Cmp, left: &Poly, right: &Poly) -> Result<Counted, AllocError>
    requires { ComparisonHasRoom left.now right.now }
    ensures tally { IfOk result (λ c. c.tally ≡ of_comparison cmp) }
    ensures plan { IfOk result (λ c. planned c.plan ≡ right_plan (record { holds = comparison cmp left.now right.now; fails = comparison (opposite cmp) left.now right.now })) }
{
    let holds = comparison(alloc, cmp, left, right)?;
    let fails = comparison(alloc, opposite(cmp), left, right)?;
    let plan = Plan::Rows(Items::from_vec(holds), Items::from_vec(fails));
    Ok(Counted {
        tally: Tally::of_comparison(cmp),
        plan: Boxed::new(alloc, plan)?,
    })
}

fn negation(alloc: Global, part: Counted) -> Result<Counted, AllocError>
    ensures { IfOk result (λ c. made_by c ≡ made_not (made_by part)) }
{
    Ok(Counted {
        tally: part.tally.negated(),
        plan: Boxed::new(alloc, Plan::Not(part.plan))?,
    })
}

fn both(alloc: Global, first: Counted, second: Counted) -> Result<Counted, AllocError>
    ensures { IfOk result (λ c. made_by c ≡ made_both (made_by first) (made_by second)) }
{
    let plan = Plan::Both(first.tally, second.tally, first.plan, second.plan);
    Ok(Counted {
        tally: first.tally.and(second.tally),
        plan: Boxed::new(alloc, plan)?,
    })
}

fn either(alloc: Global, first: Counted, second: Counted) -> Result<Counted, AllocError>
    ensures { IfOk result (λ c. made_by c ≡ made_not (made_both (made_not (made_by first)) (made_not (made_by second)))) }
{
    let first = negation(alloc, first)?;
    let second = negation(alloc, second)?;
    negation(alloc, both(alloc, first, second)?)
}

fn implication(alloc: Global, first: Counted, second: Counted) -> Result<Counted, AllocError>
    ensures { IfOk result (λ c. made_by c ≡ made_not (made_both (made_by first) (made_not (made_by second)))) }
{
    let second = negation(alloc, second)?;
    negation(alloc, both(alloc, first, second)?)
}

fn equivalence(alloc: Global, first: Counted, second: Counted) -> Result<Counted, AllocError>
    ensures { IfOk result (λ c. made_by c ≡ made_same (made_by first) (made_by second)) }
{
    let plan = Plan::Same(first.tally, second.tally, first.plan, second.plan);
    Ok(Counted {
        tally: first.tally.same(second.tally),
        plan: Boxed::new(alloc, plan)?,
    })
}

// The opposite comparison.
fn opposite(cmp: Cmp) -> Cmp
    ensures { result ≡ opposite cmp }
{
    match cmp {
        Cmp::Eq => Cmp::Ne,
        Cmp::Ne => Cmp::Eq,
        Cmp::Lt => Cmp::Ge,
        Cmp::Le => Cmp::Gt,
        Cmp::Gt => Cmp::Le,
        Cmp::Ge => Cmp::Lt,
    }
}
