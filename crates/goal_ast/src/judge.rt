ghost use Rattle.std.specs.Prelude.{◌≡◌, ◌↔◌, IsTrue, length};
ghost use Rattle.goal_ast.specs.Range.{IsInRange, point_of};
ghost use Rattle.goal_ast.specs.Sorted.{IsWellFormed};
ghost use Rattle.goal_ast.specs.Fitting.{all_fit, fits_bound, is_in_sort};
ghost use Rattle.goal_ast.specs.Truth.{Holds};
ghost use Rattle.goal_ast.specs.Evaluation.{answer, eval_of, IsAllSmall};

use crate::arithmetic::is_small;
use crate::evaluate::truth;
use crate::goal::{Assignment, Bound, Goal};
use crate::term::Sort;
use crate::types::Eval;

// Whether a sort has a number.
fn has_number(sort: Sort, z: i128) -> bool
    ensures { result ≡ is_in_sort sort z }
{
    match sort {
        Sort::Int => true,
        Sort::Bin | Sort::Nat => z >= 0,
        Sort::Pos => z >= 1,
        Sort::Bool => z >= 0 && z <= 1,
    }
}

fn fits(bound: &Bound, z: i128) -> bool
    ensures { result ≡ fits_bound bound.now z }
{
    is_small(z) && has_number(bound.sort, z)
}

fn do_all_fit(vars: &[Bound], values: &[i128]) -> bool
    requires { length values.now ≡ length vars.now }
    ensures { result ≡ all_fit vars.now values.now }
{
    for at in 0..vars.len() {
        if !fits(&vars[at], values[at]) {
            return false;
        }
    }
    true
}

/// Whether the assignment has one value for each variable, each of a magnitude below 2^126 and of its variable's
/// sort.
#[tactic(auto, using(crate::proofs::FittingLaws::in_range_is, crate::proofs::FittingLaws::in_range_test))]
pub fn in_range(goal: &Goal, a: &Assignment) -> bool
    ensures { IsTrue result ↔ IsInRange goal.now a.now }
{
    a.values.len() == goal.vars.len() && do_all_fit(goal.vars.as_slice(), a.values.as_slice())
}

/// What the goal's body is at the assignment: whether it holds over unbounded integers, where the value of each
/// subterm has a magnitude below 2^126, and else `Big`, also where the result doesn't depend on that subterm.
#[tactic(auto, using(crate::proofs::SortedLaws::goal_fits))]
pub fn eval(goal: &Goal, a: &Assignment) -> Eval
    requires well_formed { IsWellFormed goal.now }
    requires in_range { IsInRange goal.now a.now }
    ensures value { result ≡ eval_of (point_of a.now.values) goal.now.body }
    ensures big { (result ≡ Eval.Big) ↔ (IsAllSmall (point_of a.now.values) goal.now.body → ⊥) }
    ensures holds { (result ≡ Eval.True) ↔ (IsAllSmall (point_of a.now.values) goal.now.body × Holds (point_of a.now.values) goal.now.body) }
    ensures fails { (result ≡ Eval.False) ↔ (IsAllSmall (point_of a.now.values) goal.now.body × (Holds (point_of a.now.values) goal.now.body → ⊥)) }
{
    answer_of(truth(&goal.body, a.values.as_slice()))
}

pub(crate) fn answer_of(found: Option<bool>) -> Eval
    ensures { result ≡ answer found }
{
    match found {
        Some(true) => Eval::True,
        Some(false) => Eval::False,
        None => Eval::Big,
    }
}
