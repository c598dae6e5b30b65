//! Nodes that are bools.

ghost use Rattle.std.specs.Prelude.{◌≡◌, IfOk};
ghost use Rattle.goal_sort.specs.SortGiving.{GivesPlaced};
ghost use Rattle.goal_sort.specs.SortedNumbers.{a_truth, test_of, bool_term, both_bools, negated_bool};

use crate::fail::SortFail;
use crate::number::{compared_zero, first, joined};
use crate::operator::BoolOperator;
use crate::value::{Number, Sorted, Truth};
use goal_ast::{BCmp, BTerm};
use std::alloc::{AllocError, Global};

/// A bool.
pub fn a_truth(term: BTerm, zero: Option<u64>) -> Sorted
    ensures { result ≡ a_truth term zero }
{
    Sorted::Truth(Truth { term, zero })
}

/// A comparison that is a bool.
#[tactic(auto, unfolding(crate::specs::SortedNumbers::test_of))]
pub fn test_of(alloc: Global, at: u64, c: BCmp, a: Number, b: Number) -> Result<Sorted, SortFail>
    ensures { GivesPlaced result (test_of at c a b) }
{
    let pair = joined(alloc, at, a, b)?;
    let zero = compared_zero(pair.sort, pair.zero);
    let term = BTerm::test(alloc, c, pair.left, pair.right)?;
    Ok(a_truth(term, zero))
}

fn bool_term(alloc: Global, op: BoolOperator, a: BTerm, b: BTerm) -> Result<BTerm, AllocError>
    ensures { IfOk result (λ made. made ≡ bool_term op a b) }
{
    match op {
        BoolOperator::And => BTerm::conjunction(alloc, a, b),
        BoolOperator::Or => BTerm::disjunction(alloc, a, b),
        BoolOperator::Call(f) => BTerm::call(alloc, f, a, b),
    }
}

/// Two bools that are joined to one.
pub fn both_bools(alloc: Global, op: BoolOperator, a: Truth, b: Truth) -> Result<Sorted, AllocError>
    ensures { IfOk result (λ made. made ≡ both_bools op a b) }
{
    let zero = first(a.zero, b.zero);
    Ok(a_truth(bool_term(alloc, op, a.term, b.term)?, zero))
}

/// `negb`.
pub fn negated_bool(alloc: Global, a: Truth) -> Result<Sorted, AllocError>
    ensures { IfOk result (λ made. made ≡ negated_bool a) }
{
    Ok(a_truth(BTerm::negation(alloc, a.term)?, a.zero))
}
