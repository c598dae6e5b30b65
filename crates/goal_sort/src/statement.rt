//! Nodes that are formulas.

ghost use Rattle.std.specs.Prelude.{◌≡◌, IfOk};
ghost use Rattle.goal_sort.specs.SortGiving.{GivesPlaced};
ghost use Rattle.goal_sort.specs.SortedNumbers.{a_statement, comparison, equal_bools, different_bools, equality, inequality, connected_formula, connected, negated_formula, chain};

use crate::fail::SortFail;
use crate::number::{all_joined, compared_zero, first, joined};
use crate::operator::Connective;
use crate::parts::{number_of, truth_of};
use crate::value::{Number, Sorted, Statement, Truth};
use goal_ast::{Cmp, Formula};
use std::alloc::{AllocError, Global};

/// A formula.
pub fn a_statement(formula: Formula, zero: Option<u64>) -> Sorted
    ensures { result ≡ a_statement formula zero }
{
    Sorted::Statement(Statement { formula, zero })
}

/// A comparison of numbers.
#[tactic(auto, unfolding(crate::specs::SortedNumbers::comparison))]
pub fn comparison(alloc: Global, at: u64, c: Cmp, a: Number, b: Number) -> Result<Sorted, SortFail>
    ensures { GivesPlaced result (comparison at c a b) }
{
    let pair = joined(alloc, at, a, b)?;
    let zero = compared_zero(pair.sort, pair.zero);
    let formula = Formula::atom(alloc, c, pair.left, pair.right)?;
    Ok(a_statement(formula, zero))
}

fn equal_bools(alloc: Global, a: Truth, b: Truth) -> Result<Sorted, AllocError>
    ensures { IfOk result (λ made. made ≡ equal_bools a b) }
{
    let zero = first(a.zero, b.zero);
    Ok(a_statement(Formula::same(alloc, a.term, b.term)?, zero))
}

fn different_bools(alloc: Global, a: Truth, b: Truth) -> Result<Sorted, AllocError>
    ensures { IfOk result (λ made. made ≡ different_bools a b) }
{
    let zero = first(a.zero, b.zero);
    Ok(a_statement(Formula::differ(alloc, a.term, b.term)?, zero))
}

/// `=` of two numbers or two bools.
#[tactic(auto, unfolding(crate::specs::SortedNumbers::equality))]
pub fn equality(alloc: Global, at: u64, a: Sorted, b: Sorted) -> Result<Sorted, SortFail>
    ensures { GivesPlaced result (equality at a b) }
{
    match a {
        Sorted::Number(a) => comparison(alloc, at, Cmp::Eq, a, number_of(at, b)?),
        Sorted::Truth(a) => Ok(equal_bools(alloc, a, truth_of(at, b)?)?),
        Sorted::Statement(_) => Err(SortFail::IllSorted { at }),
    }
}

/// `<>` of two numbers or two bools.
#[tactic(auto, unfolding(crate::specs::SortedNumbers::inequality))]
pub fn inequality(alloc: Global, at: u64, a: Sorted, b: Sorted) -> Result<Sorted, SortFail>
    ensures { GivesPlaced result (inequality at a b) }
{
    match a {
        Sorted::Number(a) => comparison(alloc, at, Cmp::Ne, a, number_of(at, b)?),
        Sorted::Truth(a) => Ok(different_bools(alloc, a, truth_of(at, b)?)?),
        Sorted::Statement(_) => Err(SortFail::IllSorted { at }),
    }
}

fn connected_formula(
    alloc: Global,
    op: Connective,
    f: Formula,
    g: Formula,
) -> Result<Formula, AllocError>
    ensures { IfOk result (λ made. made ≡ connected_formula op f g) }
{
    match op {
        Connective::And => Formula::conjunction(alloc, f, g),
        Connective::Or => Formula::disjunction(alloc, f, g),
        Connective::Imp => Formula::implication(alloc, f, g),
        Connective::Iff => Formula::equivalence(alloc, f, g),
    }
}

/// Two formulas that are joined to one.
pub fn connected(
    alloc: Global,
    op: Connective,
    f: Statement,
    g: Statement,
) -> Result<Sorted, AllocError>
    ensures { IfOk result (λ made. made ≡ connected op f g) }
{
    let zero = first(f.zero, g.zero);
    let formula = connected_formula(alloc, op, f.formula, g.formula)?;
    Ok(a_statement(formula, zero))
}

/// `~`.
pub fn negated_formula(alloc: Global, f: Statement) -> Result<Sorted, AllocError>
    ensures { IfOk result (λ made. made ≡ negated_formula f) }
{
    Ok(a_statement(Formula::negation(alloc, f.formula)?, f.zero))
}

/// Two comparisons that share their middle.
#[tactic(auto, unfolding(crate::specs::SortedNumbers::chain))]
pub fn chain(
    alloc: Global,
    at: u64,
    signs: (Cmp, Cmp),
    a: Number,
    b: Number,
    c: Number,
) -> Result<Sorted, SortFail>
    ensures { GivesPlaced result (chain at signs a b c) }
{
    let (first, second) = signs;
    let all = all_joined(alloc, at, a, b, c)?;
    let formula = Formula::chain(alloc, all.left, first, all.middle, second, all.right)?;
    Ok(a_statement(formula, all.zero))
}
