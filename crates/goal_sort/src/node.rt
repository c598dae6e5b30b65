//! Nodes by their operands.

ghost use Rattle.std.specs.Prelude.{◌≡◌, ◌≤◌, [], ◌∷◌, length};
ghost use Rattle.goal_sort.specs.SortGiving.{GivesPlaced};
ghost use Rattle.goal_sort.specs.SortedNumbers.{two_numbers, arithmetic, comparison, test_of, called_2, two_truths, two_statements, unary_node, binary_node, by_node, chain_node};
ghost use Rattle.goal_sort.specs.Sorting.{node_of, written_minus, written_level, unary_at, binary_at, chain_at, one_operand, both_operands, left_operand, two_operands, three_operands};

use crate::fail::SortFail;
use crate::leaf::leaf_node;
use crate::operator::{
    Arithmetic, Binary, BoolOperator, ByLiteral, Connective, Unary, binary_of, by_literal_of,
    chain_of, unary_of,
};
use crate::parts::{number_of, numbers_of, statement_of, truth_of};
use crate::raw::{Head, RawBound, RawExpr};
use crate::statement::{chain, comparison, connected, equality, inequality, negated_formula};
use crate::term::{arithmetic, by_written, called_1, called_2, opposite};
use crate::truth::{both_bools, negated_bool, test_of};
use crate::value::{Sorted, Written};
use goal_ast::{BCmp, Cmp, Fn2};
use std::alloc::Global;

// A node with one operand.
#[tactic(auto, unfolding(crate::specs::SortedNumbers::unary_node))]
fn unary_node(alloc: Global, at: u64, op: Unary, a: Sorted) -> Result<Sorted, SortFail>
    ensures { GivesPlaced result (unary_node at op a) }
{
    match op {
        Unary::Minus => opposite(alloc, at, number_of(at, a)?),
        Unary::Not => Ok(negated_formula(alloc, statement_of(at, a)?)?),
        Unary::Call(f) => called_1(alloc, at, f, number_of(at, a)?),
        Unary::Negb => Ok(negated_bool(alloc, truth_of(at, a)?)?),
    }
}

#[tactic(auto, unfolding(crate::specs::SortedNumbers::two_truths))]
fn two_truths(
    alloc: Global,
    at: u64,
    op: BoolOperator,
    a: Sorted,
    b: Sorted,
) -> Result<Sorted, SortFail>
    ensures { GivesPlaced result (two_truths at op a b) }
{
    let a = truth_of(at, a)?;
    let b = truth_of(at, b)?;
    Ok(both_bools(alloc, op, a, b)?)
}

#[tactic(auto, unfolding(crate::specs::SortedNumbers::two_statements))]
fn two_statements(
    alloc: Global,
    at: u64,
    op: Connective,
    f: Sorted,
    g: Sorted,
) -> Result<Sorted, SortFail>
    ensures { GivesPlaced result (two_statements at op f g) }
{
    let f = statement_of(at, f)?;
    let g = statement_of(at, g)?;
    Ok(connected(alloc, op, f, g)?)
}

fn arithmetic_node(
    alloc: Global,
    at: u64,
    op: Arithmetic,
    a: Sorted,
    b: Sorted,
) -> Result<Sorted, SortFail>
    ensures { GivesPlaced result (two_numbers at a b (arithmetic at op)) }
{
    let (a, b) = numbers_of(at, a, b)?;
    arithmetic(alloc, at, op, a, b)
}

fn comparison_node(alloc: Global, at: u64, c: Cmp, a: Sorted, b: Sorted) -> Result<Sorted, SortFail>
    ensures { GivesPlaced result (two_numbers at a b (comparison at c)) }
{
    let (a, b) = numbers_of(at, a, b)?;
    comparison(alloc, at, c, a, b)
}

fn test_node(alloc: Global, at: u64, c: BCmp, a: Sorted, b: Sorted) -> Result<Sorted, SortFail>
    ensures { GivesPlaced result (two_numbers at a b (test_of at c)) }
{
    let (a, b) = numbers_of(at, a, b)?;
    test_of(alloc, at, c, a, b)
}

fn call_node(alloc: Global, at: u64, f: Fn2, a: Sorted, b: Sorted) -> Result<Sorted, SortFail>
    ensures { GivesPlaced result (two_numbers at a b (called_2 at f)) }
{
    let (a, b) = numbers_of(at, a, b)?;
    called_2(alloc, at, f, a, b)
}

// A node with two operands.
#[tactic(auto, unfolding(crate::specs::SortedNumbers::binary_node))]
fn binary_node(alloc: Global, at: u64, op: Binary, a: Sorted, b: Sorted) -> Result<Sorted, SortFail>
    ensures { GivesPlaced result (binary_node at op a b) }
{
    match op {
        Binary::Arithmetic(op) => arithmetic_node(alloc, at, op, a, b),
        Binary::Equal => equality(alloc, at, a, b),
        Binary::Differ => inequality(alloc, at, a, b),
        Binary::Compare(c) => comparison_node(alloc, at, c, a, b),
        Binary::Test(c) => test_node(alloc, at, c, a, b),
        Binary::Bool(op) => two_truths(alloc, at, op, a, b),
        Binary::Connect(op) => two_statements(alloc, at, op, a, b),
        Binary::Call(f) => call_node(alloc, at, f, a, b),
    }
}

// A node with an exponent or a divisor.
#[tactic(auto, unfolding(crate::specs::SortedNumbers::by_node))]
fn by_node(
    alloc: Global,
    at: u64,
    op: ByLiteral,
    a: Sorted,
    written: Written,
) -> Result<Sorted, SortFail>
    ensures { GivesPlaced result (by_node at op a written) }
{
    by_written(alloc, at, op, number_of(at, a)?, written)
}

// A node with three operands.
#[tactic(auto, unfolding(crate::specs::SortedNumbers::chain_node))]
fn chain_node(
    alloc: Global,
    at: u64,
    signs: (Cmp, Cmp),
    a: Sorted,
    b: Sorted,
    c: Sorted,
) -> Result<Sorted, SortFail>
    ensures { GivesPlaced result (chain_node at signs a b c) }
{
    let a = number_of(at, a)?;
    let b = number_of(at, b)?;
    let c = number_of(at, c)?;
    chain(alloc, at, signs, a, b, c)
}

#[tactic(auto, unfolding(crate::specs::Sorting::unary_at))]
fn unary_at(alloc: Global, at: u64, head: &Head, a: Sorted) -> Result<Sorted, SortFail>
    ensures { GivesPlaced result (unary_at at head.now a) }
{
    match unary_of(head) {
        Some(op) => unary_node(alloc, at, op, a),
        None => Err(SortFail::IllSorted { at }),
    }
}

#[tactic(auto, unfolding(crate::specs::Sorting::binary_at))]
fn binary_at(alloc: Global, at: u64, head: &Head, a: Sorted, b: Sorted) -> Result<Sorted, SortFail>
    ensures { GivesPlaced result (binary_at at head.now a b) }
{
    match binary_of(head) {
        Some(op) => binary_node(alloc, at, op, a, b),
        None => Err(SortFail::IllSorted { at }),
    }
}

#[tactic(auto, unfolding(crate::specs::Sorting::chain_at))]
fn chain_at(
    alloc: Global,
    at: u64,
    head: &Head,
    a: Sorted,
    b: Sorted,
    c: Sorted,
) -> Result<Sorted, SortFail>
    ensures { GivesPlaced result (chain_at at head.now a b c) }
{
    match chain_of(head) {
        Some(signs) => chain_node(alloc, at, signs, a, b, c),
        None => Err(SortFail::IllSorted { at }),
    }
}

fn written_minus(number: u8, written: Written) -> Written
    ensures { result ≡ written_minus number written }
{
    match written {
        Written::Literal(k) if number == 23 => Written::Negated(k),
        _ => Written::Other,
    }
}

fn written_leaf(head: &Head) -> Written
    ensures { result ≡ written_level head.now [] }
{
    match head {
        Head::Lit(n) => Written::Literal(*n),
        _ => Written::Other,
    }
}

fn written_before(head: &Head, written: Written) -> Written
    ensures { result ≡ written_level head.now (written ∷ []) }
{
    match head {
        Head::Prefix(number) => written_minus(*number, written),
        _ => Written::Other,
    }
}

// What a node is as an exponent or a divisor.
fn written(e: &RawExpr) -> Written
    ensures { result ≡ (node_of e.now).written }
{
    match e.parts.as_slice() {
        [] => written_leaf(&e.head),
        [a] => written_before(&e.head, written(a)),
        _ => Written::Other,
    }
}

// A node with one operand.
#[cycle(sorted)]
#[tactic(auto, unfolding(crate::specs::Sorting::one_operand))]
fn one_operand(
    alloc: Global,
    bound: &[RawBound],
    at: u64,
    head: &Head,
    a: &RawExpr,
) -> Result<Sorted, SortFail>
    requires { length bound.now ≤ 256 }
    ensures { GivesPlaced result (one_operand bound.now at head.now (node_of a.now)) }
{
    let a = sorted(alloc, bound, a)?;
    unary_at(alloc, at, head, a)
}

// A node with two operands that have sorts.
#[cycle(sorted)]
#[tactic(auto, unfolding(crate::specs::Sorting::both_operands))]
fn both_operands(
    alloc: Global,
    bound: &[RawBound],
    at: u64,
    head: &Head,
    a: &RawExpr,
    b: &RawExpr,
) -> Result<Sorted, SortFail>
    requires { length bound.now ≤ 256 }
    ensures { GivesPlaced result (both_operands bound.now at head.now (node_of a.now) (node_of b.now)) }
{
    let a = sorted(alloc, bound, a)?;
    let b = sorted(alloc, bound, b)?;
    binary_at(alloc, at, head, a, b)
}

// A node with an exponent or a divisor on its right.
#[cycle(sorted)]
#[tactic(auto, unfolding(crate::specs::Sorting::left_operand))]
fn left_operand(
    alloc: Global,
    bound: &[RawBound],
    at: u64,
    op: ByLiteral,
    a: &RawExpr,
    b: &RawExpr,
) -> Result<Sorted, SortFail>
    requires { length bound.now ≤ 256 }
    ensures { GivesPlaced result (left_operand bound.now at op (node_of a.now) (node_of b.now)) }
{
    let a = sorted(alloc, bound, a)?;
    by_node(alloc, at, op, a, written(b))
}

// A node with two operands.
#[cycle(sorted)]
#[tactic(auto, unfolding(crate::specs::Sorting::two_operands))]
fn two_operands(
    alloc: Global,
    bound: &[RawBound],
    at: u64,
    head: &Head,
    a: &RawExpr,
    b: &RawExpr,
) -> Result<Sorted, SortFail>
    requires { length bound.now ≤ 256 }
    ensures { GivesPlaced result (two_operands bound.now at head.now (node_of a.now) (node_of b.now)) }
{
    match by_literal_of(head) {
        Some(op) => left_operand(alloc, bound, at, op, a, b),
        None => both_operands(alloc, bound, at, head, a, b),
    }
}

// A node with three operands.
#[cycle(sorted)]
#[tactic(auto, unfolding(crate::specs::Sorting::three_operands))]
fn three_operands(
    alloc: Global,
    bound: &[RawBound],
    at: u64,
    head: &Head,
    a: &RawExpr,
    b: &RawExpr,
    c: &RawExpr,
) -> Result<Sorted, SortFail>
    requires { length bound.now ≤ 256 }
    ensures { GivesPlaced result (three_operands bound.now at head.now (node_of a.now) (node_of b.now) (node_of c.now)) }
{
    let a = sorted(alloc, bound, a)?;
    let b = sorted(alloc, bound, b)?;
    let c = sorted(alloc, bound, c)?;
    chain_at(alloc, at, head, a, b, c)
}

/// What an expression is, over these bound names.
#[cycle(sorted)]
pub fn sorted(alloc: Global, bound: &[RawBound], e: &RawExpr) -> Result<Sorted, SortFail>
    requires { length bound.now ≤ 256 }
    ensures { GivesPlaced result ((node_of e.now).sorted bound.now) }
{
    match e.parts.as_slice() {
        [] => leaf_node(bound, e.at, &e.head),
        [a] => one_operand(alloc, bound, e.at, &e.head, a),
        [a, b] => two_operands(alloc, bound, e.at, &e.head, a, b),
        [a, b, c] => three_operands(alloc, bound, e.at, &e.head, a, b, c),
        _ => Err(SortFail::IllSorted { at: e.at }),
    }
}
