//! Nodes that are numbers.

ghost use Rattle.std.specs.Prelude.{◌≡◌, ◌≤ℤ◌, pos, IsTrue, IfOk};
ghost use Rattle.goal_ast.specs.Sorted.{argument_1, result_1, sort_2};
ghost use Rattle.goal_sort.specs.SortGiving.{GivesPlaced};
ghost use Rattle.goal_sort.specs.SortedNumbers.{a_number, difference_sort, arithmetic_term, arithmetic, opposite, called_1, called_2, by_term, quotient_sort, by_sort, can_stand, by_literal, can_be_negative, by_negative, by_written};

use crate::fail::SortFail;
use crate::number::{as_sort, first, joined, sort_at};
use crate::operator::{Arithmetic, ByLiteral};
use crate::value::{Number, NumberSort, Sorted, Written};
use goal_ast::{Fn1, Fn2, Sort, Term};
use std::alloc::{AllocError, Global};

/// A number of this sort.
pub fn a_number(sort: NumberSort, term: Term, zero: Option<u64>) -> Sorted
    ensures { result ≡ a_number sort term zero }
{
    Sorted::Number(Number { sort, term, zero })
}

// The sort of a difference; Z while the numbers have none.
fn difference_sort(sort: NumberSort) -> Sort
    ensures { result ≡ difference_sort sort }
{
    match sort {
        NumberSort::Free(_) => Sort::Int,
        NumberSort::Fixed(sort) => sort,
    }
}

fn arithmetic_term(
    alloc: Global,
    op: Arithmetic,
    sort: NumberSort,
    a: Term,
    b: Term,
) -> Result<Term, AllocError>
    ensures { IfOk result (λ made. made ≡ arithmetic_term op sort a b) }
{
    match op {
        Arithmetic::Sum => Term::sum(alloc, a, b),
        Arithmetic::Difference => Term::difference(alloc, difference_sort(sort), a, b),
        Arithmetic::Product => Term::product(alloc, a, b),
    }
}

/// A sum, a difference or a product.
#[tactic(auto, unfolding(crate::specs::SortedNumbers::arithmetic))]
pub fn arithmetic(
    alloc: Global,
    at: u64,
    op: Arithmetic,
    a: Number,
    b: Number,
) -> Result<Sorted, SortFail>
    ensures { GivesPlaced result (arithmetic at op a b) }
{
    let pair = joined(alloc, at, a, b)?;
    let term = arithmetic_term(alloc, op, pair.sort, pair.left, pair.right)?;
    Ok(a_number(pair.sort, term, pair.zero))
}

/// Unary minus, which is on Z.
#[tactic(auto, unfolding(crate::specs::SortedNumbers::opposite))]
pub fn opposite(alloc: Global, at: u64, a: Number) -> Result<Sorted, SortFail>
    ensures { GivesPlaced result (opposite at a) }
{
    let number = as_sort(alloc, at, Sort::Int, a)?;
    let term = Term::negation(alloc, number.term)?;
    Ok(a_number(NumberSort::Fixed(Sort::Int), term, number.zero))
}

// The sort that a function takes.
fn argument_of(f: Fn1) -> Sort
    ensures { result ≡ argument_1 f }
{
    match f {
        Fn1::ZSucc | Fn1::ZPred | Fn1::ZOpp | Fn1::ZAbs | Fn1::ZSgn | Fn1::ToNat | Fn1::ToN => {
            Sort::Int
        }
        Fn1::S | Fn1::NatPred | Fn1::OfNat => Sort::Nat,
        Fn1::NSucc | Fn1::NPred | Fn1::OfN => Sort::Bin,
        Fn1::PosSucc | Fn1::PosPred | Fn1::OfPos => Sort::Pos,
    }
}

// The sort that a function gives.
fn result_of(f: Fn1) -> Sort
    ensures { result ≡ result_1 f }
{
    match f {
        Fn1::ZSucc
        | Fn1::ZPred
        | Fn1::ZOpp
        | Fn1::ZAbs
        | Fn1::ZSgn
        | Fn1::OfNat
        | Fn1::OfN
        | Fn1::OfPos => Sort::Int,
        Fn1::S | Fn1::NatPred | Fn1::ToNat => Sort::Nat,
        Fn1::NSucc | Fn1::NPred | Fn1::ToN => Sort::Bin,
        Fn1::PosSucc | Fn1::PosPred => Sort::Pos,
    }
}

// The sort of a function of two numbers.
fn sort_of(f: Fn2) -> Sort
    ensures { result ≡ sort_2 f }
{
    match f {
        Fn2::ZMin | Fn2::ZMax => Sort::Int,
        Fn2::NatMin | Fn2::NatMax => Sort::Nat,
        Fn2::NMin | Fn2::NMax => Sort::Bin,
        Fn2::PosMin | Fn2::PosMax => Sort::Pos,
    }
}

/// A function of one number.
#[tactic(auto, unfolding(crate::specs::SortedNumbers::called_1))]
pub fn called_1(alloc: Global, at: u64, f: Fn1, a: Number) -> Result<Sorted, SortFail>
    ensures { GivesPlaced result (called_1 at f a) }
{
    let number = as_sort(alloc, at, argument_of(f), a)?;
    let term = Term::call1(alloc, f, number.term)?;
    Ok(a_number(NumberSort::Fixed(result_of(f)), term, number.zero))
}

/// A function of two numbers.
#[tactic(auto, unfolding(crate::specs::SortedNumbers::called_2))]
pub fn called_2(alloc: Global, at: u64, f: Fn2, a: Number, b: Number) -> Result<Sorted, SortFail>
    ensures { GivesPlaced result (called_2 at f a b) }
{
    let left = as_sort(alloc, at, sort_of(f), a)?;
    let right = as_sort(alloc, at, sort_of(f), b)?;
    let term = Term::call2(alloc, f, left.term, right.term)?;
    let zero = first(left.zero, right.zero);
    Ok(a_number(NumberSort::Fixed(sort_of(f)), term, zero))
}

fn by_term(alloc: Global, op: ByLiteral, a: Term, k: i128) -> Result<Term, AllocError>
    ensures { IfOk result (λ made. made ≡ by_term op a k) }
{
    match op {
        ByLiteral::Power => Term::power(alloc, a, k),
        ByLiteral::Quotient => Term::quotient(alloc, a, k),
        ByLiteral::Remainder => Term::remainder(alloc, a, k),
    }
}

// The sort of a quotient.
fn quotient_sort(sort: NumberSort) -> Option<NumberSort>
    ensures { result ≡ quotient_sort sort }
{
    match sort {
        NumberSort::Free(_) => Some(NumberSort::Free(true)),
        NumberSort::Fixed(Sort::Pos) => None,
        NumberSort::Fixed(sort) => Some(NumberSort::Fixed(sort)),
    }
}

// The sort of a number with a literal on its right.
fn by_sort(op: ByLiteral, sort: NumberSort) -> Option<NumberSort>
    ensures { result ≡ by_sort op sort }
{
    match op {
        ByLiteral::Power => Some(sort),
        ByLiteral::Quotient | ByLiteral::Remainder => quotient_sort(sort),
    }
}

// Whether a number may be the exponent, which is from 0, or the divisor, which is from 1.
fn can_stand(op: ByLiteral, k: i128) -> bool
    ensures value { result ≡ can_stand op k }
    ensures natural { IsTrue result → pos 0 ≤ℤ k }
{
    match op {
        ByLiteral::Power => k >= 0,
        ByLiteral::Quotient | ByLiteral::Remainder => k >= 1,
    }
}

#[tactic(auto, unfolding(crate::specs::SortedNumbers::by_literal))]
fn by_literal(alloc: Global, at: u64, op: ByLiteral, a: Number, k: i128) -> Result<Sorted, SortFail>
    ensures { GivesPlaced result (by_literal at op a k) }
{
    let sort = sort_at(by_sort(op, a.sort), at)?;
    let term = by_term(alloc, op, a.term, k)?;
    Ok(a_number(sort, term, a.zero))
}

// Whether a minus may stand before the literal.
fn can_be_negative(op: ByLiteral) -> bool
    ensures { result ≡ can_be_negative op }
{
    op != ByLiteral::Power
}

// A negative divisor is on Z.
#[tactic(auto, unfolding(crate::specs::SortedNumbers::by_negative))]
fn by_negative(
    alloc: Global,
    at: u64,
    op: ByLiteral,
    a: Number,
    k: i128,
) -> Result<Sorted, SortFail>
    requires { pos 0 ≤ℤ k }
    ensures { GivesPlaced result (by_negative at op a k) }
{
    let number = as_sort(alloc, at, Sort::Int, a)?;
    let term = by_term(alloc, op, number.term, -k)?;
    Ok(a_number(number.sort, term, number.zero))
}

/// A number with an exponent or a divisor.
#[tactic(auto, unfolding(crate::specs::SortedNumbers::by_written))]
pub fn by_written(
    alloc: Global,
    at: u64,
    op: ByLiteral,
    a: Number,
    written: Written,
) -> Result<Sorted, SortFail>
    ensures { GivesPlaced result (by_written at op a written) }
{
    match written {
        Written::Literal(k) if can_stand(op, k) => by_literal(alloc, at, op, a, k),
        Written::Negated(k) if can_be_negative(op) && can_stand(op, k) => {
            by_negative(alloc, at, op, a, k)
        }
        _ => Err(SortFail::IllSorted { at }),
    }
}
