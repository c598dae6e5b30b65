//! The sorts that numbers have together.

ghost use Rattle.std.specs.Prelude.{◌≡◌, IfOk};
ghost use Rattle.goal_sort.specs.SortGiving.{GivesPlaced, given_at};
ghost use Rattle.goal_sort.specs.SortedNumbers.{taken, meet, with_sort, positive_zero, first, fixed, settled, compared_zero, as_sort, joined, all_joined};

use crate::fail::SortFail;
use crate::value::{Number, NumberSort, Pair, Triple};
use goal_ast::{Sort, Term};
use std::alloc::{AllocError, Global};

// A number without a sort takes one.
fn taken(divides: bool, sort: Sort) -> Option<NumberSort>
    ensures { result ≡ taken divides sort }
{
    if divides && sort == Sort::Pos {
        None
    } else {
        Some(NumberSort::Fixed(sort))
    }
}

// The sort that two numbers have together.
fn meet(a: NumberSort, b: NumberSort) -> Option<NumberSort>
    ensures { result ≡ meet a b }
{
    match (a, b) {
        (NumberSort::Free(a), NumberSort::Free(b)) => Some(NumberSort::Free(a || b)),
        (NumberSort::Free(divides), NumberSort::Fixed(sort))
        | (NumberSort::Fixed(sort), NumberSort::Free(divides)) => taken(divides, sort),
        (NumberSort::Fixed(a), NumberSort::Fixed(b)) => {
            if a == b {
                Some(NumberSort::Fixed(a))
            } else {
                None
            }
        }
    }
}

/// What there is, or else a refusal at this place.
pub fn sort_at(sort: Option<NumberSort>, at: u64) -> Result<NumberSort, SortFail>
    ensures { GivesPlaced result (given_at at sort) }
{
    match sort {
        Some(sort) => Ok(sort),
        None => Err(SortFail::IllSorted { at }),
    }
}

// The term with its subtractions on this sort.
fn with_sort(alloc: Global, sort: Sort, term: Term) -> Result<Term, AllocError>
    ensures { IfOk result (λ made. made ≡ with_sort sort term) }
{
    match term {
        Term::Lit(n) => Ok(Term::Lit(n)),
        Term::Var(v) => Ok(Term::Var(v)),
        Term::Neg(a) => Term::negation(alloc, with_sort(alloc, sort, a.into_inner())?),
        Term::Add(a, b) => Term::sum(
            alloc,
            with_sort(alloc, sort, a.into_inner())?,
            with_sort(alloc, sort, b.into_inner())?,
        ),
        Term::Sub(_, a, b) => Term::difference(
            alloc,
            sort,
            with_sort(alloc, sort, a.into_inner())?,
            with_sort(alloc, sort, b.into_inner())?,
        ),
        Term::Mul(a, b) => Term::product(
            alloc,
            with_sort(alloc, sort, a.into_inner())?,
            with_sort(alloc, sort, b.into_inner())?,
        ),
        Term::Pow(a, k) => Term::power(alloc, with_sort(alloc, sort, a.into_inner())?, k),
        Term::Div(a, k) => Term::quotient(alloc, with_sort(alloc, sort, a.into_inner())?, k),
        Term::Rem(a, k) => Term::remainder(alloc, with_sort(alloc, sort, a.into_inner())?, k),
        Term::Call1(f, a) => Term::call1(alloc, f, with_sort(alloc, sort, a.into_inner())?),
        Term::Call2(f, a, b) => Term::call2(
            alloc,
            f,
            with_sort(alloc, sort, a.into_inner())?,
            with_sort(alloc, sort, b.into_inner())?,
        ),
    }
}

// The place of a literal 0, where it gets the sort positive.
fn positive_zero(sort: Sort, zero: Option<u64>) -> Option<u64>
    ensures { result ≡ positive_zero sort zero }
{
    if sort == Sort::Pos { zero } else { None }
}

/// The first of two places.
pub fn first(a: Option<u64>, b: Option<u64>) -> Option<u64>
    ensures { result ≡ first a b }
{
    match a {
        Some(place) => Some(place),
        None => b,
    }
}

// A number of a sort from now on.
fn fixed(alloc: Global, sort: Sort, a: Number) -> Result<Number, AllocError>
    ensures { IfOk result (λ made. made ≡ fixed sort a) }
{
    match a.sort {
        NumberSort::Fixed(_) => Ok(a),
        NumberSort::Free(_) => Ok(Number {
            sort: NumberSort::Fixed(sort),
            term: with_sort(alloc, sort, a.term)?,
            zero: positive_zero(sort, a.zero),
        }),
    }
}

// A number with the sort that it has together with others.
fn settled(alloc: Global, sort: NumberSort, a: Number) -> Result<Number, AllocError>
    ensures { IfOk result (λ made. made ≡ settled sort a) }
{
    match sort {
        NumberSort::Fixed(sort) => fixed(alloc, sort, a),
        NumberSort::Free(divides) => Ok(Number {
            sort: NumberSort::Free(divides),
            term: a.term,
            zero: a.zero,
        }),
    }
}

/// The place of a positive literal 0 in numbers that are compared; those without a sort are on Z.
pub fn compared_zero(sort: NumberSort, zero: Option<u64>) -> Option<u64>
    ensures { result ≡ compared_zero sort zero }
{
    match sort {
        NumberSort::Free(_) => None,
        NumberSort::Fixed(_) => zero,
    }
}

/// A number as an argument of this sort.
#[tactic(auto, unfolding(crate::specs::SortedNumbers::as_sort))]
pub fn as_sort(alloc: Global, at: u64, sort: Sort, a: Number) -> Result<Number, SortFail>
    ensures { GivesPlaced result (as_sort at sort a) }
{
    let sort = sort_at(meet(NumberSort::Fixed(sort), a.sort), at)?;
    Ok(settled(alloc, sort, a)?)
}

/// Two numbers that join.
#[tactic(auto, unfolding(crate::specs::SortedNumbers::joined))]
pub fn joined(alloc: Global, at: u64, a: Number, b: Number) -> Result<Pair, SortFail>
    ensures { GivesPlaced result (joined at a b) }
{
    let sort = sort_at(meet(a.sort, b.sort), at)?;
    let left = settled(alloc, sort, a)?;
    let right = settled(alloc, sort, b)?;
    Ok(Pair {
        sort,
        left: left.term,
        right: right.term,
        zero: first(left.zero, right.zero),
    })
}

/// Three numbers that join.
#[tactic(auto, unfolding(crate::specs::SortedNumbers::all_joined))]
pub fn all_joined(
    alloc: Global,
    at: u64,
    a: Number,
    b: Number,
    c: Number,
) -> Result<Triple, SortFail>
    ensures { GivesPlaced result (all_joined at a b c) }
{
    let sort = sort_at(meet(a.sort, b.sort), at)?;
    let sort = sort_at(meet(sort, c.sort), at)?;
    let left = settled(alloc, sort, a)?;
    let middle = settled(alloc, sort, b)?;
    let right = settled(alloc, sort, c)?;
    let zero = first(left.zero, first(middle.zero, right.zero));
    Ok(Triple {
        left: left.term,
        middle: middle.term,
        right: right.term,
        zero: compared_zero(sort, zero),
    })
}
