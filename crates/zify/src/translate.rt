ghost use Rattle.std.specs.Prelude.{◌≡◌, ◌+◌, ◌≤◌, ◌<◌, ◌^◌, true, length, IfOk, OnOk};
ghost use Rattle.goal_ast.specs.Divisors.{divisor_fits};
ghost use Rattle.zify.specs.Translation.{plain_call as plain_form, difference_condition, call_condition, call_2_condition, quotient_condition};
ghost use Rattle.zify.specs.machine.Walking.{shape, placed, operated, subtracted, divided, reduced, called, with_place, part_of, IsPart};

use crate::condition;
use crate::table::{Entered, Table};
use crate::term::ZTerm;
use goal_ast::{Fn1, Fn2, Operator, Sort, Term};
use std::alloc::{AllocError, Global};

// A term's number and its translation.
#[derive(Drop)]
pub(crate) struct Placed {
    pub place: usize,
    pub term: ZTerm,
}

// A node that isn't an operation.
pub(crate) fn plain(
    table: &mut Table,
    operator: Operator,
    left: usize,
    right: usize,
    term: ZTerm,
) -> Result<Placed, AllocError>
    ensures part { IfOk result (λ p. IsPart p (placed (shape operator left right) term table.old)) }
    ensures table { OnOk result (table.new ≡ with_place (shape operator left right) table.old) }
    ensures grown { OnOk result (length table.new.operations ≡ length table.old.operations) }
{
    Ok(Placed {
        place: table.place(operator, left, right)?,
        term,
    })
}

fn variable(at: Entered) -> Placed
    ensures { result ≡ record { place = at.place; term = ZTerm.Var at.variable } }
{
    Placed {
        place: at.place,
        term: ZTerm::Var(at.variable),
    }
}

// What the walk finds of two parts, whose terms are handed on.
#[derive(Drop)]
pub(crate) struct Two {
    pub a: Placed,
    pub b: Placed,
}

pub(crate) fn subtract(
    alloc: Global,
    bound: u32,
    table: &mut Table,
    sort: Sort,
    two: Two,
) -> Result<Placed, AllocError>
    requires { bound + length table.old.operations < 2 ^ 32 }
    ensures part { IfOk result (λ p. IsPart p (subtracted bound sort (part_of two.a table.old) (part_of two.b table.old))) }
    ensures table { OnOk result (table.new ≡ (subtracted bound sort (part_of two.a table.old) (part_of two.b table.old)).state) }
    ensures grown { OnOk result (length table.new.operations ≤ length table.old.operations + 1) }
{
    match sort {
        Sort::Int | Sort::Bool => {
            let Two { a, b } = two;
            let term = ZTerm::difference(alloc, a.term, b.term)?;
            plain(table, Operator::Sub(sort), a.place, b.place, term)
        }
        Sort::Bin | Sort::Nat | Sort::Pos => stop(alloc, bound, table, sort, two),
    }
}

// A difference that stops at the least number of its sort.
fn stop(
    alloc: Global,
    bound: u32,
    table: &mut Table,
    sort: Sort,
    two: Two,
) -> Result<Placed, AllocError>
    requires { bound + length table.old.operations < 2 ^ 32 }
    ensures part { IfOk result (λ p. IsPart p (operated bound (shape (Operator.Sub sort) two.a.place two.b.place) (difference_condition sort two.a.term two.b.term) table.old)) }
    ensures table { OnOk result (table.new ≡ (operated bound (shape (Operator.Sub sort) two.a.place two.b.place) (difference_condition sort two.a.term two.b.term) table.old).state) }
    ensures grown { OnOk result (length table.new.operations ≤ length table.old.operations + 1) }
{
    let Two { a, b } = two;
    let at = table.enter(bound, Operator::Sub(sort), a.place, b.place)?;
    if at.new {
        let condition = condition::difference(alloc, sort, a.term, b.term, at.variable)?;
        table.push(condition)?;
        Ok(variable(at))
    } else {
        Ok(variable(at))
    }
}

pub(crate) fn call_two(
    alloc: Global,
    bound: u32,
    table: &mut Table,
    f: Fn2,
    two: Two,
) -> Result<Placed, AllocError>
    requires { bound + length table.old.operations < 2 ^ 32 }
    ensures part { IfOk result (λ p. IsPart p (operated bound (shape (Operator.Call2 f) two.a.place two.b.place) (call_2_condition f two.a.term two.b.term) table.old)) }
    ensures table { OnOk result (table.new ≡ (operated bound (shape (Operator.Call2 f) two.a.place two.b.place) (call_2_condition f two.a.term two.b.term) table.old).state) }
    ensures grown { OnOk result (length table.new.operations ≤ length table.old.operations + 1) }
{
    let Two { a, b } = two;
    let at = table.enter(bound, Operator::Call2(f), a.place, b.place)?;
    if at.new {
        let condition = condition::call_of_two(alloc, f, a.term, b.term, at.variable)?;
        table.push(condition)?;
        Ok(variable(at))
    } else {
        Ok(variable(at))
    }
}

fn call(
    alloc: Global,
    bound: u32,
    table: &mut Table,
    f: Fn1,
    a: Placed,
) -> Result<Placed, AllocError>
    requires { bound + length table.old.operations < 2 ^ 32 }
    ensures part { IfOk result (λ p. IsPart p (operated bound (shape (Operator.Call1 f) a.place 0) (call_condition f a.term) table.old)) }
    ensures table { OnOk result (table.new ≡ (operated bound (shape (Operator.Call1 f) a.place 0) (call_condition f a.term) table.old).state) }
    ensures grown { OnOk result (length table.new.operations ≤ length table.old.operations + 1) }
{
    let at = table.enter(bound, Operator::Call1(f), a.place, 0)?;
    if at.new {
        let condition = condition::call(alloc, f, a.term, at.variable)?;
        table.push(condition)?;
        Ok(variable(at))
    } else {
        Ok(variable(at))
    }
}

fn plain_call(alloc: Global, table: &mut Table, f: Fn1, a: Placed) -> Result<Placed, AllocError>
    ensures part { IfOk result (λ p. IsPart p (placed (shape (Operator.Call1 f) a.place 0) (plain_form f a.term) table.old)) }
    ensures table { OnOk result (table.new ≡ with_place (shape (Operator.Call1 f) a.place 0) table.old) }
    ensures grown { OnOk result (length table.new.operations ≡ length table.old.operations) }
{
    let term = condition::plain(alloc, f, a.term)?;
    plain(table, Operator::Call1(f), a.place, 0, term)
}

pub(crate) fn apply(
    alloc: Global,
    bound: u32,
    table: &mut Table,
    f: Fn1,
    a: Placed,
) -> Result<Placed, AllocError>
    requires { bound + length table.old.operations < 2 ^ 32 }
    ensures part { IfOk result (λ p. IsPart p (called bound f (part_of a table.old))) }
    ensures table { OnOk result (table.new ≡ (called bound f (part_of a table.old)).state) }
    ensures grown { OnOk result (length table.new.operations ≤ length table.old.operations + 1) }
{
    match f {
        Fn1::ZAbs | Fn1::ZSgn | Fn1::NatPred | Fn1::NPred => call(alloc, bound, table, f, a),
        Fn1::PosPred | Fn1::ToNat | Fn1::ToN => call(alloc, bound, table, f, a),
        Fn1::ZSucc | Fn1::ZPred | Fn1::ZOpp | Fn1::S => plain_call(alloc, table, f, a),
        Fn1::NSucc | Fn1::PosSucc | Fn1::OfNat => plain_call(alloc, table, f, a),
        Fn1::OfN | Fn1::OfPos => plain_call(alloc, table, f, a),
    }
}

fn quotient_operator(k: &i128) -> Operator
    ensures { result ≡ Operator.Div k.now }
{
    Operator::Div(*k)
}

#[tactic(auto, using(goal_ast::proofs::DivisionLaws::divisor_small))]
pub(crate) fn divide(
    alloc: Global,
    bound: u32,
    table: &mut Table,
    a: Placed,
    k: &i128,
) -> Result<Placed, AllocError>
    requires room { bound + length table.old.operations < 2 ^ 32 }
    requires k { divisor_fits k.now ≡ true }
    ensures part { IfOk result (λ p. IsPart p (divided bound k.now (part_of a table.old))) }
    ensures table { OnOk result (table.new ≡ (divided bound k.now (part_of a table.old)).state) }
    ensures grown { OnOk result (length table.new.operations ≤ length table.old.operations + 1) }
{
    let operator = quotient_operator(k);
    let at = table.enter(bound, operator, a.place, 0)?;
    if at.new {
        let condition = condition::quotient(alloc, a.term, *k, at.variable)?;
        table.push(condition)?;
        Ok(variable(at))
    } else {
        Ok(variable(at))
    }
}

fn remainder_operator(k: &i128) -> Operator
    ensures { result ≡ Operator.Rem k.now }
{
    Operator::Rem(*k)
}

// A remainder, after its quotient.
#[tactic(auto, using(goal_ast::proofs::DivisionLaws::divisor_small))]
pub(crate) fn reduce(
    alloc: Global,
    bound: u32,
    table: &mut Table,
    a: Placed,
    k: &i128,
) -> Result<Placed, AllocError>
    requires room { bound + length table.old.operations < 2 ^ 32 }
    requires k { divisor_fits k.now ≡ true }
    ensures part { IfOk result (λ p. IsPart p (reduced bound k.now (part_of a table.old))) }
    ensures table { OnOk result (table.new ≡ (reduced bound k.now (part_of a table.old)).state) }
    ensures grown { OnOk result (length table.new.operations ≤ length table.old.operations + 1) }
{
    let copy = copied(alloc, &a)?;
    let quotient = divide(alloc, bound, table, copy, k)?;
    let rest = condition::remainder(alloc, a.term, k, quotient.term)?;
    plain(table, remainder_operator(k), a.place, 0, rest)
}

fn copied(alloc: Global, a: &Placed) -> Result<Placed, AllocError>
    ensures { IfOk result (λ p. p ≡ a.now) }
{
    Ok(Placed {
        place: a.place,
        term: a.term.copy(alloc)?,
    })
}
