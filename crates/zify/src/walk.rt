ghost use Rattle.std.specs.Prelude.{◌≡◌, ◌+◌, ◌≤◌, ◌<◌, ◌^◌, true, length, IfOk, OnOk};
ghost use Rattle.goal_ast.specs.Divisors.{divisor_fits, divisors_fit};
ghost use Rattle.goal_ast.specs.Sorted.{term_nodes};
ghost use Rattle.zify.specs.machine.Walking.{shape, placed, walk, with_place, part_of, IsPart};

use crate::table::Table;
use crate::term::ZTerm;
use crate::translate::{Placed, Two, apply, call_two, divide, plain, reduce, subtract};
use goal_ast::{Operator, Term};
use sqlite_items::Boxed;
use std::alloc::{AllocError, Global};

fn literal_operator(n: &i128) -> Operator
    ensures { result ≡ Operator.Lit n.now }
{
    Operator::Lit(*n)
}

fn literal_term(n: &i128) -> ZTerm
    ensures { result ≡ ZTerm.Lit n.now }
{
    ZTerm::Lit(*n)
}

fn literal(table: &mut Table, n: &i128) -> Result<Placed, AllocError>
    ensures part { IfOk result (λ p. IsPart p (placed (shape (Operator.Lit n.now) 0 0) (ZTerm.Lit n.now) table.old)) }
    ensures table { OnOk result (table.new ≡ with_place (shape (Operator.Lit n.now) 0 0) table.old) }
    ensures grown { OnOk result (length table.new.operations ≡ length table.old.operations) }
{
    plain(table, literal_operator(n), 0, 0, literal_term(n))
}

fn variable(table: &mut Table, v: u32) -> Result<Placed, AllocError>
    ensures part { IfOk result (λ p. IsPart p (placed (shape (Operator.Var v) 0 0) (ZTerm.Var v) table.old)) }
    ensures table { OnOk result (table.new ≡ with_place (shape (Operator.Var v) 0 0) table.old) }
    ensures grown { OnOk result (length table.new.operations ≡ length table.old.operations) }
{
    plain(table, Operator::Var(v), 0, 0, ZTerm::Var(v))
}

fn negate(alloc: Global, table: &mut Table, a: Placed) -> Result<Placed, AllocError>
    ensures part { IfOk result (λ p. IsPart p (placed (shape Operator.Neg a.place 0) (ZTerm.Neg a.term) table.old)) }
    ensures table { OnOk result (table.new ≡ with_place (shape Operator.Neg a.place 0) table.old) }
    ensures grown { OnOk result (length table.new.operations ≡ length table.old.operations) }
{
    let term = ZTerm::negation(alloc, a.term)?;
    plain(table, Operator::Neg, a.place, 0, term)
}

fn add(alloc: Global, table: &mut Table, a: Placed, b: Placed) -> Result<Placed, AllocError>
    ensures part { IfOk result (λ p. IsPart p (placed (shape Operator.Add a.place b.place) (ZTerm.Add a.term b.term) table.old)) }
    ensures table { OnOk result (table.new ≡ with_place (shape Operator.Add a.place b.place) table.old) }
    ensures grown { OnOk result (length table.new.operations ≡ length table.old.operations) }
{
    let term = ZTerm::sum(alloc, a.term, b.term)?;
    plain(table, Operator::Add, a.place, b.place, term)
}

fn multiply(alloc: Global, table: &mut Table, a: Placed, b: Placed) -> Result<Placed, AllocError>
    ensures part { IfOk result (λ p. IsPart p (placed (shape Operator.Mul a.place b.place) (ZTerm.Mul a.term b.term) table.old)) }
    ensures table { OnOk result (table.new ≡ with_place (shape Operator.Mul a.place b.place) table.old) }
    ensures grown { OnOk result (length table.new.operations ≡ length table.old.operations) }
{
    let term = ZTerm::product(alloc, a.term, b.term)?;
    plain(table, Operator::Mul, a.place, b.place, term)
}

fn power_operator(k: &i128) -> Operator
    ensures { result ≡ Operator.Pow k.now }
{
    Operator::Pow(*k)
}

fn power_term(alloc: Global, a: ZTerm, k: &i128) -> Result<ZTerm, AllocError>
    ensures { IfOk result (λ made. made ≡ ZTerm.Pow a k.now) }
{
    Ok(ZTerm::Pow(Boxed::new(alloc, a)?, *k))
}

fn raise(alloc: Global, table: &mut Table, a: Placed, k: &i128) -> Result<Placed, AllocError>
    ensures part { IfOk result (λ p. IsPart p (placed (shape (Operator.Pow k.now) a.place 0) (ZTerm.Pow a.term k.now) table.old)) }
    ensures table { OnOk result (table.new ≡ with_place (shape (Operator.Pow k.now) a.place 0) table.old) }
    ensures grown { OnOk result (length table.new.operations ≡ length table.old.operations) }
{
    let term = power_term(alloc, a.term, k)?;
    plain(table, power_operator(k), a.place, 0, term)
}

// The number and the translation of a term.
pub(crate) fn term(
    alloc: Global,
    bound: u32,
    table: &mut Table,
    t: &Term,
) -> Result<Placed, AllocError>
    requires divisors { divisors_fit t.now ≡ true }
    requires room { bound + (length table.old.operations + term_nodes t.now) < 2 ^ 32 }
    ensures part { IfOk result (λ p. IsPart p (walk bound t.now table.old)) }
    ensures table { OnOk result (table.new ≡ (walk bound t.now table.old).state) }
    ensures grown { OnOk result (length table.new.operations ≤ length table.old.operations + term_nodes t.now) }
{
    match t {
        Term::Lit(n) => literal(table, n),
        Term::Var(v) => variable(table, *v),
        Term::Neg(a) => {
            let a = term(alloc, bound, table, a.get())?;
            negate(alloc, table, a)
        }
        Term::Add(a, b) => {
            let a = term(alloc, bound, table, a.get())?;
            let b = term(alloc, bound, table, b.get())?;
            add(alloc, table, a, b)
        }
        Term::Sub(sort, a, b) => {
            let a = term(alloc, bound, table, a.get())?;
            let b = term(alloc, bound, table, b.get())?;
            subtract(alloc, bound, table, *sort, Two { a, b })
        }
        Term::Mul(a, b) => {
            let a = term(alloc, bound, table, a.get())?;
            let b = term(alloc, bound, table, b.get())?;
            multiply(alloc, table, a, b)
        }
        Term::Pow(a, k) => {
            let a = term(alloc, bound, table, a.get())?;
            raise(alloc, table, a, k)
        }
        Term::Div(a, k) => {
            let a = term(alloc, bound, table, a.get())?;
            divide(alloc, bound, table, a, k)
        }
        Term::Rem(a, k) => {
            let a = term(alloc, bound, table, a.get())?;
            reduce(alloc, bound, table, a, k)
        }
        Term::Call1(f, a) => {
            let a = term(alloc, bound, table, a.get())?;
            apply(alloc, bound, table, *f, a)
        }
        Term::Call2(f, a, b) => {
            let a = term(alloc, bound, table, a.get())?;
            let b = term(alloc, bound, table, b.get())?;
            call_two(alloc, bound, table, *f, Two { a, b })
        }
    }
}
