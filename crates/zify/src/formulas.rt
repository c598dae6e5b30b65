ghost use Rattle.std.specs.Prelude.{◌≡◌, ◌+◌, ◌≤◌, ◌<◌, ◌^◌, ◌&&◌, pos, true, length, IfOk, OnOk};
ghost use Rattle.goal_ast.specs.Divisors.{divisors_fit, bool_divisors_fit, formula_divisors_fit};
ghost use Rattle.goal_ast.specs.Sorted.{term_nodes, bool_nodes, formula_nodes};
ghost use Rattle.zify.specs.Translation.{number, cmp_of, call_form};
ghost use Rattle.zify.specs.machine.Walking.{compared, paired, chain, bool_walk, formula_walk};

use crate::form::ZForm;
use crate::table::Table;
use crate::term::ZTerm;
use crate::walk::term;
use goal_ast::{BCmp, BFn, BTerm, Cmp, Formula, Term};
use std::alloc::{AllocError, Global};

fn comparison(c: BCmp) -> Cmp
    ensures { result ≡ cmp_of c }
{
    match c {
        BCmp::Eq => Cmp::Eq,
        BCmp::Lt => Cmp::Lt,
        BCmp::Le => Cmp::Le,
        BCmp::Gt => Cmp::Gt,
        BCmp::Ge => Cmp::Ge,
    }
}

fn truth_of_variable(alloc: Global, v: u32) -> Result<ZForm, AllocError>
    ensures { IfOk result (λ f. f ≡ ZForm.Atom Cmp.Ge (ZTerm.Var v) (number (pos 1))) }
{
    ZForm::atom(alloc, Cmp::Ge, ZTerm::Var(v), ZTerm::Lit(1))
}

fn call(alloc: Global, f: BFn, a: ZForm, b: ZForm) -> Result<ZForm, AllocError>
    ensures { IfOk result (λ g. g ≡ call_form f a b) }
{
    match f {
        BFn::Imp => ZForm::implication(alloc, a, b),
        BFn::Xor => {
            let same = ZForm::equivalence(alloc, a, b)?;
            ZForm::negation(alloc, same)
        }
        BFn::Eqb => ZForm::equivalence(alloc, a, b),
    }
}

fn compare(
    alloc: Global,
    bound: u32,
    table: &mut Table,
    c: Cmp,
    t: &Term,
    u: &Term,
) -> Result<ZForm, AllocError>
    requires divisors { (divisors_fit t.now && divisors_fit u.now) ≡ true }
    requires room { bound + (length table.old.operations + (term_nodes t.now + term_nodes u.now)) < 2 ^ 32 }
    ensures form { IfOk result (λ f. f ≡ (compared bound c t.now u.now table.old).form) }
    ensures table { OnOk result (table.new ≡ (compared bound c t.now u.now table.old).state) }
    ensures grown { OnOk result (length table.new.operations ≤ length table.old.operations + (term_nodes t.now + term_nodes u.now)) }
{
    let a = term(alloc, bound, table, t)?;
    let b = term(alloc, bound, table, u)?;
    ZForm::atom(alloc, c, a.term, b.term)
}

// The signs of a chain.
#[derive(Clone, Copy)]
struct Signs {
    left: Cmp,
    right: Cmp,
}

fn join_chain(
    alloc: Global,
    signs: Signs,
    a: ZTerm,
    b: ZTerm,
    c: ZTerm,
) -> Result<ZForm, AllocError>
    ensures { IfOk result (λ f. f ≡ ZForm.And (ZForm.Atom signs.left a b) (ZForm.Atom signs.right b c)) }
{
    let left = ZForm::atom(alloc, signs.left, a, b.copy(alloc)?)?;
    let right = ZForm::atom(alloc, signs.right, b, c)?;
    ZForm::conjunction(alloc, left, right)
}

fn compare_chain(
    alloc: Global,
    bound: u32,
    table: &mut Table,
    signs: Signs,
    t: &Term,
    u: &Term,
    v: &Term,
) -> Result<ZForm, AllocError>
    requires divisors { (divisors_fit t.now && (divisors_fit u.now && divisors_fit v.now)) ≡ true }
    requires room { bound + (length table.old.operations + (term_nodes t.now + (term_nodes u.now + term_nodes v.now))) < 2 ^ 32 }
    ensures form { IfOk result (λ f. f ≡ (chain bound t.now signs.left u.now signs.right v.now table.old).form) }
    ensures table { OnOk result (table.new ≡ (chain bound t.now signs.left u.now signs.right v.now table.old).state) }
    ensures grown { OnOk result (length table.new.operations ≤ length table.old.operations + (term_nodes t.now + (term_nodes u.now + term_nodes v.now))) }
{
    let a = term(alloc, bound, table, t)?;
    let b = term(alloc, bound, table, u)?;
    let c = term(alloc, bound, table, v)?;
    join_chain(alloc, signs, a.term, b.term, c.term)
}

// The translation of a bool term.
fn bool_form(alloc: Global, bound: u32, table: &mut Table, b: &BTerm) -> Result<ZForm, AllocError>
    requires divisors { bool_divisors_fit b.now ≡ true }
    requires room { bound + (length table.old.operations + bool_nodes b.now) < 2 ^ 32 }
    ensures form { IfOk result (λ f. f ≡ (bool_walk bound b.now table.old).form) }
    ensures table { OnOk result (table.new ≡ (bool_walk bound b.now table.old).state) }
    ensures grown { OnOk result (length table.new.operations ≤ length table.old.operations + bool_nodes b.now) }
{
    match b {
        BTerm::True => Ok(ZForm::True),
        BTerm::False => Ok(ZForm::False),
        BTerm::Var(v) => truth_of_variable(alloc, *v),
        BTerm::Test(c, t, u) => compare(alloc, bound, table, comparison(*c), t.get(), u.get()),
        BTerm::Not(a) => {
            let a = bool_form(alloc, bound, table, a.get())?;
            ZForm::negation(alloc, a)
        }
        BTerm::And(a, b) => {
            let a = bool_form(alloc, bound, table, a.get())?;
            let b = bool_form(alloc, bound, table, b.get())?;
            ZForm::conjunction(alloc, a, b)
        }
        BTerm::Or(a, b) => {
            let a = bool_form(alloc, bound, table, a.get())?;
            let b = bool_form(alloc, bound, table, b.get())?;
            ZForm::disjunction(alloc, a, b)
        }
        BTerm::Call(f, a, b) => {
            let a = bool_form(alloc, bound, table, a.get())?;
            let b = bool_form(alloc, bound, table, b.get())?;
            call(alloc, *f, a, b)
        }
    }
}

fn same(
    alloc: Global,
    bound: u32,
    table: &mut Table,
    b: &BTerm,
    c: &BTerm,
) -> Result<ZForm, AllocError>
    requires divisors { (bool_divisors_fit b.now && bool_divisors_fit c.now) ≡ true }
    requires room { bound + (length table.old.operations + (bool_nodes b.now + bool_nodes c.now)) < 2 ^ 32 }
    ensures form { IfOk result (λ f. f ≡ (paired (λ x y. ZForm.Iff x y) (bool_walk bound b.now) (bool_walk bound c.now) table.old).form) }
    ensures table { OnOk result (table.new ≡ (paired (λ x y. ZForm.Iff x y) (bool_walk bound b.now) (bool_walk bound c.now) table.old).state) }
    ensures grown { OnOk result (length table.new.operations ≤ length table.old.operations + (bool_nodes b.now + bool_nodes c.now)) }
{
    let a = bool_form(alloc, bound, table, b)?;
    let b = bool_form(alloc, bound, table, c)?;
    ZForm::equivalence(alloc, a, b)
}

// The translation of a formula.
pub(crate) fn formula(
    alloc: Global,
    bound: u32,
    table: &mut Table,
    f: &Formula,
) -> Result<ZForm, AllocError>
    requires divisors { formula_divisors_fit f.now ≡ true }
    requires room { bound + (length table.old.operations + formula_nodes f.now) < 2 ^ 32 }
    ensures form { IfOk result (λ g. g ≡ (formula_walk bound f.now table.old).form) }
    ensures table { OnOk result (table.new ≡ (formula_walk bound f.now table.old).state) }
    ensures grown { OnOk result (length table.new.operations ≤ length table.old.operations + formula_nodes f.now) }
{
    match f {
        Formula::True => Ok(ZForm::True),
        Formula::False => Ok(ZForm::False),
        Formula::Atom(c, t, u) => compare(alloc, bound, table, *c, t.get(), u.get()),
        Formula::Chain(t, c, u, d, v) => {
            let signs = Signs {
                left: *c,
                right: *d,
            };
            compare_chain(alloc, bound, table, signs, t.get(), u.get(), v.get())
        }
        Formula::Same(b, c) => same(alloc, bound, table, b.get(), c.get()),
        Formula::Differ(b, c) => {
            let same = same(alloc, bound, table, b.get(), c.get())?;
            ZForm::negation(alloc, same)
        }
        Formula::Not(f) => {
            let f = formula(alloc, bound, table, f.get())?;
            ZForm::negation(alloc, f)
        }
        Formula::And(f, g) => {
            let f = formula(alloc, bound, table, f.get())?;
            let g = formula(alloc, bound, table, g.get())?;
            ZForm::conjunction(alloc, f, g)
        }
        Formula::Or(f, g) => {
            let f = formula(alloc, bound, table, f.get())?;
            let g = formula(alloc, bound, table, g.get())?;
            ZForm::disjunction(alloc, f, g)
        }
        Formula::Imp(f, g) => {
            let f = formula(alloc, bound, table, f.get())?;
            let g = formula(alloc, bound, table, g.get())?;
            ZForm::implication(alloc, f, g)
        }
        Formula::Iff(f, g) => {
            let f = formula(alloc, bound, table, f.get())?;
            let g = formula(alloc, bound, table, g.get())?;
            ZForm::equivalence(alloc, f, g)
        }
    }
}
