//! Terms.

ghost use Rattle.std.specs.Prelude.{◌≡◌, ◌++◌, List, OnOk};
ghost use Rattle.goal_ast.specs.declared.goal.Bound.{Bound};
ghost use Rattle.goal_print.specs.Parts.{at_most};
ghost use Rattle.goal_print.specs.Text.{term_part};

use crate::pieces::{number_level, push, push_digits, push_name, push_number};
use crate::precedence::{CALL, LEAF, NEGATION, POWER, PRODUCT, REMAINDER, SUM};
use crate::spelling::{one_text, two_text};
use goal_ast::{Bound, Term};
use std::alloc::AllocError;

fn level(t: &Term) -> u8
    ensures { (vars : List Bound) → result ≡ (term_part vars t.now).level }
{
    match t {
        Term::Lit(n) => number_level(*n),
        Term::Var(_) => LEAF,
        Term::Neg(_) => NEGATION,
        Term::Add(_, _) | Term::Sub(_, _, _) => SUM,
        Term::Mul(_, _) | Term::Div(_, _) => PRODUCT,
        Term::Pow(_, _) => POWER,
        Term::Rem(_, _) => REMAINDER,
        Term::Call1(_, _) | Term::Call2(_, _, _) => CALL,
    }
}

// A term where only levels up to this one may stand without parentheses.
#[cycle(term)]
pub(crate) fn push_term(
    out: &mut Vec<u8>,
    vars: &[Bound],
    t: &Term,
    highest: u8,
) -> Result<(), AllocError>
    ensures { OnOk result (out.new.items ≡ out.old.items ++ at_most highest (term_part vars.now t.now)) }
{
    if level(t) <= highest {
        push_bare(out, vars, t)
    } else {
        push(out, b"(")?;
        push_bare(out, vars, t)?;
        push(out, b")")
    }
}

// A term without parentheses round it.
#[cycle(term)]
fn push_bare(out: &mut Vec<u8>, vars: &[Bound], t: &Term) -> Result<(), AllocError>
    ensures { OnOk result (out.new.items ≡ out.old.items ++ (term_part vars.now t.now).text) }
{
    match t {
        Term::Lit(n) => push_digits(out, *n),
        Term::Var(v) => push_name(out, vars, *v),
        Term::Neg(a) => {
            push(out, b"-")?;
            push_term(out, vars, a.get(), NEGATION)
        }
        Term::Add(a, b) => {
            push_term(out, vars, a.get(), SUM)?;
            push(out, b" + ")?;
            push_term(out, vars, b.get(), SUM - 1)
        }
        Term::Sub(_, a, b) => {
            push_term(out, vars, a.get(), SUM)?;
            push(out, b" - ")?;
            push_term(out, vars, b.get(), SUM - 1)
        }
        Term::Mul(a, b) => {
            push_term(out, vars, a.get(), PRODUCT)?;
            push(out, b" * ")?;
            push_term(out, vars, b.get(), PRODUCT - 1)
        }
        Term::Pow(a, k) => {
            push_term(out, vars, a.get(), POWER - 1)?;
            push(out, b" ^ ")?;
            push_number(out, *k, POWER)
        }
        Term::Div(a, k) => {
            push_term(out, vars, a.get(), PRODUCT)?;
            push(out, b" / ")?;
            push_number(out, *k, PRODUCT - 1)
        }
        Term::Rem(a, k) => {
            push_term(out, vars, a.get(), PRODUCT - 1)?;
            push(out, b" mod ")?;
            push_number(out, *k, PRODUCT - 1)
        }
        Term::Call1(f, a) => {
            push(out, one_text(*f))?;
            push(out, b" ")?;
            push_term(out, vars, a.get(), LEAF)
        }
        Term::Call2(f, a, b) => {
            push(out, two_text(*f))?;
            push(out, b" ")?;
            push_term(out, vars, a.get(), LEAF)?;
            push(out, b" ")?;
            push_term(out, vars, b.get(), LEAF)
        }
    }
}
