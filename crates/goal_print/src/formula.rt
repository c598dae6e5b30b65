//! Formulas.

ghost use Rattle.std.specs.Prelude.{◌≡◌, ◌++◌, List, OnOk};
ghost use Rattle.goal_ast.specs.declared.goal.Bound.{Bound};
ghost use Rattle.goal_print.specs.Parts.{at_most};
ghost use Rattle.goal_print.specs.Text.{formula_part};

use crate::bools::push_bool;
use crate::pieces::push;
use crate::precedence::{AND, COMPARISON, IFF, IMPLICATION, LEAF, NOT, OR};
use crate::spelling::cmp_between;
use crate::term::push_term;
use goal_ast::{Bound, Formula};
use std::alloc::AllocError;

fn level(f: &Formula) -> u8
    ensures { (vars : List Bound) → result ≡ (formula_part vars f.now).level }
{
    match f {
        Formula::True | Formula::False => LEAF,
        Formula::Atom(_, _, _)
        | Formula::Chain(_, _, _, _, _)
        | Formula::Same(_, _)
        | Formula::Differ(_, _) => COMPARISON,
        Formula::Not(_) => NOT,
        Formula::And(_, _) => AND,
        Formula::Or(_, _) => OR,
        Formula::Iff(_, _) => IFF,
        Formula::Imp(_, _) => IMPLICATION,
    }
}

// A formula where only levels up to this one may stand without parentheses.
#[cycle(formula)]
fn push_formula(
    out: &mut Vec<u8>,
    vars: &[Bound],
    f: &Formula,
    highest: u8,
) -> Result<(), AllocError>
    ensures { OnOk result (out.new.items ≡ out.old.items ++ at_most highest (formula_part vars.now f.now)) }
{
    if level(f) <= highest {
        push_bare(out, vars, f)
    } else {
        push(out, b"(")?;
        push_bare(out, vars, f)?;
        push(out, b")")
    }
}

// A formula without parentheses round it.
#[cycle(formula)]
pub(crate) fn push_bare(out: &mut Vec<u8>, vars: &[Bound], f: &Formula) -> Result<(), AllocError>
    ensures { OnOk result (out.new.items ≡ out.old.items ++ (formula_part vars.now f.now).text) }
{
    match f {
        Formula::True => push(out, b"True"),
        Formula::False => push(out, b"False"),
        Formula::Atom(c, t, u) => {
            push_term(out, vars, t.get(), COMPARISON - 1)?;
            push(out, cmp_between(*c))?;
            push_term(out, vars, u.get(), COMPARISON - 1)
        }
        Formula::Chain(t, c, u, d, v) => {
            push_term(out, vars, t.get(), COMPARISON - 1)?;
            push(out, cmp_between(*c))?;
            push_term(out, vars, u.get(), COMPARISON - 1)?;
            push(out, cmp_between(*d))?;
            push_term(out, vars, v.get(), COMPARISON - 1)
        }
        Formula::Same(b, c) => {
            push_bool(out, vars, b.get(), COMPARISON - 1)?;
            push(out, b" = ")?;
            push_bool(out, vars, c.get(), COMPARISON - 1)
        }
        Formula::Differ(b, c) => {
            push_bool(out, vars, b.get(), COMPARISON - 1)?;
            push(out, b" <> ")?;
            push_bool(out, vars, c.get(), COMPARISON - 1)
        }
        Formula::Not(f) => {
            push(out, b"~ ")?;
            push_formula(out, vars, f.get(), NOT)
        }
        Formula::And(f, g) => {
            push_formula(out, vars, f.get(), AND - 1)?;
            push(out, b" /\\ ")?;
            push_formula(out, vars, g.get(), AND)
        }
        Formula::Or(f, g) => {
            push_formula(out, vars, f.get(), OR - 1)?;
            push(out, b" \\/ ")?;
            push_formula(out, vars, g.get(), OR)
        }
        Formula::Iff(f, g) => {
            push_formula(out, vars, f.get(), IFF - 1)?;
            push(out, b" <-> ")?;
            push_formula(out, vars, g.get(), IFF - 1)
        }
        Formula::Imp(f, g) => {
            push_formula(out, vars, f.get(), IMPLICATION - 1)?;
            push(out, b" -> ")?;
            push_formula(out, vars, g.get(), IMPLICATION)
        }
    }
}
