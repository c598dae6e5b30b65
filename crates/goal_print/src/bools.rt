//! Terms of sort bool.

ghost use Rattle.std.specs.Prelude.{◌≡◌, ◌++◌, List, OnOk};
ghost use Rattle.goal_ast.specs.declared.goal.Bound.{Bound};
ghost use Rattle.goal_print.specs.Parts.{at_most};
ghost use Rattle.goal_print.specs.Text.{bool_part};

use crate::pieces::{push, push_name};
use crate::precedence::{CALL, COMPARISON, LEAF, PRODUCT, SUM};
use crate::spelling::{bool_text, test_between};
use crate::term::push_term;
use goal_ast::{BTerm, Bound};
use std::alloc::AllocError;

fn level(t: &BTerm) -> u8
    ensures { (vars : List Bound) → result ≡ (bool_part vars t.now).level }
{
    match t {
        BTerm::True | BTerm::False | BTerm::Var(_) => LEAF,
        BTerm::Test(_, _, _) => COMPARISON,
        BTerm::And(_, _) => PRODUCT,
        BTerm::Or(_, _) => SUM,
        BTerm::Not(_) | BTerm::Call(_, _, _) => CALL,
    }
}

// A bool term where only levels up to this one may stand without parentheses.
#[cycle(bools)]
pub(crate) fn push_bool(
    out: &mut Vec<u8>,
    vars: &[Bound],
    t: &BTerm,
    highest: u8,
) -> Result<(), AllocError>
    ensures { OnOk result (out.new.items ≡ out.old.items ++ at_most highest (bool_part vars.now t.now)) }
{
    if level(t) <= highest {
        push_bare(out, vars, t)
    } else {
        push(out, b"(")?;
        push_bare(out, vars, t)?;
        push(out, b")")
    }
}

// A bool term without parentheses round it.
#[cycle(bools)]
fn push_bare(out: &mut Vec<u8>, vars: &[Bound], t: &BTerm) -> Result<(), AllocError>
    ensures { OnOk result (out.new.items ≡ out.old.items ++ (bool_part vars.now t.now).text) }
{
    match t {
        BTerm::True => push(out, b"true"),
        BTerm::False => push(out, b"false"),
        BTerm::Var(v) => push_name(out, vars, *v),
        BTerm::Test(c, t, u) => {
            push_term(out, vars, t.get(), COMPARISON - 1)?;
            push(out, test_between(*c))?;
            push_term(out, vars, u.get(), COMPARISON - 1)
        }
        BTerm::Not(a) => {
            push(out, b"negb ")?;
            push_bool(out, vars, a.get(), LEAF)
        }
        BTerm::And(a, b) => {
            push_bool(out, vars, a.get(), PRODUCT)?;
            push(out, b" && ")?;
            push_bool(out, vars, b.get(), PRODUCT - 1)
        }
        BTerm::Or(a, b) => {
            push_bool(out, vars, a.get(), SUM)?;
            push(out, b" || ")?;
            push_bool(out, vars, b.get(), SUM - 1)
        }
        BTerm::Call(f, a, b) => {
            push(out, bool_text(*f))?;
            push(out, b" ")?;
            push_bool(out, vars, a.get(), LEAF)?;
            push(out, b" ")?;
            push_bool(out, vars, b.get(), LEAF)
        }
    }
}
