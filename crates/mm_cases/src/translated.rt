//! The translations of goals to the integers, spelled: each sum and each connective in parentheses.

use crate::goal::{goal_of, no_goal};
use clause_form::count_clauses;
use goal_ast::Cmp;
use std::alloc::{AllocError, Global};
use std::fmt::Write;
use zify::{ZFail, ZForm, ZGoal, ZTerm, zify};

fn push(out: &mut Vec<u8>, text: &str) -> Result<(), AllocError> {
    out.extend_from_slice(text.as_bytes())
}

fn push_term(alloc: Global, out: &mut Vec<u8>, t: &ZTerm) -> Result<(), AllocError> {
    match t {
        ZTerm::Lit(n) => push(out, format!(in alloc; "{n}")?.as_str()),
        ZTerm::Var(v) => push(out, format!(in alloc; "x{v}")?.as_str()),
        ZTerm::Neg(a) => {
            push(out, "-")?;
            push_term(alloc, out, a.get())
        }
        ZTerm::Add(a, b) => {
            push(out, "(")?;
            push_term(alloc, out, a.get())?;
            push(out, " + ")?;
            push_term(alloc, out, b.get())?;
            push(out, ")")
        }
        ZTerm::Sub(a, b) => {
            push(out, "(")?;
            push_term(alloc, out, a.get())?;
            push(out, " - ")?;
            push_term(alloc, out, b.get())?;
            push(out, ")")
        }
        ZTerm::Mul(a, b) => {
            push(out, "(")?;
            push_term(alloc, out, a.get())?;
            push(out, " * ")?;
            push_term(alloc, out, b.get())?;
            push(out, ")")
        }
        ZTerm::Pow(a, k) => {
            push_term(alloc, out, a.get())?;
            push(out, format!(in alloc; "^{k}")?.as_str())
        }
    }
}

fn sign_of(c: Cmp) -> &'static str {
    match c {
        Cmp::Eq => " = ",
        Cmp::Ne => " <> ",
        Cmp::Lt => " < ",
        Cmp::Le => " <= ",
        Cmp::Gt => " > ",
        Cmp::Ge => " >= ",
    }
}

fn push_form(alloc: Global, out: &mut Vec<u8>, f: &ZForm) -> Result<(), AllocError> {
    match f {
        ZForm::True => push(out, "True"),
        ZForm::False => push(out, "False"),
        ZForm::Atom(c, t, u) => {
            push_term(alloc, out, t.get())?;
            push(out, sign_of(*c))?;
            push_term(alloc, out, u.get())
        }
        ZForm::Not(g) => {
            push(out, "~ ")?;
            push_form(alloc, out, g.get())
        }
        ZForm::And(g, h) => {
            push(out, "(")?;
            push_form(alloc, out, g.get())?;
            push(out, " /\\ ")?;
            push_form(alloc, out, h.get())?;
            push(out, ")")
        }
        ZForm::Or(g, h) => {
            push(out, "(")?;
            push_form(alloc, out, g.get())?;
            push(out, " \\/ ")?;
            push_form(alloc, out, h.get())?;
            push(out, ")")
        }
        ZForm::Imp(g, h) => {
            push(out, "(")?;
            push_form(alloc, out, g.get())?;
            push(out, " -> ")?;
            push_form(alloc, out, h.get())?;
            push(out, ")")
        }
        ZForm::Iff(g, h) => {
            push(out, "(")?;
            push_form(alloc, out, g.get())?;
            push(out, " <-> ")?;
            push_form(alloc, out, h.get())?;
            push(out, ")")
        }
    }
}

// `VARIABLES: H; H |- BODY`.
fn text_of(alloc: Global, z: &ZGoal) -> Result<Vec<u8>, AllocError> {
    let vars = z.vars;
    let mut out = format!(in alloc; "{vars}:")?.into_bytes();
    let mut is_first = true;
    for h in z.hyps.as_slice() {
        push(&mut out, if is_first { " " } else { "; " })?;
        push_form(alloc, &mut out, h)?;
        is_first = false;
    }
    push(&mut out, " |- ")?;
    push_form(alloc, &mut out, &z.body)?;
    Ok(out)
}

// What is answered for a goal that can't be translated.
pub fn refusal(alloc: Global, why: ZFail) -> Result<Vec<u8>, AllocError> {
    match why {
        ZFail::Weight => Vec::from_slice(alloc, b"weight"),
        ZFail::Spread => Vec::from_slice(alloc, b"spread"),
        ZFail::Degree => Vec::from_slice(alloc, b"degree"),
        ZFail::NoMemory => Err(AllocError),
    }
}

/// How many variables the translation has, its hypotheses and its body, or which limit a measure passes.
pub fn answer(alloc: Global, text: &[u8]) -> Result<Vec<u8>, AllocError> {
    let goal = match goal_of(alloc, text) {
        Ok(goal) => goal,
        Err(why) => return no_goal(alloc, why),
    };
    match zify(alloc, &goal) {
        Ok(z) => text_of(alloc, &z),
        Err(why) => refusal(alloc, why),
    }
}

/// How many clauses the goal has.
pub fn count(alloc: Global, text: &[u8]) -> Result<Vec<u8>, AllocError> {
    let goal = match goal_of(alloc, text) {
        Ok(goal) => goal,
        Err(why) => return no_goal(alloc, why),
    };
    match zify(alloc, &goal) {
        Ok(z) => {
            let number = count_clauses(&z);
            Ok(format!(in alloc; "{number}")?.into_bytes())
        }
        Err(why) => refusal(alloc, why),
    }
}
