//! Assignments.

ghost use Rattle.std.specs.Prelude.{◌≡◌, ◌++◌, length, IfOk, OnOk};
ghost use Rattle.goal_ast.specs.Range.{IsInRange};
ghost use Rattle.goal_print.specs.Text.{value_text, line_text, lines_text, assignment_text};

use crate::pieces::{push, push_digits};
use goal_ast::{Assignment, Bound, Goal, Sort};
use std::alloc::{AllocError, Global};

fn push_value(out: &mut Vec<u8>, sort: Sort, z: i128) -> Result<(), AllocError>
    ensures { OnOk result (out.new.items ≡ out.old.items ++ value_text sort z) }
{
    match sort {
        Sort::Bool if z >= 1 => push(out, b"true"),
        Sort::Bool => push(out, b"false"),
        Sort::Int | Sort::Bin | Sort::Nat | Sort::Pos => push_digits(out, z),
    }
}

fn push_line(out: &mut Vec<u8>, bound: &Bound, value: &i128) -> Result<(), AllocError>
    ensures { OnOk result (out.new.items ≡ out.old.items ++ line_text bound.now value.now) }
{
    push(out, bound.name.bytes.as_slice())?;
    push(out, b" := ")?;
    push_value(out, bound.sort, *value)?;
    push(out, b"\n")
}

fn push_lines(out: &mut Vec<u8>, vars: &[Bound], values: &[i128]) -> Result<(), AllocError>
    requires { length values.now ≡ length vars.now }
    ensures { OnOk result (out.new.items ≡ out.old.items ++ lines_text vars.now values.now) }
{
    for at in 0..vars.len() {
        push_line(out, &vars[at], &values[at])?;
    }
    Ok(())
}

/// Appends the text of an assignment. `Err` where there is no memory.
pub fn push_assignment(out: &mut Vec<u8>, goal: &Goal, a: &Assignment) -> Result<(), AllocError>
    requires { IsInRange goal.now a.now }
    ensures { OnOk result (out.new.items ≡ out.old.items ++ assignment_text goal.now a.now) }
{
    push_lines(out, goal.vars.as_slice(), a.values.as_slice())
}

/// The text of an assignment: a line `NAME := VALUE` for each variable, in their order. The values of bools are `true`
/// and `false`. `Err` where there is no memory.
pub fn print_assignment(alloc: Global, goal: &Goal, a: &Assignment) -> Result<Vec<u8>, AllocError>
    requires { IsInRange goal.now a.now }
    ensures { IfOk result (λ text. text.items ≡ assignment_text goal.now a.now) }
{
    let mut text = Vec::new(alloc);
    push_assignment(&mut text, goal, a)?;
    Ok(text)
}
