//! What a report says of a goal.

ghost use Rattle.std.specs.Prelude.{◌≡◌, ◌++◌, ◌∷◌, [], map, IfOk, OnOk};
ghost use Rattle.goal_ast.specs.Range.{IsInRange};
ghost use Rattle.goal_serve.specs.Line.{Row, lines_text};
ghost use Rattle.goal_serve.specs.Reply.{clause_lines, shown_lines, value_lines, reply_lines, IsPrintable};

use crate::answers::{Answer, Shown};
use crate::lines::{push_clause, push_oversize, push_proved, push_refuted, push_unsettled};
use cert_kit::PRow;
use cert_text::{push_cert_line, push_row_line};
use goal_ast::{Assignment, Goal};
use goal_print::push_assignment;
use std::alloc::{AllocError, Global};

fn push_rows(out: &mut Vec<u8>, rows: &[PRow]) -> Result<(), AllocError>
    ensures { OnOk result (out.new.items ≡ out.old.items ++ lines_text (map Row rows.now)) }
{
    for row in rows {
        push_row_line(out, row)?;
    }
    Ok(())
}

fn push_shown(out: &mut Vec<u8>, number: u64, shown: &Shown) -> Result<(), AllocError>
    ensures { OnOk result (out.new.items ≡ out.old.items ++ lines_text (clause_lines number shown.now)) }
{
    push_clause(out, number, &shown.clause, shown.origin)?;
    push_rows(out, shown.clause.rows.as_slice())?;
    push_cert_line(out, &shown.cert)
}

fn push_all_shown(out: &mut Vec<u8>, shown: &[Shown]) -> Result<(), AllocError>
    ensures { OnOk result (out.new.items ≡ out.old.items ++ lines_text (shown_lines 0 shown.now)) }
{
    for number in 0..shown.len() {
        push_shown(out, number as u64, &shown[number])?;
    }
    Ok(())
}

fn push_values(out: &mut Vec<u8>, goal: &Goal, a: &Assignment) -> Result<(), AllocError>
    requires { IsInRange goal.now a.now }
    ensures { OnOk result (out.new.items ≡ out.old.items ++ lines_text (value_lines goal.now.vars a.now.values)) }
{
    push_assignment(out, goal, a)
}

/// Appends what a report says of a goal after the goal's own line. `Err` where there is no memory; that is also the
/// answer where a clause has 2^32 rows or more.
pub fn push_answer(out: &mut Vec<u8>, goal: &Goal, answer: &Answer) -> Result<(), AllocError>
    requires { IsPrintable goal.now answer.now }
    ensures { OnOk result (out.new.items ≡ out.old.items ++ lines_text (reply_lines goal.now answer.now)) }
{
    match answer {
        Answer::Proved(shown) => {
            push_proved(out, shown.as_slice().len() as u64)?;
            push_all_shown(out, shown.as_slice())
        }
        Answer::Refuted(a) => {
            push_refuted(out)?;
            push_values(out, goal, a)
        }
        Answer::Unsettled { clause, why } => push_unsettled(out, u64::from(*clause), *why),
        Answer::Oversize(kind) => push_oversize(out, *kind),
        Answer::IllSorted { .. } => unreachable!(),
    }
}

/// What a report says of a goal after the goal's own line: the clauses with their certificates, the assignment, or why
/// there is neither. `Err` as for `push_answer`.
pub fn print_answer(alloc: Global, goal: &Goal, answer: &Answer) -> Result<Vec<u8>, AllocError>
    requires { IsPrintable goal.now answer.now }
    ensures { IfOk result (λ text. text.items ≡ lines_text (reply_lines goal.now answer.now)) }
{
    let mut out = Vec::new(alloc);
    push_answer(&mut out, goal, answer)?;
    Ok(out)
}
