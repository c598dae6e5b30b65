//! Goals.

ghost use Rattle.std.specs.Prelude.{◌≡◌, ◌++◌, IfOk, OnOk};
ghost use Rattle.goal_print.specs.Text.{goal_text};

use crate::binders::push_binders;
use crate::formula::push_bare;
use goal_ast::Goal;
use std::alloc::{AllocError, Global};

/// Appends the text of a goal. `Err` where there is no memory.
pub fn push_goal(out: &mut Vec<u8>, goal: &Goal) -> Result<(), AllocError>
    ensures { OnOk result (out.new.items ≡ out.old.items ++ goal_text goal.now) }
{
    push_binders(out, goal.vars.as_slice())?;
    push_bare(out, goal.vars.as_slice(), &goal.body)
}

/// The text of a goal: `forall`, the variables that it binds and a comma, where it binds any, and then its body. A
/// number of no variable has no text. `Err` where there is no memory.
pub fn print_goal(alloc: Global, goal: &Goal) -> Result<Vec<u8>, AllocError>
    ensures { IfOk result (λ text. text.items ≡ goal_text goal.now) }
{
    let mut text = Vec::new(alloc);
    push_goal(&mut text, goal)?;
    Ok(text)
}
