//! What a sign, a closing parenthesis or the end does to the constructs that are open.

ghost use Rattle.std.specs.Prelude.{◌≡◌, ◌∷◌, [], ◌<◌, true, None, Some, length, OnOk};
ghost use Rattle.goal_text.specs.Giving.{Gives, Leaves, LeavesWith};
ghost use Rattle.goal_text.specs.Innermost.{is_chained, chains_top, ends_top, chained_top, landed, closed_top, is_group, is_in_group};
ghost use Rattle.goal_text.specs.Operands.{attached, joins, ends_group, finished};

use crate::closing::{closed, highest};
use crate::fail::StepFail;
use crate::frame::Frame;
use crate::precedence::{Levels, can_chain};
use crate::raw::{Leveled, RawExpr};
use crate::stack::Stack;
use goal_token::Sign;
use std::alloc::Global;

// The sign takes what is whole as its left side.
fn attach(frames: &mut Stack, sign: Sign, at: u64, left: u8, whole: Leveled) -> Result<(), StepFail>
    ensures { Leaves result (frames.new, None) (attached sign at left frames.old whole) }
{
    let (expr, level) = whole;
    if level > left {
        return Err(StepFail::Bad);
    }
    frames.push(Frame::Infix(sign, at, expr))?;
    Ok(())
}

// Whether a second comparison makes a chain of the construct.
fn is_chained(frame: &Frame, sign: Sign) -> bool
    ensures { result ≡ is_chained frame.now sign }
{
    match frame {
        Frame::Infix(first, _, _) => can_chain(*first) && can_chain(sign),
        _ => false,
    }
}

// Whether it makes a chain of the innermost.
fn chains_top(frames: &Stack, sign: Sign) -> bool
    ensures { result ≡ chains_top sign frames.now }
{
    match frames.top() {
        Some(frame) => is_chained(frame, sign),
        None => false,
    }
}

// Whether a sign of this level ends the innermost.
fn ends_top(frames: &Stack, sign: Sign, level: u8) -> bool
    ensures { result ≡ ends_top sign level frames.now }
{
    match frames.top() {
        Some(frame) => !is_chained(frame, sign) && highest(frame) < level,
        None => false,
    }
}

// Makes a chain of the innermost.
fn chain_top(frames: &mut Stack, sign: Sign, expr: RawExpr) -> Result<(), StepFail>
    requires { chains_top sign frames.old ≡ true }
    ensures { Leaves result (frames.new, None) (chained_top sign expr frames.old) }
{
    let Some(Frame::Infix(first, at, left)) = frames.pop() else {
        return Err(StepFail::Bad);
    };
    frames.push(Frame::Chain(first, at, sign, left, expr))?;
    Ok(())
}

// Opens the sign, which ends nothing.
fn land(frames: &mut Stack, sign: Sign, at: u64, left: u8, whole: Leveled) -> Result<(), StepFail>
    ensures { Leaves result (frames.new, None) (landed sign at left frames.old whole) }
{
    if chains_top(frames, sign) {
        return chain_top(frames, sign, whole.0);
    }
    attach(frames, sign, at, left, whole)
}

// Ends the innermost by its last operand.
fn close_top(alloc: Global, frames: &mut Stack, expr: RawExpr) -> Result<Leveled, StepFail>
    ensures closed { LeavesWith result frames.new (closed_top frames.old expr) }
    ensures shorter { OnOk result (length frames.new < length frames.old) }
{
    let Some(frame) = frames.pop() else {
        return Err(StepFail::Bad);
    };
    closed(alloc, frame, expr)
}

/// A sign after a whole operand ends the constructs that have no room for it, from the innermost on.
#[tactic(auto, using(crate::proofs::InnermostLaws::joins_landed, crate::proofs::InnermostLaws::joins_step, crate::proofs::InnermostLaws::joins_fails))]
pub fn joins(
    alloc: Global,
    frames: &mut Stack,
    sign: Sign,
    at: u64,
    levels: Levels,
    mut whole: Leveled,
) -> Result<(), StepFail>
    ensures { Leaves result (frames.new, None) (joins sign at levels frames.old whole) }
{
    while ends_top(frames, sign, levels.level) {
        whole = close_top(alloc, frames, whole.0)?;
    }
    land(frames, sign, at, levels.left, whole)
}

// Whether the innermost is a parenthesis.
fn is_in_group(frames: &Stack) -> bool
    ensures { result ≡ is_in_group frames.now }
{
    matches!(frames.top(), Some(Frame::Open))
}

// Ends the parenthesis that is innermost.
fn close_group(frames: &mut Stack)
    requires { is_in_group frames.old ≡ true }
    ensures { frames.old ≡ Frame.Open ∷ frames.new }
{
    let _group = frames.pop();
}

/// A closing parenthesis ends all up to the innermost open one.
#[tactic(auto, using(crate::proofs::InnermostLaws::group_step, crate::proofs::InnermostLaws::group_fails, crate::proofs::InnermostLaws::group_ends))]
pub fn ends_group(
    alloc: Global,
    frames: &mut Stack,
    mut expr: RawExpr,
) -> Result<Option<Leveled>, StepFail>
    ensures { LeavesWith result frames.new (ends_group frames.old expr) }
{
    while !is_in_group(frames) {
        expr = close_top(alloc, frames, expr)?.0;
    }
    close_group(frames);
    Ok(Some((expr, 0)))
}

/// The end of the expression ends all that is open.
#[tactic(auto, using(crate::proofs::InnermostLaws::finish_step, crate::proofs::InnermostLaws::finish_fails))]
pub fn finished(alloc: Global, mut frames: Stack, mut expr: RawExpr) -> Result<RawExpr, StepFail>
    ensures { Gives result (finished frames expr) }
{
    while !frames.is_empty() {
        expr = close_top(alloc, &mut frames, expr)?.0;
    }
    Ok(expr)
}
