//! A token after a whole operand.

ghost use Rattle.std.specs.Prelude.{◌≡◌};
ghost use Rattle.goal_text.specs.Giving.{Leaves, LeavesWith};
ghost use Rattle.goal_text.specs.Innermost.{is_at_first, with_first};
ghost use Rattle.goal_text.specs.Operands.{closes_group, sign_follows, token_follows, follows};

use crate::fail::StepFail;
use crate::frame::Frame;
use crate::joining::{ends_group, joins};
use crate::opening::opens;
use crate::precedence::infix_levels;
use crate::raw::{Leveled, RawExpr};
use crate::stack::Stack;
use goal_token::{Placed, Sign, Token};
use std::alloc::Global;

fn closes_group(
    alloc: Global,
    frames: &mut Stack,
    sign: Sign,
    expr: RawExpr,
) -> Result<Option<Leveled>, StepFail>
    ensures { LeavesWith result frames.new (closes_group sign frames.old expr) }
{
    if sign != Sign::Close {
        return Err(StepFail::Bad);
    }
    ends_group(alloc, frames, expr)
}

fn sign_follows(
    alloc: Global,
    frames: &mut Stack,
    sign: Sign,
    at: u64,
    whole: Leveled,
) -> Result<Option<Leveled>, StepFail>
    ensures { LeavesWith result frames.new (sign_follows sign at frames.old whole) }
{
    match infix_levels(sign) {
        Some(levels) => {
            joins(alloc, frames, sign, at, levels, whole)?;
            Ok(None)
        }
        None => closes_group(alloc, frames, sign, whole.0),
    }
}

fn token_follows(
    alloc: Global,
    frames: &mut Stack,
    whole: Leveled,
    token: Placed,
) -> Result<Option<Leveled>, StepFail>
    ensures { LeavesWith result frames.new (token_follows token.token token.at frames.old whole) }
{
    let Placed { token, at } = token;
    match token {
        Token::Sign(sign) => sign_follows(alloc, frames, sign, at, whole),
        _ => Err(StepFail::Bad),
    }
}

// Whether the operand is the first of two arguments.
fn is_at_first(frames: &Stack) -> bool
    ensures { result ≡ is_at_first frames.now }
{
    matches!(frames.top(), Some(Frame::First(_, _)))
}

// Gives a function the first of its two arguments.
fn take_first(frames: &mut Stack, expr: RawExpr) -> Result<(), StepFail>
    ensures { Leaves result frames.new (with_first frames.old expr) }
{
    let Some(Frame::First(function, at)) = frames.pop() else {
        return Err(StepFail::Bad);
    };
    frames.push(Frame::Last(function, at, Some(expr)))?;
    Ok(())
}

/// Reads a token after a whole operand. The next operand is returned if it is whole.
#[tactic(auto, using(crate::proofs::InnermostLaws::follows_other, crate::proofs::InnermostLaws::follows_first, crate::proofs::InnermostLaws::first_is_there))]
pub fn follows(
    alloc: Global,
    frames: &mut Stack,
    whole: Leveled,
    token: Placed,
) -> Result<Option<Leveled>, StepFail>
    ensures { LeavesWith result frames.new (follows token.token token.at frames.old whole) }
{
    if !is_at_first(frames) {
        return token_follows(alloc, frames, whole, token);
    }
    take_first(frames, whole.0)?;
    opens(alloc, frames, token)
}
