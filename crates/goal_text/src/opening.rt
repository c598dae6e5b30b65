//! A token where an operand is to come.

ghost use Rattle.std.specs.Prelude.{◌≡◌, ◌∷◌, [], Some, None, IfOk, nat_le};
ghost use Rattle.goal_text.specs.Giving.{Leaves, LeavesWith};
ghost use Rattle.goal_sort.specs.IsSorted.{node};
ghost use Rattle.goal_text.specs.Grammar.{constant_text};
ghost use Rattle.goal_text.specs.Operands.{wanted_if, room, call, opens_group, sign_opens, opens};

use crate::closing::{highest, leaf};
use crate::fail::StepFail;
use crate::frame::Frame;
use crate::precedence::{arity, prefix_level};
use crate::raw::{Head, Leveled, RawExpr};
use crate::stack::Stack;
use goal_ast::Name;
use goal_token::{Constant, Function, Placed, Sign, Token};
use sqlite_items::Items;
use std::alloc::{AllocError, Global};

// Opens a construct, where it may stand here.
fn push_if(frames: &mut Stack, fits: bool, frame: Frame) -> Result<(), StepFail>
    ensures { Leaves result (frames.new, None) (wanted_if fits (frame ∷ frames.old)) }
{
    if !fits {
        return Err(StepFail::Bad);
    }
    frames.push(frame)?;
    Ok(())
}

// The highest level of the operand that is to come.
fn room(frames: &Stack) -> u8
    ensures { result ≡ room frames.now }
{
    match frames.top() {
        Some(frame) => highest(frame),
        None => 100,
    }
}

// A function before its first argument.
fn call(function: Function, at: u64) -> Frame
    ensures { result ≡ call function at }
{
    if arity(function) == 1 {
        Frame::Last(function, at, None)
    } else {
        Frame::First(function, at)
    }
}

fn opens_group(frames: &mut Stack, sign: Sign) -> Result<(), StepFail>
    ensures { Leaves result (frames.new, None) (opens_group sign frames.old) }
{
    if sign != Sign::Open {
        return Err(StepFail::Bad);
    }
    frames.push(Frame::Open)?;
    Ok(())
}

fn sign_opens(frames: &mut Stack, sign: Sign, at: u64) -> Result<(), StepFail>
    ensures { Leaves result (frames.new, None) (sign_opens sign at frames.old) }
{
    match prefix_level(sign) {
        Some(level) => {
            let fits = level <= room(frames);
            push_if(frames, fits, Frame::Prefix(sign, at))
        }
        None => opens_group(frames, sign),
    }
}

fn function_opens(frames: &mut Stack, function: Function, at: u64) -> Result<(), StepFail>
    ensures { Leaves result (frames.new, None) (wanted_if (nat_le 10 (room frames.old)) (call function at ∷ frames.old)) }
{
    let fits = 10 <= room(frames);
    push_if(frames, fits, call(function, at))
}

fn constant_text(constant: Constant) -> &'static [u8]
    ensures { result.now ≡ constant_text constant }
{
    match constant {
        Constant::True => b"True",
        Constant::False => b"False",
        Constant::BoolTrue => b"true",
        Constant::BoolFalse => b"false",
    }
}

// The name of a constant.
fn constant_name(alloc: Global, constant: Constant) -> Result<Name, AllocError>
    ensures { IfOk result (λ name. name.bytes ≡ constant_text constant) }
{
    let bytes = Items::from_slice(alloc, constant_text(constant))?;
    Ok(Name { bytes })
}

// An operand of one token.
fn operand(alloc: Global, head: Head, at: u64) -> Option<Leveled>
    ensures { result ≡ Some (node head at [], 0) }
{
    Some((leaf(alloc, head, at), 0))
}

/// Reads a token where an operand is to come. The operand is returned if it is whole.
pub fn opens(alloc: Global, frames: &mut Stack, token: Placed) -> Result<Option<Leveled>, StepFail>
    ensures { LeavesWith result frames.new (opens token.token token.at frames.old) }
{
    let Placed { token, at } = token;
    match token {
        Token::Literal(value) => Ok(operand(alloc, Head::Lit(value), at)),
        Token::Name(name) => Ok(operand(alloc, Head::Name(name), at)),
        Token::Constant(constant) => {
            let name = constant_name(alloc, constant)?;
            Ok(operand(alloc, Head::Name(name), at))
        }
        Token::Function(function) => {
            function_opens(frames, function, at)?;
            Ok(None)
        }
        Token::Sign(sign) => {
            sign_opens(frames, sign, at)?;
            Ok(None)
        }
        Token::Keyword(_) | Token::Sort(_) | Token::Wrong => Err(StepFail::Bad),
    }
}
