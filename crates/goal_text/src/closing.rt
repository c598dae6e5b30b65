ghost use Rattle.std.specs.Prelude.{◌≡◌, ◌∷◌, [], IfOk, map};
ghost use Rattle.goal_sort.specs.IsSorted.{node};
ghost use Rattle.goal_text.specs.Giving.{Gives};
ghost use Rattle.goal_text.specs.Operands.{highest, prefix_of, right_of, level_of, closed, arguments};

use crate::fail::StepFail;
use crate::frame::Frame;
use crate::precedence::{infix_levels, prefix_level};
use crate::raw::{Head, Leveled, RawExpr};
use goal_token::Sign;
use sqlite_items::Items;
use std::alloc::{AllocError, Global};

// The highest level of the operand right after a sign.
fn right_of(sign: Sign) -> u8
    ensures { result ≡ right_of sign }
{
    infix_levels(sign).map_or(0, |levels| levels.right)
}

fn level_of(sign: Sign) -> u8
    ensures { result ≡ level_of sign }
{
    infix_levels(sign).map_or(0, |levels| levels.level)
}

fn prefix_of(sign: Sign) -> u8
    ensures { result ≡ prefix_of sign }
{
    prefix_level(sign).unwrap_or(0)
}

/// The highest level of what may come next in an open construct.
pub fn highest(frame: &Frame) -> u8
    ensures { result ≡ highest frame.now }
{
    match frame {
        Frame::Open => 100,
        Frame::Prefix(sign, _) => prefix_of(*sign),
        Frame::Infix(sign, _, _) => right_of(*sign),
        Frame::Chain(_, _, _, _, _) => 69,
        Frame::First(_, _) | Frame::Last(_, _, _) => 9,
    }
}

// A node with these parts.
fn node(head: Head, at: u64, parts: Vec<RawExpr>) -> RawExpr
    ensures { result ≡ node head at parts.items }
{
    RawExpr {
        head,
        at,
        parts: Items::from_vec(parts),
    }
}

/// An expression of one token.
pub fn leaf(alloc: Global, head: Head, at: u64) -> RawExpr
    ensures { result ≡ node head at [] }
{
    node(head, at, Vec::new(alloc))
}

// The arguments of a function.
fn arguments(
    alloc: Global,
    before: Option<RawExpr>,
    last: RawExpr,
) -> Result<Vec<RawExpr>, AllocError>
    ensures { IfOk result (λ parts. parts.items ≡ arguments before last) }
{
    match before {
        Some(before) => Ok(vec![in alloc; before, last]?),
        None => Ok(vec![in alloc; last]?),
    }
}

/// What an open construct is with its last operand, where an operand ends it, and its level.
pub fn closed(alloc: Global, frame: Frame, last: RawExpr) -> Result<Leveled, StepFail>
    ensures { Gives result (closed frame last) }
{
    match frame {
        Frame::Open | Frame::First(_, _) => Err(StepFail::Bad),
        Frame::Prefix(sign, at) => {
            let head = Head::Prefix(sign.number());
            Ok((node(head, at, vec![in alloc; last]?), prefix_of(sign)))
        }
        Frame::Infix(sign, at, left) => {
            let head = Head::Infix(sign.number());
            Ok((node(head, at, vec![in alloc; left, last]?), level_of(sign)))
        }
        Frame::Chain(first, at, second, left, middle) => {
            let head = Head::Chain(first.number(), second.number());
            Ok((node(head, at, vec![in alloc; left, middle, last]?), 70))
        }
        Frame::Last(function, at, before) => {
            let head = Head::Apply(function.number());
            Ok((node(head, at, arguments(alloc, before, last)?), 10))
        }
    }
}
