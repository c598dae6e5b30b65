ghost use Rattle.std.specs.Prelude.{◌≡◌, [], ◌∷◌, None};
ghost use Rattle.goal_text.specs.Giving.{Gives, Leaves};
ghost use Rattle.goal_text.specs.Operands.{with_token, read_of};

use crate::fail::StepFail;
use crate::following::follows;
use crate::joining::finished;
use crate::opening::opens;
use crate::raw::{Leveled, RawExpr};
use crate::stack::Stack;
use goal_token::Placed;
use std::alloc::Global;
use std::marker::Model;

/// An expression that is being read: the constructs that are open, and the operand that is whole, with its level, or
/// none where one is to come.
#[derive(Debug, Drop)]
pub struct Operands {
    open: Stack,
    last: Option<Leveled>,
}

impl Model for Operands {
    ghost use Rattle.std.specs.Coded.{codes};
    ghost use Rattle.goal_sort.specs.contracts.raw.RawExpr as raw;
    ghost use Rattle.goal_text.specs.contracts.frame.Frame as frame;
    ghost use Rattle.goal_text.specs.Operands.{Reading};

    ghost Value = { Reading };

    ghost coded = { Prim.hlevel (codes, raw.the_row.coded, frame.the_row.coded) };

    ghost view = { λ r. (r.open, r.last) };
}

impl Operands {
    /// Nothing was read.
    pub fn new(alloc: Global) -> Operands
        ensures { result ≡ ([], None) }
    {
        Operands {
            open: Stack::new(alloc),
            last: None,
        }
    }

    /// Reads one more token, where it may stand. After a failure the expression is of no use.
    pub fn step(self, alloc: Global, token: Placed) -> Result<Operands, StepFail>
        ensures { Gives result (with_token self token) }
    {
        let Operands { mut open, last } = self;
        let last = match last {
            None => opens(alloc, &mut open, token)?,
            Some(whole) => follows(alloc, &mut open, whole, token)?,
        };
        Ok(Operands { open, last })
    }

    /// The expression, where it is whole.
    pub fn finish(self, alloc: Global) -> Result<RawExpr, StepFail>
        ensures { Gives result (read_of self) }
    {
        let Operands { open, last } = self;
        match last {
            Some((expr, _)) => finished(alloc, open, expr),
            None => Err(StepFail::Bad),
        }
    }
}
