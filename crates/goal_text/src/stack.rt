ghost use Rattle.std.specs.Prelude.{◌≡◌, ◌↔◌, [], ◌∷◌, IsTrue, OnOk, MatchOption, slice_get};
ghost use Rattle.std.specs.Option.{option_copied};

use crate::frame::Frame;
use std::alloc::{AllocError, Global};
use std::marker::Model;

/// The constructs that are open. Contracts see them from the innermost out.
#[derive(Debug, Drop)]
pub struct Stack {
    frames: Vec<Frame>,
}

impl Model for Stack {
    ghost use Rattle.std.specs.Prelude.{List, reverse};
    ghost use Rattle.std.specs.Coded.{coded_list};
    ghost use Rattle.goal_text.specs.declared.frame.Frame.{Frame};
    ghost use Rattle.goal_text.specs.contracts.frame.Frame as frame;

    ghost Value = { List Frame };

    ghost coded = { coded_list frame.the_row.coded };

    ghost view = { λ s. reverse s.frames.items };
}

impl Stack {
    /// Nothing is open.
    pub fn new(alloc: Global) -> Stack
        ensures { result ≡ [] }
    {
        Stack {
            frames: Vec::new(alloc),
        }
    }

    /// Opens one more.
    pub fn push(&mut self, frame: Frame) -> Result<(), AllocError>
        ensures { OnOk result (self.new ≡ frame ∷ self.old) }
    {
        self.frames.push(frame)?;
        Ok(())
    }

    /// Takes the innermost.
    pub fn pop(&mut self) -> Option<Frame>
        ensures { MatchOption result ((self.old ≡ []) × (self.new ≡ [])) (λ f. self.old ≡ f ∷ self.new) }
    {
        self.frames.pop()
    }

    /// Whether nothing is open.
    pub fn is_empty(&self) -> bool
        ensures { IsTrue result ↔ (self.now ≡ []) }
    {
        self.frames.is_empty()
    }

    /// The innermost.
    pub fn top(&self) -> Option<&Frame>
        ensures { option_copied result ≡ slice_get self.now 0 }
    {
        self.frames.last()
    }
}
