ghost use Rattle.std.specs.Prelude.{◌≡◌};
ghost use Rattle.goal_text.specs.declared.fail.StepFail.TheVariants.{NoMemory};
ghost use Rattle.goal_text.specs.declared.fail.TextFail.TheVariants as text;

use std::alloc::{AllocError, AllocFailed};

/// Why bytes weren't read as a goal file.
#[derive(Clone, Copy, Debug, PartialEq, Eq)]
pub enum TextFail {
    /// No goal file has the token at this place after the tokens before it.
    Bad { at: u64 },
    /// A body has more than 2,048 tokens, or a goal binds more than 256 names; the place of the first one too many.
    Long { at: u64 },
    /// There are more than 64 sessions or 1,024 goals; the place of the first one too many.
    Many { at: u64 },
    /// Memory ran out.
    NoMemory,
}

/// Why a token wasn't read.
#[derive(Clone, Copy, Debug, PartialEq, Eq)]
pub enum StepFail {
    /// It may not stand there.
    Bad,
    /// Memory ran out.
    NoMemory,
}

impl From<AllocError> for StepFail {
    ghost from_gives = { λ _ e. e ≡ NoMemory };

    fn from(_e: AllocError) -> StepFail {
        StepFail::NoMemory
    }
}

impl<T: Drop> From<AllocFailed<T>> for StepFail {
    ghost from_gives = { λ _ e. e ≡ NoMemory };

    fn from(_e: AllocFailed<T>) -> StepFail {
        StepFail::NoMemory
    }
}

impl From<AllocError> for TextFail {
    ghost from_gives = { λ _ e. e ≡ text.NoMemory };

    fn from(_e: AllocError) -> TextFail {
        TextFail::NoMemory
    }
}
