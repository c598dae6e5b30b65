ghost use Rattle.std.specs.Prelude.{◌≡◌};
ghost use Rattle.cert_text.specs.declared.fail.TextFail.TheVariants.{NoMemory};
ghost use Rattle.cert_text.specs.declared.fail.CheckText.TheVariants.{NoMemory as CheckNoMemory};

use std::alloc::{AllocError, AllocFailed};

/// Why bytes aren't a check.
#[derive(Clone, Copy, Debug, PartialEq, Eq)]
pub enum CheckText {
    /// The line at this place is the first that doesn't fit.
    Bad { at: u64 },
    /// Memory ran out.
    NoMemory,
}

impl From<AllocError> for CheckText {
    ghost from_gives = { λ _ e. e ≡ CheckNoMemory };

    fn from(_e: AllocError) -> CheckText {
        CheckText::NoMemory
    }
}

/// Why a part of the bytes wasn't read.
#[derive(Clone, Copy, Debug, PartialEq, Eq)]
pub enum TextFail {
    /// They don't begin with such a text.
    Bad,
    /// Memory ran out.
    NoMemory,
}

impl From<AllocError> for TextFail {
    ghost from_gives = { λ _ e. e ≡ NoMemory };

    fn from(_e: AllocError) -> TextFail {
        TextFail::NoMemory
    }
}

impl<T: Drop> From<AllocFailed<T>> for TextFail {
    ghost from_gives = { λ _ e. e ≡ NoMemory };

    fn from(_e: AllocFailed<T>) -> TextFail {
        TextFail::NoMemory
    }
}
