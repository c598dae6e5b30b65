ghost use Rattle.std.specs.Prelude.{◌≡◌};
ghost use Rattle.mm_poly.specs.declared.fail.PolyFail.TheVariants.{NoMemory};

use std::alloc::AllocError;
use thiserror::Error;

/// Why there is no result.
#[derive(Clone, Copy, Debug, Error, PartialEq, Eq)]
pub enum PolyFail {
    /// The bounds of the parts don't leave room for the result.
    #[error("the polynomial is too big")]
    Big,
    /// Memory ran out.
    #[error("out of memory")]
    NoMemory,
}

impl From<AllocError> for PolyFail {
    ghost from_gives = { λ _ e. e ≡ NoMemory };

    fn from(_e: AllocError) -> PolyFail {
        PolyFail::NoMemory
    }
}
