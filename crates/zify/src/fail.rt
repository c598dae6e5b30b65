ghost use Rattle.std.specs.Prelude.{◌≡◌};
ghost use Rattle.zify.specs.declared.fail.ZFail.TheVariants.{NoMemory};

use std::alloc::AllocError;

/// Why a goal has no translation.
#[derive(Clone, Copy, Debug, PartialEq, Eq)]
pub enum ZFail {
    /// The weight of some atom is 2^100 or more.
    Weight,
    /// The spread of some atom is above 256, and no atom's weight reaches its limit.
    Spread,
    /// The degree of some atom is above 8, and no other limit is passed.
    Degree,
    /// Memory ran out.
    NoMemory,
}

impl From<AllocError> for ZFail {
    ghost from_gives = { λ _ e. e ≡ NoMemory };

    fn from(_e: AllocError) -> ZFail {
        ZFail::NoMemory
    }
}
