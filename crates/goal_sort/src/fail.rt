ghost use Rattle.std.specs.Prelude.{◌≡◌};
ghost use Rattle.goal_sort.specs.declared.fail.SortFail.TheVariants.{NoMemory};

use std::alloc::{AllocError, AllocFailed};

/// Why a goal as it was read isn't a goal.
#[derive(Clone, Copy, Debug, PartialEq, Eq)]
pub enum SortFail {
    /// The sorts don't fit together; the place says where.
    IllSorted { at: u64 },
    /// Memory ran out.
    NoMemory,
}

impl From<AllocError> for SortFail {
    ghost from_gives = { λ _ e. e ≡ NoMemory };

    fn from(_e: AllocError) -> SortFail {
        SortFail::NoMemory
    }
}

impl<T: Drop> From<AllocFailed<T>> for SortFail {
    ghost from_gives = { λ _ e. e ≡ NoMemory };

    fn from(_e: AllocFailed<T>) -> SortFail {
        SortFail::NoMemory
    }
}
