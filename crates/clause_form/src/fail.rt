ghost use Rattle.std.specs.Prelude.{◌≡◌};
ghost use Rattle.clause_form.specs.declared.fail.ClauseFail.TheVariants.{NoMemory};

use std::alloc::AllocError;

/// Why a goal has no list of clauses.
#[derive(Clone, Copy, Debug, PartialEq, Eq)]
pub enum ClauseFail {
    /// There are more than 4,096. This is their number, or `u64::MAX` where it is larger.
    Splits(u64),
    /// Memory ran out.
    NoMemory,
}

impl From<AllocError> for ClauseFail {
    ghost from_gives = { λ _ e. e ≡ NoMemory };

    fn from(_e: AllocError) -> ClauseFail {
        ClauseFail::NoMemory
    }
}
