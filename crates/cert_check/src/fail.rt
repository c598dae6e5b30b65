ghost use Rattle.std.specs.Prelude.{◌≡◌};
ghost use Rattle.cert_check.specs.declared.fail.CheckFail.TheVariants.{NoMemory};

use cert_kit::Fault;
use std::alloc::AllocError;

/// Why a walk ended early.
#[derive(Clone, Copy, Debug, PartialEq, Eq)]
pub enum CheckFail {
    /// The certificate has this fault.
    Wrong(Fault),
    /// Memory ran out.
    NoMemory,
}

impl From<AllocError> for CheckFail {
    ghost from_gives = { λ _ e. e ≡ NoMemory };

    fn from(_e: AllocError) -> CheckFail {
        CheckFail::NoMemory
    }
}
