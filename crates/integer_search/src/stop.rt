ghost use Rattle.std.specs.Prelude.{◌≡◌};
ghost use Rattle.integer_search.specs.declared.stop.Stop.TheVariants.{NoMemory};

use std::alloc::AllocError;

/// Why a search ended early.
#[derive(Clone, Copy, Debug, PartialEq, Eq)]
pub enum Stop {
    /// Memory ran out.
    NoMemory,
    /// A number got too great, or the turns are taken.
    Lost,
}

impl From<AllocError> for Stop {
    ghost from_gives = { λ _ e. e ≡ NoMemory };

    fn from(_e: AllocError) -> Stop {
        Stop::NoMemory
    }
}

/// Appends an item.
pub fn push<T: Drop>(items: &mut Vec<T>, item: T) -> Result<(), Stop> {
    match items.push(item) {
        Ok(()) => Ok(()),
        Err(_) => Err(Stop::NoMemory),
    }
}
