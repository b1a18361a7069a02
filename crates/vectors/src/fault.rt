// Why no case is read of a line.
ghost use Rattle.std.specs.Prelude.{◌≡◌};
ghost use Rattle.vectors.specs.declared.fault.CaseFault.TheVariants.{NotANumber, OutOfMemory};

use std::alloc::{AllocError, AllocFailed};
use std::num::ParseIntError;
use thiserror::Error;

#[derive(Debug, Drop, Error)]
pub enum CaseFault {
    #[error(transparent)]
    NotANumber(ParseIntError),
    #[error("more digits than are read")]
    TooManyDigits,
    #[error("memory allocation failed")]
    OutOfMemory,
}

// By hand: a From that thiserror writes has no contract.
impl From<ParseIntError> for CaseFault {
    ghost from_gives = { λ e r. r ≡ NotANumber e };

    fn from(error: ParseIntError) -> CaseFault {
        Self::NotANumber(error)
    }
}

impl<T: Drop> From<AllocFailed<T>> for CaseFault {
    ghost from_gives = { λ _ r. r ≡ OutOfMemory };

    fn from(_failed: AllocFailed<T>) -> CaseFault {
        Self::OutOfMemory
    }
}
