//! Why a combination is not defined, or not used.
ghost use Rattle.std.specs.Prelude.{◌≡◌};
ghost use Rattle.clos_comb.specs.declared.fault.CombinationFault.TheVariants.{Memory};

use std::alloc::{AllocError, AllocFailed};
use thiserror::Error;

/// Why a combination is not defined (HyperSpec 7.7 `define-method-combination`). The table stays as it was.
#[derive(Clone, Copy, Debug, Drop, PartialEq, Eq, Error)]
pub enum CombinationFault {
    /// The system's combinations are not defined again.
    #[error("a combination of the system's")]
    Predefined,
    /// There are as many as there may be.
    #[error("the table of combinations is full")]
    TableLimit,
    /// Memory was refused.
    #[error("out of memory")]
    Memory,
}

/// Why a combination is not used (HyperSpec 7.7 `defgeneric`).
#[derive(Clone, Copy, Debug, Drop, PartialEq, Eq, Error)]
pub enum UseFault {
    /// There is none of this name.
    #[error("no such combination")]
    Undefined,
    /// It does not take these arguments.
    #[error("arguments that do not fit the combination")]
    Arguments,
}

impl From<AllocError> for CombinationFault {
    ghost from_gives = { λ _ e. e ≡ Memory };

    fn from(_refusal: AllocError) -> CombinationFault {
        CombinationFault::Memory
    }
}

impl<T: Drop> From<AllocFailed<T>> for CombinationFault {
    ghost from_gives = { λ _ e. e ≡ Memory };

    fn from(_refusal: AllocFailed<T>) -> CombinationFault {
        CombinationFault::Memory
    }
}
