//! How large lists may grow.
ghost use Rattle.lisp_data.specs.declared.limits.ListFault.TheVariants.{Memory};
ghost use Rattle.std.specs.Prelude.{◌≡◌};

use std::alloc::{AllocError, AllocFailed};
use thiserror::Error;

/// How many elements a list of values may have.
pub const MAX_ELEMENTS: u64 = 1_048_576;

/// How deep lists may nest: a list of atoms nests one deep, and each list around it one deeper.
pub const MAX_NESTING: u64 = 1_000;

/// Why a list can't be made.
#[derive(Clone, Copy, Debug, Drop, PartialEq, Eq, Error)]
pub enum ListFault {
    /// It would have too many elements, or nest too deep.
    #[error("a list too long or too deep")]
    Limit,
    /// Memory ran out.
    #[error("out of memory")]
    Memory,
}

impl From<AllocError> for ListFault {
    ghost from_gives = { λ _ e. e ≡ Memory };

    fn from(_error: AllocError) -> ListFault {
        ListFault::Memory
    }
}

impl<T: Drop> From<AllocFailed<T>> for ListFault {
    ghost from_gives = { λ _ e. e ≡ Memory };

    fn from(_error: AllocFailed<T>) -> ListFault {
        ListFault::Memory
    }
}
