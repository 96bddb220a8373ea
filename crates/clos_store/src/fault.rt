//! Why an instance or a cell can't be made.
ghost use Rattle.std.specs.Prelude.{◌≡◌};
ghost use Rattle.clos_store.specs.declared.fault.StoreFault.TheVariants.{Memory};

use std::alloc::{AllocError, AllocFailed};
use std::fmt::{self, Debug, Formatter, Write};
use thiserror::Error;

/// Why an instance or a cell can't be made. The store stays as it was.
#[derive(Drop, Error)]
pub enum StoreFault {
    /// There are as many as there may be.
    #[error("the table is full")]
    TableLimit,
    /// Memory was refused.
    #[error("out of memory")]
    Memory,
}

impl Debug for StoreFault {
    fn fmt<W: Write>(&self, f: &mut Formatter<W>) -> fmt::Result {
        fmt::Display::fmt(self, f)
    }
}

impl From<AllocError> for StoreFault {
    ghost from_gives = { λ _ e. e ≡ Memory };

    fn from(_refusal: AllocError) -> StoreFault {
        StoreFault::Memory
    }
}

impl<T: Drop> From<AllocFailed<T>> for StoreFault {
    ghost from_gives = { λ _ e. e ≡ Memory };

    fn from(_refusal: AllocFailed<T>) -> StoreFault {
        StoreFault::Memory
    }
}
