//! Why a generic function or a method can't be defined, added or removed.
ghost use Rattle.std.specs.Prelude.{◌≡◌};
ghost use Rattle.clos_generic.specs.declared.fault.GenericFault.TheVariants.{Memory};

use std::alloc::{AllocError, AllocFailed};
use std::fmt::{self, Debug, Formatter, Write};
use thiserror::Error;

/// Why a generic function or a method can't be defined, added or removed (HyperSpec 7.6.4, 7.7). The table stays as it was.
#[derive(Drop, Error)]
pub enum GenericFault {
    /// The lambda lists of a function and of a method of it are not congruent.
    #[error("a lambda list that is not congruent")]
    Incongruent,
    /// The function has no such method.
    #[error("no such method")]
    NoSuchMethod,
    /// The function or the method is the system's, or an eql specializer has an object that EQL tells by identity.
    #[error("not supported")]
    Unsupported,
    /// There are as many as there may be.
    #[error("the table of generic functions is full")]
    TableLimit,
    /// Memory was refused.
    #[error("out of memory")]
    Memory,
}

impl Debug for GenericFault {
    fn fmt<W: Write>(&self, f: &mut Formatter<W>) -> fmt::Result {
        fmt::Display::fmt(self, f)
    }
}

impl From<AllocError> for GenericFault {
    ghost from_gives = { λ _ e. e ≡ Memory };

    fn from(_refusal: AllocError) -> GenericFault {
        GenericFault::Memory
    }
}

impl<T: Drop> From<AllocFailed<T>> for GenericFault {
    ghost from_gives = { λ _ e. e ≡ Memory };

    fn from(_refusal: AllocFailed<T>) -> GenericFault {
        GenericFault::Memory
    }
}
