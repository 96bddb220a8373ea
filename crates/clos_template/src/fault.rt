//! Why a template gives no datum.
ghost use Rattle.std.specs.Prelude.{◌≡◌};
ghost use Rattle.clos_template.specs.declared.fault.ExpansionFault.TheVariants.{Memory};

use std::alloc::{AllocError, AllocFailed};
use thiserror::Error;

/// Why a template gives no datum.
#[derive(Clone, Copy, Debug, Drop, PartialEq, Eq, Error)]
pub enum ExpansionFault {
    /// A name is unknown, or an argument has a wrong type.
    #[error("an unknown name or an argument of a wrong type")]
    Bad,
    /// There would be a cons too many, or a list too deep.
    #[error("too many conses or too deep a list")]
    Beyond,
    /// Memory ran out.
    #[error("out of memory")]
    Memory,
}

impl From<AllocError> for ExpansionFault {
    ghost from_gives = { λ _ e. e ≡ Memory };

    fn from(_error: AllocError) -> ExpansionFault {
        ExpansionFault::Memory
    }
}

impl<T: Drop> From<AllocFailed<T>> for ExpansionFault {
    ghost from_gives = { λ _ e. e ≡ Memory };

    fn from(_error: AllocFailed<T>) -> ExpansionFault {
        ExpansionFault::Memory
    }
}
