//! Why a datum is no form.
ghost use Rattle.std.specs.Prelude.{◌≡◌};
ghost use Rattle.clos_forms.specs.declared.fault.SyntaxFault.TheVariants.{Memory};

use std::alloc::{AllocError, AllocFailed};
use thiserror::Error;

/// Why a datum gives no form.
#[derive(Clone, Copy, Debug, Drop, PartialEq, Eq, Error)]
pub enum SyntaxFault {
    /// It is none by the rules of the language (HyperSpec 5.3 `program-error`).
    #[error("no form of the language")]
    Program,
    /// Memory ran out.
    #[error("out of memory")]
    Memory,
}

impl From<AllocError> for SyntaxFault {
    ghost from_gives = { λ _ e. e ≡ Memory };

    fn from(_error: AllocError) -> SyntaxFault {
        SyntaxFault::Memory
    }
}

impl<T: Drop> From<AllocFailed<T>> for SyntaxFault {
    ghost from_gives = { λ _ e. e ≡ Memory };

    fn from(_error: AllocFailed<T>) -> SyntaxFault {
        SyntaxFault::Memory
    }
}
