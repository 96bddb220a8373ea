//! Why a text can't be read.
ghost use Rattle.std.specs.Prelude.{◌≡◌};
ghost use Rattle.lisp_tokens.specs.Fault.{number_of, offset_of};
ghost use Rattle.lisp_tokens.specs.declared.fault.ReadFault.TheVariants.{Memory};

use std::alloc::{AllocError, AllocFailed};
use thiserror::Error;

/// Why the next datum can't be read, with the offset of the byte where the fault stands.
#[derive(Clone, Copy, Debug, Drop, PartialEq, Eq, Error)]
pub enum ReadFault {
    /// The text ends inside the datum that begins there.
    #[error("the text ends inside the datum at byte {0}")]
    EndInside(usize),
    /// A `)` with no list to close.
    #[error("a closing parenthesis with no list to close, at byte {0}")]
    StrayClose(usize),
    /// A token that is no datum, or a byte that begins none.
    #[error("no token can be read at byte {0}")]
    BadToken(usize),
    /// A dot where none may stand.
    #[error("a dot where none may stand, at byte {0}")]
    BadDot(usize),
    /// A `#` that begins no datum.
    #[error("a # that begins no datum, at byte {0}")]
    BadHash(usize),
    /// One open list or prefix more than may be open at once.
    #[error("too many open lists and prefixes at byte {0}")]
    TooDeep(usize),
    /// A byte in a string or a comment where no character begins.
    #[error("no character of UTF-8 begins at byte {0}")]
    NotText(usize),
    /// Memory ran out.
    #[error("out of memory")]
    Memory,
}

impl ReadFault {
    /// Its number, from 1 to 8.
    pub fn number(&self) -> u8
        ensures { result ≡ number_of self.now }
    {
        match self {
            ReadFault::EndInside(_) => 1,
            ReadFault::StrayClose(_) => 2,
            ReadFault::BadToken(_) => 3,
            ReadFault::BadDot(_) => 4,
            ReadFault::BadHash(_) => 5,
            ReadFault::TooDeep(_) => 6,
            ReadFault::NotText(_) => 7,
            ReadFault::Memory => 8,
        }
    }

    /// The byte where it stands, or None where memory ran out.
    pub fn offset(&self) -> Option<usize>
        ensures { result ≡ offset_of self.now }
    {
        match self {
            ReadFault::EndInside(at)
            | ReadFault::StrayClose(at)
            | ReadFault::BadToken(at)
            | ReadFault::BadDot(at)
            | ReadFault::BadHash(at)
            | ReadFault::TooDeep(at)
            | ReadFault::NotText(at) => Some(*at),
            ReadFault::Memory => None,
        }
    }
}

impl From<AllocError> for ReadFault {
    ghost from_gives = { λ _ e. e ≡ Memory };

    fn from(_error: AllocError) -> ReadFault {
        ReadFault::Memory
    }
}

impl<T: Drop> From<AllocFailed<T>> for ReadFault {
    ghost from_gives = { λ _ e. e ≡ Memory };

    fn from(_error: AllocFailed<T>) -> ReadFault {
        ReadFault::Memory
    }
}
