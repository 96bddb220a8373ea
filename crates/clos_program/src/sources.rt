//! Where the texts of files come from.
ghost use Rattle.std.specs.Prelude.{◌≡◌, ℕ, List, Option, Some, None, IfOk, IfSome};

use std::fs::{File, Files};
use std::io::{self, Read};

/// What opens a text by its name.
pub trait Sources {
    /// A text that is open.
    type Source: Read + Drop;

    ghost text: { Self → List ℕ → Option (List ℕ) };

    /// Opens the text of this name. It is the one that is known, if one is.
    fn open_source(&self, name: &str) -> io::Result<Self::Source>
        ensures { IfOk result (λ source. IfSome (text self.now name.now) (λ t. Self.Source.remaining source ≡ Some t)) };
}

/// The files by their names. What they hold is not known before they are read.
impl<R: Files> Sources for R {
    type Source = R::File;

    ghost text = { λ _ _. None };

    fn open_source(&self, name: &str) -> io::Result<R::File> {
        File::open(self, name)
    }
}
