//! Texts that are copied by sharing them.
ghost use Rattle.std.specs.Prelude.{◌≡◌, ◌↔◌, IfOk, IsTrue, string_bytes};
ghost use Rattle.std.specs.Rc.{rc_str_bytes};

use std::alloc::{AllocError, Global};
use std::marker::Model;
use std::rc::RcStr;

/// A text of UTF-8 that never changes. Contracts see its bytes.
#[derive(Drop)]
pub struct Text {
    shared: RcStr,
}

impl Model for Text {
    ghost use Rattle.std.specs.Prelude.{ℕ, List};
    ghost use Rattle.std.specs.Rc.{rc_str_bytes};

    ghost Value = { List ℕ };

    ghost view = { λ a. rc_str_bytes a.shared };
}

impl Text {
    /// The text of these characters.
    pub fn new(text: String) -> Result<Text, AllocError>
        ensures { IfOk result (λ r. r ≡ string_bytes text) }
    {
        let shared = RcStr::from_string(text)?;
        Ok(Text { shared })
    }

    /// A copy of these characters.
    pub fn from_str(alloc: Global, text: &str) -> Result<Text, AllocError>
        ensures { IfOk result (λ r. r ≡ text.now) }
    {
        let shared = RcStr::from_str(alloc, text)?;
        Ok(Text { shared })
    }

    /// The same text, in a few steps whatever its length.
    pub fn copy(&self) -> Result<Text, AllocError>
        ensures { IfOk result (λ r. r ≡ self.now) }
    {
        let shared = self.shared.clone()?;
        Ok(Text { shared })
    }

    /// Its characters.
    pub fn as_str(&self) -> &str
        ensures { result.now ≡ self.now }
    {
        self.shared.as_str()
    }

    /// Whether both have the same characters.
    pub fn is(&self, other: &Text) -> bool
        ensures { IsTrue result ↔ (self.now ≡ other.now) }
    {
        self.as_str() == other.as_str()
    }
}
