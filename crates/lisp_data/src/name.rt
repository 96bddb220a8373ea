//! The names of symbols.
ghost use Rattle.lisp_data.specs.Keys.{hash_of};
ghost use Rattle.lisp_data.specs.Name.{same_name};
ghost use Rattle.std.specs.Prelude.{◌≡◌, ◌↔◌, IfOk, IsTrue};

use crate::text::Text;
use std::alloc::{AllocError, Global};
use std::hash::{FoldHasher, Hasher};
use std::marker::Model;
use std::rc::Rc;

/// What the copies of a name share: its characters with a hash of them, and whether it is a keyword.
#[derive(Drop)]
pub struct Spelled {
    text: Text,
    digest: u64,
    keyword: bool,
}

/// Where the characters of a name lie.
#[derive(Drop)]
pub enum Spelling {
    Fixed(&'static &'static str),
    Shared(Rc<Spelled>),
}

/// The name of a symbol: its characters, in upper case, and whether it is a keyword (HyperSpec 11.1.2.3). It keeps a
/// hash of its characters, so that different names mostly compare without them.
pub struct Name {
    spelling: Spelling,
}

// Dropping a name is a call, so that what drops one does not ask where its characters lie.
impl Drop for Name {
    fn drop(self) {
        let Name { spelling: _ } = self;
    }
}

impl Model for Name {
    ghost use Rattle.lisp_data.specs.Name.{Name};
    ghost use Rattle.lisp_data.specs.inner.NameCode.{name_code};

    ghost Value = { Name };

    ghost coded = { name_code };

    ghost use Rattle.lisp_data.specs.NameView.{name_of, IsHashed};

    ghost view = { λ a. name_of a.spelling };

    ghost invariant = { λ a. IsHashed a.spelling };
}

impl Name {
    ghost use Rattle.std.specs.Prelude.{false};

    /// A name of the program's own, which takes no memory. It is no keyword.
    pub fn fixed(text: &'static &'static str) -> Name
        ensures { result ≡ record { text = text.now.now; keyword = false } }
    {
        Name {
            spelling: Spelling::Fixed(text),
        }
    }

    /// The name of these characters.
    pub fn new(alloc: Global, text: &str, keyword: bool) -> Result<Name, AllocError>
        ensures { IfOk result (λ r. r ≡ record { text = text.now; keyword = keyword }) }
    {
        let digest = text_hash(text);
        let text = Text::from_str(alloc, text)?;
        let spelled = Rc::new(
            alloc,
            Spelled {
                text,
                digest,
                keyword,
            },
        )?;
        Ok(Name {
            spelling: Spelling::Shared(spelled),
        })
    }

    /// Its characters, a keyword's without the colon.
    pub fn as_str(&self) -> &str
        ensures { result.now ≡ self.now.text }
    {
        match &self.spelling {
            Spelling::Fixed(text) => text,
            Spelling::Shared(spelled) => spelled.text.as_str(),
        }
    }

    /// Whether it is a keyword.
    pub fn is_keyword(&self) -> bool
        ensures { result ≡ self.now.keyword }
    {
        match &self.spelling {
            Spelling::Fixed(_) => false,
            Spelling::Shared(spelled) => spelled.keyword,
        }
    }

    /// The same name, in a few steps whatever its length.
    pub fn copy(&self) -> Result<Name, AllocError>
        ensures { IfOk result (λ r. r ≡ self.now) }
    {
        let spelling = match &self.spelling {
            Spelling::Fixed(text) => Spelling::Fixed(text),
            Spelling::Shared(spelled) => Spelling::Shared(spelled.clone()?),
        };
        Ok(Name { spelling })
    }

    /// Whether both are one name.
    pub fn is(&self, other: &Name) -> bool
        ensures test { result ≡ same_name self.now other.now }
        ensures only { IsTrue result ↔ (self.now ≡ other.now) }
    {
        self.hash_code() == other.hash_code()
            && self.is_keyword() == other.is_keyword()
            && self.as_str() == other.as_str()
    }

    /// The hash of its characters, which a name that is shared keeps.
    pub fn hash_code(&self) -> u64
        ensures { result ≡ hash_of self.now.text }
    {
        match &self.spelling {
            Spelling::Fixed(text) => text_hash(text),
            Spelling::Shared(spelled) => spelled.digest,
        }
    }
}

fn text_hash(text: &str) -> u64
    ensures { result ≡ hash_of text.now }
{
    let mut hasher = FoldHasher::default();
    hasher.write(text.as_bytes());
    hasher.finish()
}
