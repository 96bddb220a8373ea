//! Names.
ghost use Rattle.std.specs.Prelude.{◌≡◌, [], IfOk, OnOk, length, option_copied, position, slice_get};
ghost use Rattle.std.specs.List.{list_any};
ghost use Rattle.lisp_data.specs.Name.{same_name};
ghost use Rattle.clos_class.specs.inner.Building.{with_name, with_names};

use clos_forms::Sequence;
use indexmap::IndexSet;
use lisp_data::Name;
use std::alloc::{AllocError, Global};
use std::marker::Model;

/// The same names.
pub fn copy_names(alloc: Global, names: &[Name]) -> Result<Sequence<Name>, AllocError>
    ensures { IfOk result (λ r. r ≡ names.now) }
{
    let mut copies = Sequence::new(alloc);
    let mut left = names;
    while let Some((name, others)) = left.split_first() {
        copies.push(name.copy()?)?;
        left = others;
    }
    Ok(copies)
}

/// Whether a name is among these.
pub fn is_among(names: &[Name], name: &Name) -> bool
    ensures { result ≡ list_any (same_name name.now) names.now }
{
    names.iter().any(|other| name.is(other))
}

/// Adds a name at the end of a few, unless it is there.
fn add_name(names: &mut Sequence<Name>, name: &Name) -> Result<(), AllocError>
    ensures { OnOk result (names.new ≡ with_name names.old name.now) }
{
    if is_among(names.as_slice(), name) {
        return Ok(());
    }
    names.push(name.copy()?)
}

/// Adds those of these names that are not there, at the end of a few.
#[tactic(auto, using(crate::proofs::Added::one_name, crate::proofs::Added::same_names))]
pub fn add_names(names: &mut Sequence<Name>, more: &[Name]) -> Result<(), AllocError>
    ensures { OnOk result (names.new ≡ with_names names.old more.now) }
{
    let mut left = more;
    while let Some((name, others)) = left.split_first() {
        add_name(names, name)?;
        left = others;
    }
    Ok(())
}

/// Names, each once, in the order in which they came. Contracts see the list.
pub struct NameSet {
    names: IndexSet<Name>,
}

impl Drop for NameSet {
    fn drop(self) {
        let NameSet { names: _ } = self;
    }
}

impl Model for NameSet {
    ghost use Rattle.std.specs.Prelude.{List};
    ghost use Rattle.std.specs.Coded.{coded_list};
    ghost use Rattle.lisp_data.specs.Name.{Name};
    ghost use Rattle.lisp_data.specs.inner.NameCode.{name_code};

    ghost Value = { List Name };

    ghost coded = { coded_list name_code };

    ghost view = { λ a. a.names.keys };
}

impl NameSet {
    /// No names.
    pub fn new(alloc: Global) -> NameSet
        ensures { result ≡ [] }
    {
        NameSet {
            names: IndexSet::new(alloc),
        }
    }

    /// Adds a name at the end, unless it is there.
    pub fn add(&mut self, name: Name) -> Result<(), AllocError>
        ensures { OnOk result (self.new ≡ with_name self.old name) }
    {
        self.names.insert(name)?;
        Ok(())
    }

    /// How many they are.
    pub fn len(&self) -> usize
        ensures { result ≡ length self.now }
    {
        self.names.len()
    }

    /// The name at this place.
    pub fn name(&self, place: usize) -> Option<&Name>
        ensures { option_copied result ≡ slice_get self.now place }
    {
        self.names.get_index(place)
    }

    /// The place of a name.
    pub fn place_of(&self, name: &Name) -> Option<usize>
        ensures { result ≡ position (same_name name.now) self.now }
    {
        self.names.get_index_of(name)
    }

    /// Whether a name is among them.
    pub fn has(&self, name: &Name) -> bool
        ensures { result ≡ list_any (same_name name.now) self.now }
    {
        self.names.contains(name)
    }

    /// All of them.
    pub fn as_slice(&self) -> &[Name]
        ensures { result.now ≡ self.now }
    {
        self.names.as_slice()
    }
}
