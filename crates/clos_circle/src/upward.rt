//! The way up from a class.
ghost use Rattle.std.specs.Prelude.{◌≡◌, ◌++◌, ◌∷◌, [], IfOk, OnOk, slice_get};
ghost use Rattle.clos_circle.specs.DefinitionView.{direct_of};
ghost use Rattle.clos_circle.specs.inner.Before.{befores, next_before, related_by};
ghost use Rattle.clos_circle.specs.inner.Upward.{IsUpward, above_of, found_in, is_among, with_all, with_one};

use crate::definition::Definition;
use crate::relation::Relation;
use lisp_data::Name;
use std::alloc::{AllocError, Global};

/// A class and all that are above it, each once, and of each the place of one that names it.
#[derive(Drop)]
pub(crate) struct Upward {
    pub(crate) names: Vec<Name>,
    pub(crate) below: Vec<usize>,
}

/// Whether a name is among these.
pub(crate) fn is_among(names: &[Name], name: &Name) -> bool
    ensures { result ≡ is_among names.now name.now }
{
    names.iter().any(|other| name.is(other))
}

impl Upward {
    /// The way up from the class of this name.
    pub(crate) fn new(
        alloc: Global,
        relation: Relation<'_>,
        name: &Name,
    ) -> Result<Upward, AllocError>
        ensures { IfOk result (λ u. IsUpward (related_by relation.entry) name.now (found_in u)) }
    {
        let mut found = Upward {
            names: Vec::new(alloc),
            below: Vec::new(alloc),
        };
        found.take(name, 0)?;
        let mut place = 0;
        while place < found.names.len() {
            found.take_related(relation, place)?;
            place += 1;
        }
        Ok(found)
    }

    /// Takes those above the class at this place that are not there yet.
    fn take_related(&mut self, relation: Relation<'_>, place: usize) -> Result<(), AllocError>
        ensures { OnOk result (found_in self.new ≡ with_all (above_of (related_by relation.entry)
            (slice_get self.old.names.items place)) place (found_in self.old)) }
    {
        let Some(name) = self.names.get(place) else {
            return Ok(());
        };
        let name = name.copy()?;
        self.take_for(relation, &name, place)
    }

    /// Takes those above this class, which is at this place, that are not there yet.
    fn take_for(
        &mut self,
        relation: Relation<'_>,
        name: &Name,
        place: usize,
    ) -> Result<(), AllocError>
        ensures { OnOk result (found_in self.new ≡ with_all (related_by relation.entry name.now) place (found_in self.old)) }
    {
        match relation {
            Relation::Above(definition) => self.take_all(definition.direct(name), place),
            Relation::Before(definition, names) => {
                self.take_all_before(definition, names, name, place)
            }
        }
    }

    /// Takes those of these that are not there yet, above the class at this place.
    fn take_all(&mut self, names: &[Name], place: usize) -> Result<(), AllocError>
        ensures { OnOk result (found_in self.new ≡ with_all names.now place (found_in self.old)) }
    {
        let mut left = names;
        while let [above, others @ ..] = left {
            self.take_new(above, place)?;
            left = others;
        }
        Ok(())
    }

    /// Takes those that have to come before this class, by what these name.
    fn take_all_before(
        &mut self,
        definition: Definition<'_>,
        names: &[Name],
        name: &Name,
        place: usize,
    ) -> Result<(), AllocError>
        ensures { OnOk result (found_in self.new ≡ with_all (befores (direct_of definition.entry) names.now name.now)
            place (found_in self.old)) }
    {
        let mut left = names;
        while let Some((by, others)) = left.split_first() {
            self.take_before(by, definition.direct(by), name, place)?;
            left = others;
        }
        Ok(())
    }

    /// Takes those that have to come before this class, by what one class names.
    fn take_before(
        &mut self,
        by: &Name,
        named: &[Name],
        name: &Name,
        place: usize,
    ) -> Result<(), AllocError>
        ensures { OnOk result (found_in self.new ≡ with_all (next_before by.now named.now name.now) place
            (found_in self.old)) }
    {
        let mut last = by;
        let mut left = named;
        while let [next, others @ ..] = left {
            if next.is(name) {
                self.take_new(last, place)?;
            }
            last = next;
            left = others;
        }
        Ok(())
    }

    /// Takes it if it is not there yet.
    fn take_new(&mut self, name: &Name, below: usize) -> Result<(), AllocError>
        ensures { OnOk result (found_in self.new ≡ with_one name.now below (found_in self.old)) }
    {
        if is_among(self.names.as_slice(), name) {
            return Ok(());
        }
        self.take(name, below)
    }

    fn take(&mut self, name: &Name, below: usize) -> Result<(), AllocError>
        ensures { OnOk result (found_in self.new ≡ (self.old.names.items ++ name.now ∷ [], self.old.below.items ++ below ∷ [])) }
    {
        self.names.push(name.copy()?)?;
        self.below.push(below)?;
        Ok(())
    }
}
