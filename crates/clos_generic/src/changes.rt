//! The changes of one definition form.
ghost use Rattle.std.specs.Prelude.{◌≡◌, ◌++◌, ◌∷◌, [], MatchOption, if◌then◌else◌, is_ok};

use crate::options::Options;
use clos_forms::FunctionName;
use clos_method::{Qualifiers, Shape, Specializers};
use lisp_data::{GenericId, MethodId};
use std::alloc::{AllocError, Global};
use std::marker::Model;

/// A method that is to go from its function.
#[derive(Drop)]
pub struct Removal {
    pub generic: GenericId,
    pub method: MethodId,
}

/// A generic function that is to be defined.
#[derive(Drop)]
pub struct Definition {
    pub name: FunctionName,
    pub options: Options,
}

/// What tells a method of a function from the others (HyperSpec 7.6.3).
#[derive(Drop)]
pub struct Likeness {
    pub qualifiers: Qualifiers,
    pub specializers: Specializers,
}

/// A method that is to be added.
#[derive(Drop)]
pub struct Addition {
    pub generic: GenericId,
    pub shape: Shape,
    /// None where the objects of its eql specializers are not known yet.
    pub likeness: Option<Likeness>,
}

/// The changes of one definition form, which are made in this order: removals, definitions, additions. No removal and no
/// name of a definition comes twice. A function that a definition makes has the next number.
#[derive(Drop)]
pub struct Changes {
    removals: Vec<Removal>,
    definitions: Vec<Definition>,
    additions: Vec<Addition>,
}

impl Model for Changes {
    ghost use Rattle.clos_generic.specs.Changes.{Changes};

    ghost Value = { Changes };

    ghost use Rattle.std.specs.Prelude.{List, refl};
    ghost use Rattle.std.specs.Coded.{code_by, coded×, coded_list};
    ghost use Rattle.clos_generic.specs.declared.changes.Addition.{Addition};
    ghost use Rattle.clos_generic.specs.declared.changes.Definition.{Definition};
    ghost use Rattle.clos_generic.specs.declared.changes.Removal.{Removal};
    ghost use Rattle.clos_generic.specs.contracts.changes.Addition as addition;
    ghost use Rattle.clos_generic.specs.contracts.changes.Definition as definition;
    ghost use Rattle.clos_generic.specs.contracts.changes.Removal as removal;

    ghost coded = { code_by (List Removal × (List Definition × List Addition)) (coded× (coded_list removal.the_row.coded) (coded× (coded_list definition.the_row.coded) (coded_list addition.the_row.coded))) (λ c. (c.removals, (c.definitions, c.additions))) (λ p. record { removals = p.0; definitions = p.1.0; additions = p.1.1 }) (λ _. refl) };

    ghost view = { λ a. record { removals = a.removals.items; definitions = a.definitions.items; additions = a.additions.items } };
}

impl Changes {
    /// No changes.
    pub fn new(alloc: Global) -> Changes
        ensures { result ≡ record { removals = []; definitions = []; additions = [] } }
    {
        Changes {
            removals: Vec::new(alloc),
            definitions: Vec::new(alloc),
            additions: Vec::new(alloc),
        }
    }

    /// One more removal.
    pub fn remove(&mut self, removal: Removal) -> Result<(), AllocError>
        ensures { self.new ≡ (if is_ok result then record self.old { removals = self.old.removals ++ removal ∷ [] } else self.old) }
    {
        self.removals.push(removal)?;
        Ok(())
    }

    /// One more definition.
    pub fn define(&mut self, definition: Definition) -> Result<(), AllocError>
        ensures { self.new ≡ (if is_ok result then record self.old { definitions = self.old.definitions ++ definition ∷ [] } else self.old) }
    {
        self.definitions.push(definition)?;
        Ok(())
    }

    /// One more addition.
    pub fn add(&mut self, addition: Addition) -> Result<(), AllocError>
        ensures { self.new ≡ (if is_ok result then record self.old { additions = self.old.additions ++ addition ∷ [] } else self.old) }
    {
        self.additions.push(addition)?;
        Ok(())
    }

    /// Takes the first definition out.
    pub fn take_definition(&mut self) -> Option<Definition>
        ensures { MatchOption result ((self.old.definitions ≡ []) × (self.new ≡ self.old)) (λ d. self.old ≡ record self.new { definitions = d ∷ self.new.definitions }) }
    {
        if self.definitions.is_empty() {
            return None;
        }
        Some(self.definitions.remove(0))
    }

    /// The removals.
    pub fn removals(&self) -> &[Removal]
        ensures { result.now ≡ self.now.removals }
    {
        self.removals.as_slice()
    }

    /// The definitions.
    pub fn definitions(&self) -> &[Definition]
        ensures { result.now ≡ self.now.definitions }
    {
        self.definitions.as_slice()
    }

    /// The additions.
    pub fn additions(&self) -> &[Addition]
        ensures { result.now ≡ self.now.additions }
    {
        self.additions.as_slice()
    }
}
