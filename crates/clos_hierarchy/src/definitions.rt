//! Definitions of classes (HyperSpec 4.3.2), of which some may name superclasses that are not defined yet.
ghost use Rattle.std.specs.Prelude.{◌≡◌, [], IfOk, OnOk, OnErr, List, length, option_map, map, if◌then◌else◌, Some, None, slice_get, option_copied, ◌<◌};
ghost use Rattle.std.specs.List.{list_any};
ghost use Rattle.lisp_data.specs.Name.{Name, same_name};
ghost use Rattle.clos_hierarchy.specs.Classes.{Classes, named, number_of, with_class, names_above, defined, are_defined};
ghost use Rattle.clos_hierarchy.specs.inner.Kept.{WasBefore};
ghost use Rattle.clos_precedence.specs.PrecedenceView.{numbers};

use indexmap::IndexSet;
use lisp_data::{ClassId, Name};
use std::alloc::{AllocError, Global};
use std::marker::Model;
use std::mem;

/// Of each class its name and the names of its direct superclasses, in the order of first definition.
#[derive(Drop)]
pub struct Definitions {
    names: IndexSet<Name>,
    above: Vec<Vec<Name>>,
}

impl Model for Definitions {
    ghost use Rattle.std.specs.Prelude.{◌≡◌, length, map};
    ghost use Rattle.clos_hierarchy.specs.Classes.{Classes};

    ghost Value = { Classes };

    ghost view = { λ a. record { names = a.names.keys; above = map (λ v. v.items) a.above.items } };

    ghost invariant = { λ a. length a.above.items ≡ length a.names.keys };
}

/// A definition that was put among the others: its class, and the direct superclasses that stood in their place.
#[derive(Drop)]
pub struct Put {
    pub class: ClassId,
    replaced: Option<Vec<Name>>,
}

impl Definitions {
    /// No classes.
    pub fn new(alloc: Global) -> Definitions
        ensures { result ≡ record { names = []; above = [] } }
    {
        Definitions {
            names: IndexSet::new(alloc),
            above: Vec::new(alloc),
        }
    }

    /// How many classes they are.
    pub fn len(&self) -> usize
        ensures len { result ≡ length self.now.names }
        ensures rows { length self.now.above ≡ length self.now.names }
    {
        self.names.len()
    }

    /// The class of this name.
    pub fn named(&self, name: &Name) -> Option<ClassId>
        ensures { option_map (λ c. c.0) result ≡ named self.now name.now }
    {
        match self.names.get_index_of(name) {
            Some(place) => Some(ClassId(place as u64)),
            None => None,
        }
    }

    /// The number of the class of this name, or the one that it would get.
    #[tactic(auto, using(crate::proofs::Defined::place_found, crate::proofs::Defined::place_past))]
    pub fn number_of(&self, name: &Name) -> u64
        ensures { result ≡ number_of self.now name.now }
    {
        match self.names.get_index_of(name) {
            Some(place) => place as u64,
            None => self.names.len() as u64,
        }
    }

    /// Whether a class has this name.
    pub fn has(&self, name: &Name) -> bool
        ensures { result ≡ list_any (same_name name.now) self.now.names }
    {
        self.names.contains(name)
    }

    /// The name of a class.
    pub fn name(&self, class: ClassId) -> Option<&Name>
        ensures { option_copied result ≡ slice_get self.now.names class.0 }
    {
        self.names.get_index(class.0 as usize)
    }

    /// The names of the direct superclasses of a class.
    pub fn above(&self, class: ClassId) -> &[Name]
        ensures { result.now ≡ names_above self.now class.0 }
    {
        match self.above.get(class.0 as usize) {
            Some(names) => names.as_slice(),
            None => &[],
        }
    }

    /// The classes of these names, if all are defined.
    pub fn resolve(&self, alloc: Global, names: &[Name]) -> Result<Option<Vec<ClassId>>, AllocError>
        ensures { IfOk result (λ r. option_map (λ l. numbers l.items) r ≡ (if are_defined self.now names.now then Some (defined self.now names.now) else None)) }
    {
        let mut classes = Vec::new(alloc);
        let mut left = names;
        while let Some((name, others)) = left.split_first() {
            match self.named(name) {
                None => return Ok(None),
                Some(class) => classes.push(class)?,
            }
            left = others;
        }
        Ok(Some(classes))
    }

    /// Defines a class: a new one comes last, and one that is there gets these direct superclasses in place of its own.
    #[tactic(auto, using(crate::proofs::Defined::set_items, crate::proofs::Defined::read_items, crate::proofs::Defined::is_last, crate::proofs::Defined::is_there))]
    pub fn put(&mut self, name: Name, above: Vec<Name>) -> Result<Put, AllocError>
        ensures ok { OnOk result (self.new ≡ with_class self.old name (above.items)) }
        ensures number { IfOk result (λ r. (r.class.0 ≡ number_of self.old name) × (r.class.0 < length self.new.names)) }
        ensures before { IfOk result (λ r. WasBefore r.replaced self.old self.new r.class.0 name above.items) }
        ensures err { OnErr result (self.new ≡ self.old) }
    {
        self.above.reserve(1)?;
        let (place, is_new) = self.names.insert_full(name)?;
        let class = ClassId(place as u64);
        if is_new {
            self.above.push(above)?;
            return Ok(Put {
                class,
                replaced: None,
            });
        }
        let replaced = Some(mem::replace(&mut self.above[place], above));
        Ok(Put { class, replaced })
    }

    /// Takes a definition back.
    #[tactic(auto, using(crate::proofs::Defined::restored, crate::proofs::Defined::popped))]
    pub fn take_back(&mut self, put: Put)
        requires { put.class.0 < length self.old.names }
        ensures { (cs : Classes) (name : Name) (above : List Name) → WasBefore put.replaced cs self.old put.class.0 name above → self.new ≡ cs }
    {
        let Put { class, replaced } = put;
        match replaced {
            None => {
                self.names.pop();
                self.above.pop();
            }
            Some(above) => self.above[class.0 as usize] = above,
        }
    }
}
