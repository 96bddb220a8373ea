//! A session's table of classes (HyperSpec 4.3).
ghost use Rattle.std.specs.Prelude.{◌≡◌, ◌<◌, ◌↔◌, ℕ, None, false, length, map, true, IfOk, IfErr, IfSome, IsNone, IsTrue, OnOk, OnErr, option_map, option_copied, slice_get};
ghost use Rattle.clos_hierarchy.specs.Classes.{named, names_above, number_of, with_class, listing, broken, list_in};
ghost use Rattle.clos_precedence.specs.Precedence.{has};
ghost use Rattle.clos_hierarchy.specs.Initial.{initial, is_standard, class_of_class};
ghost use Rattle.clos_precedence.specs.PrecedenceView.{numbers};
ghost use Rattle.clos_hierarchy.specs.Table.{Table, refusal, or_standard, changed, list_if};
ghost use Rattle.clos_hierarchy.specs.TableView.{Refuses, IsListOf, HasCircle};
ghost use Rattle.clos_hierarchy.specs.Ways.{IsSuperclass, IsSelfOrAbove, IsComplete, IsIncomplete};

use crate::admit::{Changed, admit, check_place};
use crate::definitions::Definitions;
use crate::fault::ClassFault;
use crate::find::{list_of, listed};
use crate::lists::Lists;
use crate::names::{check_names, or_standard};
use crate::numbers::{BUILT_IN_CLASS, STANDARD_CLASS, STANDARD_OBJECT};
use crate::predefined::define_predefined;
use crate::preview::Preview;
use clos_precedence::contains;
use lisp_data::{ClassId, Name};
use std::alloc::{AllocError, Global};
use std::marker::Model;

/// Classes by their numbers, in the order of first definition, the predefined ones first. A class may name superclasses
/// that are defined later, and may be defined again.
#[derive(Drop)]
pub struct Hierarchy {
    definitions: Definitions,
    lists: Lists,
    /// So many stand first.
    predefined: u64,
    /// So many more there may be.
    limit: u64,
}

impl Model for Hierarchy {
    ghost use Rattle.clos_hierarchy.specs.Table.{Table};
    ghost use Rattle.clos_hierarchy.specs.inner.Kept.{IsConsistent};
    ghost use Rattle.clos_hierarchy.specs.inner.Told.{Tells};

    ghost Value = { Table };

    ghost view = { λ a. record { classes = a.definitions; predefined = a.predefined; limit = a.limit } };

    ghost invariant = { λ a. Tells a.definitions a.lists × IsConsistent a.definitions };
}

impl Hierarchy {
    /// The predefined classes (HyperSpec 4.3.7), and room for so many more.
    #[tactic(auto, using(crate::proofs::Consistent::begins_consistent))]
    pub fn new(alloc: Global, limit: u64) -> Result<Hierarchy, AllocError>
        ensures { IfOk result (λ r. r ≡ initial limit) }
    {
        let mut definitions = Definitions::new(alloc);
        let mut lists = Lists::new(alloc);
        define_predefined(alloc, &mut definitions, &mut lists)?;
        let predefined = definitions.len() as u64;
        Ok(Hierarchy {
            definitions,
            lists,
            predefined,
            limit,
        })
    }

    /// Defines the class of this name, or defines it again, with these direct superclasses; without any it has
    /// STANDARD-OBJECT.
    #[tactic(auto, using(crate::proofs::NoListing::circle))]
    pub fn define(
        &mut self,
        alloc: Global,
        name: &Name,
        superclasses: Vec<Name>,
        has_shared_slots: bool,
    ) -> Result<Changed, ClassFault>
        ensures ok { OnOk result ((refusal self.old name.now (or_standard superclasses.items) has_shared_slots ≡ None) × (self.new ≡ record self.old { classes = with_class self.old.classes name.now (or_standard superclasses.items) })) }
        ensures class { IfOk result (λ r. r.class.0 ≡ number_of self.old.classes name.now) }
        ensures changed { IfOk result (λ r. numbers r.lists.items ≡ changed self.old.classes self.new.classes) }
        ensures err { OnErr result (self.new ≡ self.old) }
        ensures fault { IfErr result (λ e. Refuses e (refusal self.old name.now (or_standard superclasses.items) has_shared_slots)) }
        ensures law { (n : ℕ) → listing (with_class self.old.classes name.now (or_standard superclasses.items)) n ≡ broken → HasCircle (with_class self.old.classes name.now (or_standard superclasses.items)) }
    {
        let above = or_standard(alloc, superclasses)?;
        check_names(
            alloc,
            &self.definitions,
            self.predefined,
            self.limit,
            name,
            above.as_slice(),
        )?;
        admit(
            alloc,
            &mut self.definitions,
            &mut self.lists,
            name,
            above,
            has_shared_slots,
        )
    }

    /// The fault that `define` would answer, or else what there would be to say after it of the classes that it touches: of
    /// all others the lists stay, and do not have the class. The table stays as it was.
    pub fn check(
        &mut self,
        alloc: Global,
        name: &Name,
        superclasses: Vec<Name>,
        has_shared_slots: bool,
    ) -> Result<Preview, ClassFault>
        ensures ok { OnOk result (refusal self.old name.now (or_standard superclasses.items) has_shared_slots ≡ None) }
        ensures class { IfOk result (λ r. r.class ≡ number_of self.old.classes name.now) }
        ensures own { IfOk result (λ r. has r.touched r.class ≡ true) }
        ensures lists { IfOk result (λ r. r.listings ≡ map (λ n. listing (with_class self.old.classes name.now (or_standard superclasses.items)) n) r.touched) }
        ensures within { IfOk result (λ r. (n : ℕ) → has r.touched n ≡ true → n < length (with_class self.old.classes name.now (or_standard superclasses.items)).names) }
        ensures others { IfOk result (λ r. (n : ℕ) → has r.touched n ≡ false → listing (with_class self.old.classes name.now (or_standard superclasses.items)) n ≡ listing self.old.classes n) }
        ensures free { IfOk result (λ r. (n : ℕ) → has r.touched n ≡ false → has (list_in (listing self.old.classes n)) r.class ≡ false) }
        ensures fault { IfErr result (λ e. Refuses e (refusal self.old name.now (or_standard superclasses.items) has_shared_slots)) }
        ensures same { self.new ≡ self.old }
    {
        let above = or_standard(alloc, superclasses)?;
        check_names(
            alloc,
            &self.definitions,
            self.predefined,
            self.limit,
            name,
            above.as_slice(),
        )?;
        check_place(
            alloc,
            &mut self.definitions,
            &mut self.lists,
            name,
            above,
            has_shared_slots,
        )
    }

    /// The class of this name.
    pub fn named(&self, name: &Name) -> Option<ClassId>
        ensures { option_map (λ c. c.0) result ≡ named self.now.classes name.now }
    {
        self.definitions.named(name)
    }

    /// The name of a class.
    pub fn name(&self, class: ClassId) -> Option<&Name>
        ensures { option_copied result ≡ slice_get self.now.classes.names class.0 }
    {
        self.definitions.name(class)
    }

    /// The names of the direct superclasses of a class, some of which may not be defined yet, in the order of its definition
    /// (HyperSpec 4.3.5.1).
    pub fn superclasses(&self, class: ClassId) -> &[Name]
        ensures { result.now ≡ names_above self.now.classes class.0 }
    {
        self.definitions.above(class)
    }

    /// The class precedence list of a class (HyperSpec 4.3.5), if all its superclasses are defined.
    #[tactic(auto, using(crate::proofs::Listed::found_list, crate::proofs::Listed::told_list))]
    pub fn precedence(&self, class: ClassId) -> Option<&[ClassId]>
        ensures found { option_map (λ l. numbers l.now) result ≡ list_if (listing self.now.classes class.0) }
        ensures law { IfSome result (λ l. IsListOf self.now.classes class.0 (numbers l.now)) }
        ensures members { IfSome result (λ l. (m : ℕ) → (has (numbers l.now) m ≡ true) ↔ IsSelfOrAbove self.now.classes class.0 m) }
        ensures none { IsNone result ↔ IsIncomplete self.now.classes class.0 }
        ensures no_circle { IsSuperclass self.now.classes class.0 class.0 → ⊥ }
    {
        listed(self.lists.as_slice(), class)
    }

    /// The class precedence list of a class, or no classes where there is none.
    pub fn precedence_or_none(&self, class: ClassId) -> &[ClassId]
        ensures { numbers result.now ≡ list_in (listing self.now.classes class.0) }
    {
        list_of(self.lists.as_slice(), class)
    }

    /// Whether a class that has a class precedence list is this other one, or below it.
    pub fn is_sub(&self, class: ClassId, above: ClassId) -> bool
        ensures found { result ≡ has (list_in (listing self.now.classes class.0)) above.0 }
        ensures law { IsTrue result ↔ (IsComplete self.now.classes class.0 × IsSelfOrAbove self.now.classes class.0 above.0) }
    {
        contains(list_of(self.lists.as_slice(), class), above)
    }

    /// Whether `defclass` makes classes like this one, of which programs may make instances, or it is STANDARD-OBJECT.
    #[tactic(auto, using(crate::proofs::Numbered::standard_object))]
    pub fn is_standard(&self, class: ClassId) -> bool
        ensures { result ≡ is_standard self.now class.0 }
    {
        class.0 == STANDARD_OBJECT.0 || self.predefined <= class.0
    }

    /// The class of classes that are like this one: STANDARD-CLASS of those that defclass makes, BUILT-IN-CLASS of
    /// others (HyperSpec 4.3.7).
    #[tactic(auto, using(crate::proofs::Numbered::standard_class, crate::proofs::Numbered::built_in_class))]
    pub fn class_of_class(&self, class: ClassId) -> ClassId
        ensures { result.0 ≡ class_of_class self.now class.0 }
    {
        if self.is_standard(class) {
            STANDARD_CLASS
        } else {
            BUILT_IN_CLASS
        }
    }
}
