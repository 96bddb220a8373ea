//! Classes that were seen, each with a mark by its number, so that it is found at once.
ghost use Rattle.std.specs.Prelude.{◌≡◌, ◌<◌, ◌==◌, ◌∷◌, ◌||◌, ℕ, [], OnErr, OnOk, length, reverse, option_map, slice_index};
ghost use Rattle.clos_precedence.specs.Precedence.{has, are_done, first_left};
ghost use Rattle.clos_precedence.specs.PrecedenceView.{numbers, latest_first};
ghost use Rattle.clos_precedence.specs.OrderView.{is_marked, with_seen};

use lisp_data::ClassId;
use std::alloc::{AllocError, Global};
use std::marker::Model;

/// Classes in the order in which they were seen.
#[derive(Drop)]
pub struct Seen {
    classes: Vec<ClassId>,
    marks: Vec<bool>,
}

impl Model for Seen {
    ghost use Rattle.std.specs.Prelude.{ℕ, List};
    ghost use Rattle.clos_precedence.specs.PrecedenceView.{latest_first};
    ghost use Rattle.clos_precedence.specs.OrderView.{Marks};

    ghost Value = { List ℕ };

    ghost view = { λ a. latest_first a.classes.items };

    ghost invariant = { λ a. Marks a.marks.items (latest_first a.classes.items) };
}

/// Marks a class.
#[tactic(auto, using(crate::proofs::Marking::marked_more, crate::proofs::Marking::marked_set))]
fn mark(marks: &mut Vec<bool>, class: ClassId) -> Result<(), AllocError>
    ensures ok { OnOk result ((x : ℕ) → is_marked marks.new.items x ≡ ((class.0 == x) || is_marked marks.old.items x)) }
    ensures err { OnErr result ((x : ℕ) → is_marked marks.new.items x ≡ is_marked marks.old.items x) }
{
    let place = class.0 as usize;
    while marks.len() <= place {
        marks.push(false)?;
    }
    marks[place] = true;
    Ok(())
}

impl Seen {
    /// No classes.
    pub fn new(alloc: Global) -> Seen
        ensures { result ≡ [] }
    {
        Seen {
            classes: Vec::new(alloc),
            marks: Vec::new(alloc),
        }
    }

    /// Whether a class is among them.
    pub fn has(&self, class: ClassId) -> bool
        ensures { result ≡ has self.now class.0 }
    {
        match self.marks.get(class.0 as usize) {
            Some(mark) => *mark,
            None => false,
        }
    }

    /// Adds a class, which comes last.
    pub fn add(&mut self, class: ClassId) -> Result<(), AllocError>
        ensures ok { OnOk result (self.new ≡ class.0 ∷ self.old) }
        ensures err { OnErr result (self.new ≡ self.old) }
    {
        self.classes.reserve(1)?;
        mark(&mut self.marks, class)?;
        self.classes.push(class)?;
        Ok(())
    }

    /// Adds a class, unless it is among them.
    pub fn add_new(&mut self, class: ClassId) -> Result<(), AllocError>
        ensures ok { OnOk result (self.new ≡ with_seen self.old class.0) }
        ensures err { OnErr result (self.new ≡ self.old) }
    {
        if self.has(class) {
            return Ok(());
        }
        self.add(class)
    }

    /// How many they are.
    pub fn len(&self) -> usize
        ensures { result ≡ length self.now }
    {
        self.classes.len()
    }

    /// The class that was added after so many others.
    pub fn at(&self, place: usize) -> ClassId
        requires { place < length self.now }
        ensures { result.0 ≡ slice_index (reverse self.now) place }
    {
        self.classes[place]
    }

    /// The classes, the latest last.
    pub(crate) fn as_slice(&self) -> &[ClassId]
        ensures { latest_first result.now ≡ self.now }
    {
        self.classes.as_slice()
    }

    /// The classes, the latest last.
    pub fn into_list(self) -> Vec<ClassId>
        ensures { numbers result.items ≡ reverse self }
    {
        self.classes
    }

    /// Whether all of these are among them.
    pub(crate) fn has_all(&self, classes: &[ClassId]) -> bool
        ensures { result ≡ are_done self.now (numbers classes.now) }
    {
        let mut left = classes;
        while let Some((class, others)) = left.split_first() {
            if !self.has(*class) {
                return false;
            }
            left = others;
        }
        true
    }

    /// The first of these that is not among them.
    pub(crate) fn first_left(&self, superclasses: &[ClassId]) -> Option<ClassId>
        ensures { option_map (λ c. c.0) result ≡ first_left self.now (numbers superclasses.now) }
    {
        let mut left = superclasses;
        while let Some((superclass, others)) = left.split_first() {
            if !self.has(*superclass) {
                return Some(*superclass);
            }
            left = others;
        }
        None
    }
}
