//! Which dependents metaobjects have (AMOP chapter 6).
ghost use Rattle.std.specs.Prelude.{◌≡◌, ◌<◌, ◌≤◌, ◌∷◌, ◌++◌, ℕ, suc, true, [], Some, OnErr, OnOk, map, slice_get, if◌then◌else◌};
ghost use Rattle.clos_watch.specs.Rows.{Once};
ghost use Rattle.clos_watch.specs.Watching.{hears, nobody, times_told, watching, with_dependent, without_dependent};

use crate::dependent::Dependent;
use crate::notice::{Metaobject, Notice};
use crate::rows::Rows;
use lisp_data::Name;
use std::alloc::{AllocError, Global};
use std::marker::Model;

/// Of each metaobject its dependents, by their places in the session's list of dependents, in the order in which they were
/// added.
#[derive(Drop)]
pub struct Watchers {
    classes: Rows,
    generics: Rows,
}

impl Model for Watchers {
    ghost use Rattle.clos_watch.specs.Watching.{Watched};

    ghost Value = { Watched };

    ghost view = { λ a. record { classes = a.classes; generics = a.generics } };
}

/// A dependent that a session was handed, with its name.
pub type Handed = (Name, Box<dyn Dependent>);

/// Has a dependent have room for so many notices.
fn prepare(dependent: &mut Handed, times: usize) -> Result<(), AllocError>
    ensures name { dependent.new.0 ≡ dependent.old.0 }
    ensures ok { OnOk result (times ≤ room dependent.new.1) }
    ensures told { told dependent.new.1 ≡ told dependent.old.1 }
    ensures room { room dependent.old.1 ≤ room dependent.new.1 }
{
    dependent.1.prepare(times)
}

/// What a dependent heard, in order.
pub(crate) fn heard(dependent: &Handed) -> &[Notice]
    ensures { result.now ≡ told dependent.now.1 }
{
    dependent.1.heard()
}

/// Tells a notice to a dependent that has room for it, and drops the answer.
fn tell(dependent: &mut Handed, notice: &Notice)
    requires { 0 < room dependent.old.1 }
    ensures name { dependent.new.0 ≡ dependent.old.0 }
    ensures told { told dependent.new.1 ≡ told dependent.old.1 ++ notice.now ∷ [] }
    ensures room { suc (room dependent.new.1) ≡ room dependent.old.1 }
{
    let _ = dependent.1.tell(notice);
}

impl Watchers {
    /// No metaobject has a dependent.
    pub fn new(alloc: Global) -> Watchers
        ensures { watching result ≡ nobody }
    {
        Watchers {
            classes: Rows::new(alloc),
            generics: Rows::new(alloc),
        }
    }

    /// The dependents of a metaobject, each once.
    pub fn of(&self, metaobject: Metaobject) -> &[usize]
        ensures places { result.now ≡ watching self.now metaobject }
        ensures once { Once result.now }
    {
        match metaobject {
            Metaobject::Class(class) => self.classes.of(class.0),
            Metaobject::Generic(generic) => self.generics.of(generic.0),
        }
    }

    /// Adds a dependent of a metaobject, as the last, unless it has it.
    pub fn add(
        &mut self,
        alloc: Global,
        metaobject: Metaobject,
        place: usize,
    ) -> Result<(), AllocError>
        ensures ok { OnOk result (watching self.new ≡ with_dependent metaobject place (watching self.old)) }
        ensures err { OnErr result (watching self.new ≡ watching self.old) }
    {
        match metaobject {
            Metaobject::Class(class) => self.classes.add(alloc, class.0, place),
            Metaobject::Generic(generic) => self.generics.add(alloc, generic.0, place),
        }
    }

    /// Takes a dependent of a metaobject out.
    pub fn remove(&mut self, metaobject: Metaobject, place: usize)
        ensures { watching self.new ≡ without_dependent metaobject place (watching self.old) }
    {
        match metaobject {
            Metaobject::Class(class) => self.classes.remove(class.0, place),
            Metaobject::Generic(generic) => self.generics.remove(generic.0, place),
        }
    }

    /// How many of these notices the dependent at this place hears.
    fn times_told(&self, notices: &[Notice], place: usize) -> usize
        ensures { result ≡ times_told (watching self.now) notices.now place }
    {
        let mut times = 0;
        let mut left = notices;
        while let Some((notice, others)) = left.split_first() {
            if self.of(notice.metaobject()).contains(&place) {
                times += 1;
            }
            left = others;
        }
        times
    }

    /// Has each dependent have room for all of these notices that it hears. Where memory is refused, none has heard more, and
    /// none has less room.
    pub fn prepare_all(
        &self,
        dependents: &mut [Handed],
        notices: &[Notice],
    ) -> Result<(), AllocError>
        ensures names { map (λ d. d.0) dependents.new ≡ map (λ d. d.0) dependents.old }
        ensures ok { OnOk result ((p : ℕ) (d : _) → slice_get dependents.new p ≡ Some d → times_told (watching self.now) notices.now
            p ≤ room d.1) }
        ensures same { (p : ℕ) (d e : _) → slice_get dependents.old p ≡ Some d → slice_get dependents.new p ≡ Some e → (told e.1 ≡ told d.1) × (room d.1 ≤ room e.1) }
    {
        let mut place = 0;
        while place < dependents.len() {
            let times = self.times_told(notices, place);
            prepare(&mut dependents[place], times)?;
            place += 1;
        }
        Ok(())
    }

    /// Tells a notice to each dependent of what changed, in the order in which they were added, and to no other. What they
    /// answer is dropped.
    pub fn tell_all(&self, dependents: &mut [Handed], notice: &Notice)
        requires room { (p : ℕ) (d : _) → hears (watching self.now) notice.now p ≡ true → slice_get dependents.old p ≡ Some d
            → 0 < room d.1 }
        ensures names { map (λ d. d.0) dependents.new ≡ map (λ d. d.0) dependents.old }
        ensures told { (p : ℕ) (d e : _) → slice_get dependents.old p ≡ Some d → slice_get dependents.new p ≡ Some e
            → told e.1 ≡ (if hears (watching self.now) notice.now p then told d.1 ++ notice.now ∷ [] else told d.1) }
        ensures room { (p : ℕ) (d e : _) → slice_get dependents.old p ≡ Some d → slice_get dependents.new p ≡ Some e
            → (if hears (watching self.now) notice.now p then suc (room e.1) else room e.1) ≡ room d.1 }
    {
        let mut left = self.of(notice.metaobject());
        while let Some((place, others)) = left.split_first() {
            if *place < dependents.len() {
                tell(&mut dependents[*place], notice);
            }
            left = others;
        }
    }
}
