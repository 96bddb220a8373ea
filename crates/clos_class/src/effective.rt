//! What a class has by its class precedence list (AMOP 5.4).
ghost use Rattle.std.specs.Prelude.{◌≡◌, IfOk, option_copied};
ghost use Rattle.std.specs.List.{find};
ghost use Rattle.lisp_data.specs.Name.{same_name};
ghost use Rattle.clos_precedence.specs.PrecedenceView.{numbers};
ghost use Rattle.clos_class.specs.inner.Keeping.{Tells};
ghost use Rattle.clos_class.specs.SlotsView.{defaults_in, slots_in};

use crate::accessible::accessible;
use crate::defaults::default_initargs;
use crate::effective_slots::{EffectiveSlot, Specified};
use crate::layout::{Layout, layout_of};
use crate::names::NameSet;
use crate::rows::Rows;
use clos_defclass::DefaultInitarg;
use clos_forms::Sequence;
use lisp_data::{ClassId, Name};
use std::alloc::{AllocError, Global};
use std::marker::Model;
use std::rc::Rc;

/// The layout of a class, its slots, whose places are found by their names, and its default initargs.
pub struct Effective {
    layout: Layout,
    names: NameSet,
    slots: Sequence<EffectiveSlot>,
    defaults: Sequence<DefaultInitarg>,
}

impl Drop for Effective {
    fn drop(self) {
        let Effective {
            layout: _,
            names: _,
            slots: _,
            defaults: _,
        } = self;
    }
}

impl Model for Effective {
    ghost use Rattle.std.specs.Prelude.{◌≡◌, map};
    ghost use Rattle.std.specs.Coded.{codes};
    ghost use Rattle.clos_forms.specs.contracts.form.Form as form;
    ghost use Rattle.clos_class.specs.Slots.{Effective as Whole};

    ghost Value = { Whole };

    ghost coded = { Prim.hlevel (codes, form.the_row.coded) };

    ghost view = { λ a. record { layout = a.layout; slots = a.slots; defaults = a.defaults } };

    ghost invariant = { λ a. a.names ≡ map (λ s. s.name) a.slots };
}

impl Effective {
    /// The layout of its instances.
    pub fn layout(&self) -> &Layout
        ensures { result.now ≡ self.now.layout }
    {
        &self.layout
    }

    /// Its accessible slots, local and shared ones, in layout order.
    pub fn slots(&self) -> &[EffectiveSlot]
        ensures { result.now ≡ self.now.slots }
    {
        self.slots.as_slice()
    }

    /// Its slot of this name.
    pub fn slot(&self, name: &Name) -> Option<&EffectiveSlot>
        ensures { option_copied result ≡ find (λ s. same_name name.now s.name) self.now.slots }
    {
        match self.names.place_of(name) {
            None => None,
            Some(place) => self.slots.as_slice().get(place),
        }
    }

    /// Its default initargs.
    pub fn defaults(&self) -> &[DefaultInitarg]
        ensures { result.now ≡ self.now.defaults }
    {
        self.defaults.as_slice()
    }
}

/// What a class with this class precedence list has, if it has one.
pub fn find_effective(
    alloc: Global,
    classes: &Rows<'_>,
    list: &[ClassId],
) -> Result<Option<Rc<Effective>>, AllocError>
    ensures { IfOk result (λ r. Tells (slots_in classes.now) (defaults_in classes.now) (numbers list.now) r) }
{
    if list.len() == 0 {
        return Ok(None);
    }
    let specified = Specified::find(alloc, classes, list)?;
    let names = accessible(alloc, classes, list)?;
    let layout = layout_of(alloc, &specified.allocations, names.as_slice())?;
    let slots = specified.slots(alloc, names.as_slice())?;
    let defaults = default_initargs(alloc, classes, list)?;
    let effective = Effective {
        layout,
        names,
        slots,
        defaults,
    };
    Ok(Some(Rc::new(alloc, effective)?))
}
