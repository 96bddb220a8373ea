//! What a complete class has by its class precedence list, as the making of an instance keeps it.
ghost use Rattle.std.specs.Prelude.{◌≡◌, IfOk};
ghost use Rattle.clos_meaning.specs.clos_world.Class.{effective};
ghost use Rattle.clos_meaning.specs.clos_world.World.{seen};

use clos_defclass::DefaultInitarg;
use clos_meaning::{Effective, EffectiveSlot, Layout, World};
use lisp_data::ClassId;
use std::alloc::AllocError;
use std::marker::Model;
use std::rc::Rc;

/// The slots of a finalized class, their layout and its default initargs, which are copied by sharing them (AMOP 5.4).
/// Contracts see the record of the three.
#[derive(Drop)]
pub struct Finalized {
    shared: Rc<Effective>,
}

impl Model for Finalized {
    ghost use Rattle.clos_meaning.specs.clos_world.clos_class.contracts.effective.Effective as effective;
    ghost use Rattle.clos_meaning.specs.clos_world.clos_class.Slots.{Effective as Whole};

    ghost Value = { Whole };

    ghost coded = { effective.the_row.coded };

    ghost view = { λ a. a.shared.value };
}

impl Finalized {
    /// What a class has, if it is complete.
    pub fn find(world: &World, class: ClassId) -> Result<Option<Finalized>, AllocError>
        ensures { IfOk result (λ r. r ≡ effective (seen world.now).classes class.0) }
    {
        match world.classes().effective(class) {
            None => Ok(None),
            Some(effective) => Ok(Some(Finalized {
                shared: effective.clone()?,
            })),
        }
    }

    /// The same, in a few steps however many slots there are.
    pub fn copy(&self) -> Result<Finalized, AllocError>
        ensures { IfOk result (λ r. r ≡ self.now) }
    {
        Ok(Finalized {
            shared: self.shared.clone()?,
        })
    }

    /// The layout of the instances.
    pub fn layout(&self) -> &Layout
        ensures { result.now ≡ self.now.layout }
    {
        self.shared.layout()
    }

    /// The slots, local and shared ones, in layout order.
    pub fn slots(&self) -> &[EffectiveSlot]
        ensures { result.now ≡ self.now.slots }
    {
        self.shared.slots()
    }

    /// The default initargs.
    pub fn defaults(&self) -> &[DefaultInitarg]
        ensures { result.now ≡ self.now.defaults }
    {
        self.shared.defaults()
    }
}
