//! What classes say of slots, by their numbers.
ghost use Rattle.std.specs.Prelude.{◌≡◌, ℕ, ◌==◌, Some, option_copied, slice_get};
ghost use Rattle.clos_class.specs.SlotsView.{defaults_in, or_said, row_of, slots_in};

use crate::direct::{ClassSlots, DirectSlot};
use clos_defclass::DefaultInitarg;
use lisp_data::ClassId;

/// What classes say of slots: as it is kept, but for one class where that would say something else.
#[derive(Clone, Copy)]
pub struct Rows<'a> {
    rows: &'a [ClassSlots],
    class: ClassId,
    said: Option<&'a ClassSlots>,
}

impl<'a> Rows<'a> {
    /// As it is kept.
    pub fn kept(rows: &'a [ClassSlots]) -> Rows<'a>
        ensures { (n : ℕ) → row_of result n ≡ slice_get rows.now n }
    {
        Rows {
            rows,
            class: ClassId(0),
            said: None,
        }
    }

    /// As it would be if a class said this.
    pub fn with(rows: &'a [ClassSlots], class: ClassId, said: &'a ClassSlots) -> Rows<'a>
        ensures { (n : ℕ) → row_of result n ≡ or_said (Some said.now) (n == class.0) (slice_get rows.now n) }
    {
        Rows {
            rows,
            class,
            said: Some(said),
        }
    }

    fn of(&self, class: ClassId) -> Option<&'a ClassSlots>
        ensures { option_copied result ≡ row_of self.now class.0 }
    {
        match self.said {
            Some(said) if class.0 == self.class.0 => Some(said),
            _ => self.rows.get(class.0 as usize),
        }
    }

    /// The direct slots of a class.
    pub fn slots(&self, class: ClassId) -> &'a [DirectSlot]
        ensures { result.now ≡ slots_in self.now class.0 }
    {
        match self.of(class) {
            Some(said) => said.slots.as_slice(),
            None => &[],
        }
    }

    /// The default initargs of a class.
    pub fn defaults(&self, class: ClassId) -> &'a [DefaultInitarg]
        ensures { result.now ≡ defaults_in self.now class.0 }
    {
        match self.of(class) {
            Some(said) => said.defaults.as_slice(),
            None => &[],
        }
    }
}
