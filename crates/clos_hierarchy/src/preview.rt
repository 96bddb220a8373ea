//! What there would be to say of the classes, if one were defined.
ghost use Rattle.std.specs.Prelude.{◌≡◌, slice_get, unwrap_or};
ghost use Rattle.clos_hierarchy.specs.Classes.{lacking, list_in};
ghost use Rattle.clos_hierarchy.specs.Outlook.{listing_then};
ghost use Rattle.clos_precedence.specs.PrecedenceView.{numbers};

use crate::find::list_of;
use crate::kept::Kept;
use lisp_data::ClassId;
use std::marker::Model;

/// The class that a definition would be of, and the class precedence lists that the classes would have that it touches.
#[derive(Drop)]
pub struct Preview {
    pub(crate) class: ClassId,
    pub(crate) touched: Vec<ClassId>,
    pub(crate) kept: Vec<Kept>,
}

impl Model for Preview {
    ghost use Rattle.clos_precedence.specs.PrecedenceView.{numbers};
    ghost use Rattle.clos_hierarchy.specs.inner.KeptView.{listing_of};
    ghost use Rattle.std.specs.Prelude.{map};
    ghost use Rattle.clos_hierarchy.specs.Outlook.{Outlook};

    ghost Value = { Outlook };

    ghost view = { λ a. record { class = a.class.0; touched = numbers a.touched.items; listings = map listing_of a.kept.items } };
}

impl Preview {
    /// The class that would be defined.
    pub fn class(&self) -> ClassId
        ensures { result.0 ≡ self.now.class }
    {
        self.class
    }

    /// The classes that the definition touches, it among them, in the order of their numbers. Of all others the class
    /// precedence lists stay, and do not have it.
    pub fn touched(&self) -> &[ClassId]
        ensures { numbers result.now ≡ self.now.touched }
    {
        self.touched.as_slice()
    }

    /// The class precedence list that the class at this place among those would have, or no classes where there would be
    /// none.
    #[tactic(auto, using(crate::proofs::Looking::list_there))]
    pub fn list_at(&self, place: usize) -> &[ClassId]
        ensures { numbers result.now ≡ list_in (unwrap_or (slice_get self.now.listings place) lacking) }
    {
        list_of(self.kept.as_slice(), ClassId(place as u64))
    }

    /// The class precedence list that the class that is defined would have, or no classes where there would be none.
    pub fn list(&self) -> &[ClassId]
        ensures { numbers result.now ≡ list_in (listing_then self.now self.now.class) }
    {
        let mut place = 0;
        while place < self.touched.len() {
            if self.touched[place].0 == self.class.0 {
                return self.list_at(place);
            }
            place += 1;
        }
        &[]
    }
}
