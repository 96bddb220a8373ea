//! What class precedence lists are found by.
ghost use Rattle.std.specs.Prelude.{◌≡◌};
ghost use Rattle.clos_precedence.specs.Precedence.{Supers};
ghost use Rattle.clos_precedence.specs.PrecedenceView.{numbers};

use lisp_data::ClassId;

/// The direct superclasses of classes, in the order of their definitions.
pub trait Superclasses {
    ghost above: { Self → Supers };

    /// Those of this class.
    fn of(&self, class: ClassId) -> &[ClassId]
        ensures { numbers result.now ≡ above self.now class.0 };
}
