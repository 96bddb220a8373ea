//! A definition of a class among the classes of a session.
ghost use Rattle.std.specs.Prelude.{◌≡◌, Option};
ghost use Rattle.clos_circle.specs.Circle.{above_class};
ghost use Rattle.clos_circle.specs.DefinitionView.{direct_of};

use clos_hierarchy::Hierarchy;
use lisp_data::Name;

/// A definition of a class, which may be defined already, and the classes that there are.
#[derive(Clone, Copy)]
pub struct Definition<'a> {
    pub hierarchy: &'a Hierarchy,
    pub name: &'a Name,
    /// Its direct superclasses.
    pub above: &'a [Name],
}

impl<'a> Definition<'a> {
    /// The direct superclasses of the class of a name, by this definition and those before it.
    pub fn direct(self, name: &Name) -> &'a [Name]
        ensures { result.now ≡ direct_of self.entry name.now }
    {
        if self.name.is(name) {
            return self.above;
        }
        match self.hierarchy.named(name) {
            None => &[],
            Some(class) => self.hierarchy.superclasses(class),
        }
    }
}
