//! What relates classes in circles.
ghost use Rattle.std.specs.Prelude.{◌≡◌};
ghost use Rattle.std.specs.List.{list_any};
ghost use Rattle.clos_circle.specs.Circle.{are_next};
ghost use Rattle.clos_circle.specs.DefinitionView.{direct_of};
ghost use Rattle.clos_circle.specs.inner.Before.{related_by};
ghost use Rattle.clos_circle.specs.inner.Upward.{is_among};

use crate::definition::Definition;
use crate::precedence::are_next;
use crate::upward::is_among;
use lisp_data::Name;

/// Which classes stand above another one, so that circles of them are sought.
#[derive(Clone, Copy)]
pub(crate) enum Relation<'a> {
    /// Its direct superclasses.
    Above(Definition<'a>),
    /// Those that have to come before it by what these classes name (HyperSpec 4.3.5).
    Before(Definition<'a>, &'a [Name]),
}

impl<'a> Relation<'a> {
    /// Whether one class stands above the other.
    pub(crate) fn relates(self, above: &Name, name: &Name) -> bool
        ensures { result ≡ is_among (related_by self.entry name.now) above.now }
    {
        match self {
            Relation::Above(definition) => is_among(definition.direct(name), above),
            Relation::Before(definition, names) => { any_next(definition, names, above, name) }
        }
    }
}

/// Whether one has to come before the other, by what one of these names.
fn any_next(definition: Definition<'_>, names: &[Name], before: &Name, after: &Name) -> bool
    ensures { result ≡ list_any (λ by. are_next by (direct_of definition.entry by) before.now after.now) names.now }
{
    names
        .iter()
        .any(|by| are_next(by, definition.direct(by), before, after))
}
