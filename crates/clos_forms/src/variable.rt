//! Variables that are read, and where they stand among the names in scope (HyperSpec 3.1.2.1.1).
ghost use Rattle.std.specs.Prelude.{◌≡◌};

use lisp_data::Name;
use std::marker::Model;

/// Where a name stands among those in scope in a body.
#[derive(Clone, Copy, Debug, Drop, PartialEq, Eq)]
pub struct Position {
    /// Which of the lists of names around it binds it, the outermost first: that of a body's parameters, or a form's.
    pub frame: usize,
    /// Which of the names of its list it is.
    pub position: usize,
    /// Which of all names in scope it is, the outermost first.
    pub place: usize,
}

/// A variable that is read. It has its position, where a parameter or a form around it binds it; who takes the name that
/// stands there looks whether it is this one. Contracts see the name.
#[derive(Drop)]
pub struct Variable {
    name: Name,
    position: Option<Position>,
}

impl Model for Variable {
    ghost use Rattle.lisp_data.specs.Name.{Name};
    ghost use Rattle.lisp_data.specs.inner.NameCode.{name_code};

    ghost Value = { Name };

    ghost coded = { name_code };

    ghost view = { λ a. a.name };
}

impl Variable {
    /// The variable of this name, which stands here.
    pub fn new(name: Name, position: Option<Position>) -> Variable
        ensures { result ≡ name }
    {
        Variable { name, position }
    }

    /// Its name.
    pub fn name(&self) -> &Name
        ensures { result.now ≡ self.now }
    {
        &self.name
    }

    /// Where it stands; None of a global variable.
    pub fn position(&self) -> Option<Position> {
        self.position
    }
}
