//! What operators bind: names, variables with their init forms, and slots.
ghost use Rattle.std.specs.Prelude.{◌≡◌, map};
ghost use Rattle.clos_forms.specs.BoundView.{bound, bound_slot};

use lisp_data::Name;
use std::marker::Model;

/// Names, in order. Contracts see the list.
#[derive(Drop)]
pub struct Names {
    names: Vec<Name>,
}

/// A variable that is bound, and whether it has an init form; without one it is bound to NIL.
#[derive(Drop)]
pub struct Binding {
    pub name: Name,
    pub has_init: bool,
}

/// The variables that a `let` or `let*` binds, in order. Contracts see the list of their names, each with whether it
/// has an init form.
#[derive(Drop)]
pub struct Bindings {
    bindings: Vec<Binding>,
}

/// A variable that stands for a slot.
#[derive(Drop)]
pub struct SlotBinding {
    pub variable: Name,
    pub slot: Name,
}

/// The variables of a `with-slots`, in order. Contracts see the list of their names, each with its slot's.
#[derive(Drop)]
pub struct SlotBindings {
    slots: Vec<SlotBinding>,
}

impl Model for Names {
    ghost use Rattle.std.specs.Prelude.{List};
    ghost use Rattle.std.specs.Coded.{coded_list};
    ghost use Rattle.lisp_data.specs.Name.{Name};
    ghost use Rattle.lisp_data.specs.inner.NameCode.{name_code};

    ghost Value = { List Name };

    ghost coded = { coded_list name_code };

    ghost view = { λ a. a.names.items };
}

impl Model for Bindings {
    ghost use Rattle.std.specs.Prelude.{List, map};
    ghost use Rattle.clos_forms.specs.Operator.{Bound};
    ghost use Rattle.clos_forms.specs.inner.OperatorCode.{bounds_code};

    ghost Value = { List Bound };

    ghost coded = { bounds_code };

    ghost use Rattle.clos_forms.specs.BoundView.{bound};

    ghost view = { λ a. map bound a.bindings.items };
}

impl Model for SlotBindings {
    ghost use Rattle.std.specs.Prelude.{List, map};
    ghost use Rattle.clos_forms.specs.Operator.{BoundSlot};
    ghost use Rattle.clos_forms.specs.inner.OperatorCode.{bound_slots_code};

    ghost Value = { List BoundSlot };

    ghost coded = { bound_slots_code };

    ghost use Rattle.clos_forms.specs.BoundView.{bound_slot};

    ghost view = { λ a. map bound_slot a.slots.items };
}

impl Names {
    /// These names.
    pub fn new(names: Vec<Name>) -> Names
        ensures { result ≡ names.items }
    {
        Names { names }
    }

    /// The names.
    pub fn as_slice(&self) -> &[Name]
        ensures { result.now ≡ self.now }
    {
        self.names.as_slice()
    }
}

impl Bindings {
    /// These variables.
    pub fn new(bindings: Vec<Binding>) -> Bindings
        ensures { result ≡ map bound bindings.items }
    {
        Bindings { bindings }
    }

    /// The variables.
    pub fn as_slice(&self) -> &[Binding]
        ensures { map bound result.now ≡ self.now }
    {
        self.bindings.as_slice()
    }
}

impl SlotBindings {
    /// These variables.
    pub fn new(slots: Vec<SlotBinding>) -> SlotBindings
        ensures { result ≡ map bound_slot slots.items }
    {
        SlotBindings { slots }
    }

    /// The variables.
    pub fn as_slice(&self) -> &[SlotBinding]
        ensures { map bound_slot result.now ≡ self.now }
    {
        self.slots.as_slice()
    }
}
