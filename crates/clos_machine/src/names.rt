//! What names stand for: variables (HyperSpec 3.1.2.1.1), and slots of objects (7.7 `with-slots`).
ghost use Rattle.std.specs.Prelude.{◌≡◌, ◌∷◌, [], IfOk, option_map};
ghost use Rattle.lisp_data.specs.ValueView.{value_of};
ghost use Rattle.clos_forms.specs.Quotation.{name_value};
ghost use Rattle.clos_meaning.specs.clos_world.World.{State, seen};
ghost use Rattle.clos_meaning.specs.SlotNames.{place_denoted};
ghost use Rattle.clos_meaning.specs.Variables.{found_value, or_global};
ghost use Rattle.clos_meaning.specs.clos_world.Globals.{global_value};
ghost use Rattle.clos_machine.specs.LocalsView.{denoted_of};
ghost use Rattle.clos_machine.specs.Machine.{at};

use crate::locals::Denotation;
use crate::machine::Machine;
use clos_forms::{Variable, value_named};
use clos_meaning::{Values, World};
use lisp_data::{Name, Value};
use std::alloc::{AllocError, Global};

/// The value of a variable: of the innermost lexical one of this name, else of the global one. A name that stands for a
/// slot is none.
pub fn value_of_variable<'a>(
    machine: &'a Machine,
    world: &'a World,
    name: &Name,
) -> Option<&'a Value>
    ensures { option_map (λ v. value_of v.now) result ≡ found_value (at machine.now (seen world.now)) name.now }
{
    value_denoted(machine.locals.get(name), world, name)
}

/// The value of a variable that is read, in the same way.
pub fn value_of_read<'a>(
    machine: &'a Machine,
    world: &'a World,
    variable: &Variable,
) -> Option<&'a Value>
    ensures { option_map (λ v. value_of v.now) result ≡ found_value (at machine.now (seen world.now)) variable.now }
{
    let found = match variable.position() {
        Some(position) => machine.locals.get_at(variable.name(), position.place),
        None => machine.locals.get(variable.name()),
    };
    value_denoted(found, world, variable.name())
}

/// The value of a variable whose name denotes this.
fn value_denoted<'a>(
    found: Option<&'a Denotation>,
    world: &'a World,
    name: &Name,
) -> Option<&'a Value>
    ensures { option_map (λ v. value_of v.now) result ≡ or_global (option_map (λ d. denoted_of d.now) found.entry)
        (global_value (seen world.now).globals name.now) }
{
    match found {
        Some(Denotation::Held(value)) => Some(value),
        Some(Denotation::InSlot(_, _)) => None,
        None => world.globals.value(name),
    }
}

/// The arguments of the place that a name stands for, the object and the slot's name, where it does not name a variable.
pub fn place_denoted(
    alloc: Global,
    machine: &Machine,
    name: &Name,
) -> Result<Option<Values>, AllocError>
    ensures { (w : State) → IfOk result (λ r. r ≡ place_denoted (at machine.now w) name.now) }
{
    match machine.locals.get(name) {
        Some(Denotation::InSlot(slot, object)) => Ok(Some(slot_place(alloc, slot, object)?)),
        Some(Denotation::Held(_)) => Ok(None),
        None => Ok(None),
    }
}

/// The arguments of the place that is this slot of an object.
fn slot_place(alloc: Global, slot: &Name, object: &Value) -> Result<Values, AllocError>
    ensures { IfOk result (λ r. r ≡ value_of object.now ∷ name_value slot.now ∷ []) }
{
    let mut place = Values::new(alloc);
    place.push(object.copy()?)?;
    place.push(value_named(slot)?)?;
    Ok(place)
}
