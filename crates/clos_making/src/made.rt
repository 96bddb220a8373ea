//! What definition forms do once their forms are evaluated (HyperSpec 7.7): the checks again, now with the values, and one step for the whole
//! of the effect. What is refused takes none.
ghost use Rattle.std.specs.Prelude.{◌≡◌, [], ◌∷◌, Some, IfOk};
ghost use Rattle.lisp_data.specs.ValueView.{value_of};
ghost use Rattle.clos_machine.specs.clos_world.Uses.{uses_of};
ghost use Rattle.clos_machine.specs.clos_world.World.{seen};
ghost use Rattle.clos_effects.specs.clos_definition.Class.{class_concerned, initforms};
ghost use Rattle.clos_syntax.specs.Laws.{IsSpecialized};
ghost use Rattle.clos_effects.specs.clos_definition.Generic.{IsWellRead, generic_concerned};
ghost use Rattle.clos_effects.specs.clos_definition.Method.{method_concerned};
ghost use Rattle.clos_making.specs.Made.{class_made, generic_made, method_made, value_at, values_concerned, values_removed};
ghost use Rattle.clos_effects.specs.Effects.{AnswersNoting, UsesAfter};
ghost use Rattle.clos_effects.specs.Hearing.{Heard};

use clos_effects::{
    Dependents, NewCell, Slot, find_removable, make_prepared_class, number_of, prepare_class,
    prepare_generic, prepare_method, take_effect, take_out,
};
use clos_forms::{Form, FunctionName};
use clos_machine::{Stop, World};
use clos_syntax::{ClassDefinition, GenericDefinition, MethodDefinition};
use lisp_data::{Items, MethodId, Value};
use std::alloc::{AllocError, Global};

/// Makes a method, where the forms of its specializers gave these values.
#[tactic(auto, using(crate::proofs::Making::method_not_made, crate::proofs::Making::method_is_made, crate::proofs::Concerned::effect_uses))]
pub fn make_method<D: Dependents>(
    alloc: Global,
    world: &mut World,
    dependents: &mut D,
    name: FunctionName,
    definition: MethodDefinition,
    values: &[Slot],
    steps: &mut u64,
) -> Result<Value, Stop>
    requires { IsSpecialized definition }
    ensures answers { AnswersNoting (method_concerned name definition values.now (seen world.old))
        (method_made name definition values.now) (seen world.old) steps.old result (seen world.new) steps.new }
    ensures uses { UsesAfter (method_concerned name definition values.now (seen world.old)) (seen world.old)
        (uses_of world.old) result (uses_of world.new) }
    ensures heard { Heard (D.told dependents.old) (seen world.old) (D.told dependents.new) (seen world.new) }
    ensures names { D.names dependents.new ≡ D.names dependents.old }
{
    let id = MethodId(world.generics.method_count());
    match prepare_method(alloc, world, &name, definition, values) {
        Err(stop) => Err(stop),
        Ok(effect) => take_effect(alloc, world, dependents, effect, Value::Method(id), steps),
    }
}

/// Makes a generic function, where the forms of the specializers of its methods gave these values.
#[tactic(auto, using(crate::proofs::Making::generic_not_made, crate::proofs::Making::generic_is_made, crate::proofs::Concerned::effect_uses))]
pub fn make_generic<D: Dependents>(
    alloc: Global,
    world: &mut World,
    dependents: &mut D,
    definition: GenericDefinition,
    values: &[Slot],
    steps: &mut u64,
) -> Result<Value, Stop>
    requires { IsWellRead definition }
    ensures answers { AnswersNoting (generic_concerned definition values.now (seen world.old))
        (generic_made definition values.now) (seen world.old) steps.old result (seen world.new) steps.new }
    ensures uses { UsesAfter (generic_concerned definition values.now (seen world.old)) (seen world.old)
        (uses_of world.old) result (uses_of world.new) }
    ensures heard { Heard (D.told dependents.old) (seen world.old) (D.told dependents.new) (seen world.new) }
    ensures names { D.names dependents.new ≡ D.names dependents.old }
{
    let id = number_of(&world.generics, &definition.name);
    match prepare_generic(alloc, world, definition, values) {
        Err(stop) => Err(stop),
        Ok(effect) => take_effect(alloc, world, dependents, effect, Value::Generic(id), steps),
    }
}

/// The forms of the first values of these cells.
pub fn initforms(alloc: Global, cells: &[NewCell]) -> Result<Vec<Option<Form>>, AllocError>
    ensures { IfOk result (λ r. r.items ≡ initforms cells.now) }
{
    let mut forms = Vec::new(alloc);
    let mut left = cells;
    while let Some((cell, others)) = left.split_first() {
        forms.push(copy_form(&cell.initform)?)?;
        left = others;
    }
    Ok(forms)
}

fn copy_form(form: &Option<Form>) -> Result<Option<Form>, AllocError>
    ensures { IfOk result (λ r. r ≡ form.now) }
{
    match form {
        None => Ok(None),
        Some(form) => Ok(Some(form.copy()?)),
    }
}

/// Makes a class, whose new cells have these values.
#[tactic(auto, using(crate::proofs::Making::class_not_made))]
pub fn make_checked_class<D: Dependents>(
    alloc: Global,
    world: &mut World,
    dependents: &mut D,
    definition: &ClassDefinition,
    values: Vec<Slot>,
    steps: &mut u64,
) -> Result<Value, Stop>
    ensures answers { AnswersNoting (class_concerned definition.now values.items (seen world.old))
        (class_made definition.now values.items) (seen world.old) steps.old result (seen world.new) steps.new }
    ensures uses { UsesAfter (class_concerned definition.now values.items (seen world.old)) (seen world.old)
        (uses_of world.old) result (uses_of world.new) }
    ensures heard { Heard (D.told dependents.old) (seen world.old) (D.told dependents.new) (seen world.new) }
    ensures names { D.names dependents.new ≡ D.names dependents.old }
{
    match prepare_class(alloc, world, definition, values.len() as u64) {
        Err(stop) => Err(stop),
        Ok((class, accessors)) => {
            make_prepared_class(
                alloc, world, dependents, definition, class, values, accessors, steps,
            )
        }
    }
}

/// Two forms.
pub fn both(alloc: Global, function: Form, method: Form) -> Result<Vec<Option<Form>>, AllocError>
    ensures { IfOk result (λ r. r.items ≡ Some function ∷ Some method ∷ []) }
{
    let mut forms = Vec::new(alloc);
    forms.push(Some(function))?;
    forms.push(Some(method))?;
    Ok(forms)
}

/// Takes a method out of a function, which are these two values.
#[tactic(auto, using(crate::proofs::Making::removal_not_begun_yet, crate::proofs::Making::not_removable, crate::proofs::Making::is_removed, crate::proofs::Concerned::removal_uses))]
pub fn remove_evaluated<D: Dependents>(
    alloc: Global,
    world: &mut World,
    dependents: &mut D,
    values: &[Slot],
    steps: &mut u64,
) -> Result<Value, Stop>
    ensures answers { AnswersNoting (values_concerned values.now (seen world.old)) (values_removed values.now)
        (seen world.old) steps.old result (seen world.new) steps.new }
    ensures uses { UsesAfter (values_concerned values.now (seen world.old)) (seen world.old) (uses_of world.old) result
        (uses_of world.new) }
    ensures heard { Heard (D.told dependents.old) (seen world.old) (D.told dependents.new) (seen world.new) }
    ensures names { D.names dependents.new ≡ D.names dependents.old }
{
    let Ok(function) = value_or_nil(values, 0) else {
        return Err(Stop::Storage);
    };
    let Ok(method) = value_or_nil(values, 1) else {
        return Err(Stop::Storage);
    };
    match find_removable(alloc, &function, &method) {
        Err(stop) => Err(stop),
        Ok((generic, id)) => take_out(alloc, world, dependents, generic, id, function, steps),
    }
}

/// The value at this place.
pub fn value_or_nil(values: &[Slot], place: usize) -> Result<Value, AllocError>
    ensures { IfOk result (λ r. value_of r ≡ value_at values.now place) }
{
    match values.get(place) {
        None => Ok(Value::List(Items::new())),
        Some(slot) => match slot.value() {
            None => Ok(Value::List(Items::new())),
            Some(value) => Ok(value.copy()?),
        },
    }
}
