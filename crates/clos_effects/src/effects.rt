//! The effects of definitions: each was prepared before, takes one step, and is told to those that watch what it changes.
ghost use Rattle.std.specs.Prelude.{◌≡◌, None, length};
ghost use Rattle.lisp_data.specs.Value.{class};
ghost use Rattle.lisp_data.specs.ValueView.{value_of};
ghost use Rattle.clos_meaning.specs.clos_world.Uses.{uses_of};
ghost use Rattle.clos_meaning.specs.clos_world.World.{seen};
ghost use Rattle.clos_definition.specs.Class.{class_concerned_by, class_notices, class_refusal, noting, with_class};
ghost use Rattle.clos_definition.specs.Effect.{IsReserved, concerned_by, with_effect};
ghost use Rattle.clos_definition.specs.Removal.{concerned_by_removal, with_removed};
ghost use Rattle.clos_effects.specs.Effects.{AnswersNoting, UsesAfter, takes_effect};
ghost use Rattle.clos_effects.specs.Hearing.{Heard};

use crate::telling::{prepare_to_tell, tell};
use clos_defclass::ClassDefinition;
use clos_definition::{
    Dependents, Effect, Notice, Slot, class_notices, make, make_class, possible_notices, remove,
};
use clos_meaning::{ConditionKind, Stop, World, plain};
use lisp_data::{ClassId, GenericId, MethodId, Value};
use std::alloc::Global;

/// Takes the step of an effect that was prepared, and then makes it.
pub fn take_effect<D: Dependents>(
    alloc: Global,
    world: &mut World,
    dependents: &mut D,
    effect: Effect,
    value: Value,
    steps: &mut u64,
) -> Result<Value, Stop>
    requires { IsReserved effect world.old.generics }
    ensures answers { AnswersNoting (concerned_by effect (seen world.old).generics)
        (takes_effect (concerned_by effect (seen world.old).generics) (value_of value)
        (with_effect effect (seen world.old))) (seen world.old) steps.old result (seen world.new) steps.new }
    ensures uses { UsesAfter (concerned_by effect (seen world.old).generics) (seen world.old) (uses_of world.old) result
        (uses_of world.new) }
    ensures heard { Heard (D.told dependents.old) (seen world.old) (D.told dependents.new) (seen world.new) }
    ensures names { D.names dependents.new ≡ D.names dependents.old }
{
    if *steps == 0 {
        return Err(Stop::Refused(plain(alloc, ConditionKind::StepLimit)));
    }
    let Ok(notices) = possible_notices(alloc, world, &effect) else {
        return Err(Stop::Storage);
    };
    let Ok(()) = prepare_to_tell(world, dependents, notices.as_slice()) else {
        return Err(Stop::Storage);
    };
    let from = world.hearing.notices.len();
    *steps -= 1;
    make(world, effect);
    tell(world, dependents, from);
    Ok(value)
}

/// Takes the step of a class whose accessors were prepared, and then makes it.
pub fn make_prepared_class<D: Dependents>(
    alloc: Global,
    world: &mut World,
    dependents: &mut D,
    definition: &ClassDefinition,
    id: ClassId,
    values: Vec<Slot>,
    accessors: Effect,
    steps: &mut u64,
) -> Result<Value, Stop>
    requires allowed { class_refusal definition.now (length values.items) (seen world.old) ≡ None }
    requires reserved { IsReserved accessors world.old.generics }
    ensures answers { AnswersNoting (class_concerned_by definition.now values.items accessors (seen world.old))
        (takes_effect (class_concerned_by definition.now values.items accessors (seen world.old)) (class id.0)
        (with_class definition.now values.items (with_effect accessors
        (noting (class_notices definition.now (seen world.old)) (seen world.old))))) (seen world.old) steps.old result
        (seen world.new) steps.new }
    ensures uses { UsesAfter (class_concerned_by definition.now values.items accessors (seen world.old))
        (seen world.old) (uses_of world.old) result (uses_of world.new) }
    ensures heard { Heard (D.told dependents.old) (seen world.old) (D.told dependents.new) (seen world.new) }
    ensures names { D.names dependents.new ≡ D.names dependents.old }
{
    if *steps == 0 {
        return Err(Stop::Refused(plain(alloc, ConditionKind::StepLimit)));
    }
    let Ok(notices) = class_notices(alloc, world, definition, &accessors) else {
        return Err(Stop::Storage);
    };
    let Ok(()) = prepare_to_tell(world, dependents, notices.as_slice()) else {
        return Err(Stop::Storage);
    };
    let from = world.hearing.notices.len();
    let Ok(()) = make_class(alloc, world, definition, values, accessors) else {
        return Err(Stop::Storage);
    };
    *steps -= 1;
    tell(world, dependents, from);
    Ok(Value::Class(id))
}

/// Takes the step of a removal, and then makes it. The value is the function.
pub fn take_out<D: Dependents>(
    alloc: Global,
    world: &mut World,
    dependents: &mut D,
    generic: GenericId,
    method: MethodId,
    function: Value,
    steps: &mut u64,
) -> Result<Value, Stop>
    ensures answers { AnswersNoting (concerned_by_removal generic.0 method.0 (seen world.old).generics)
        (takes_effect (concerned_by_removal generic.0 method.0 (seen world.old).generics) (value_of function)
        (with_removed generic.0 method.0 (seen world.old))) (seen world.old) steps.old result (seen world.new) steps.new }
    ensures uses { UsesAfter (concerned_by_removal generic.0 method.0 (seen world.old).generics) (seen world.old)
        (uses_of world.old) result (uses_of world.new) }
    ensures heard { Heard (D.told dependents.old) (seen world.old) (D.told dependents.new) (seen world.new) }
    ensures names { D.names dependents.new ≡ D.names dependents.old }
{
    if *steps == 0 {
        return Err(Stop::Refused(plain(alloc, ConditionKind::StepLimit)));
    }
    let Ok(()) = prepare_to_tell(world, dependents, &[Notice::MethodRemoved(generic, method)])
    else {
        return Err(Stop::Storage);
    };
    let from = world.hearing.notices.len();
    *steps -= 1;
    remove(world, generic, method);
    tell(world, dependents, from);
    Ok(function)
}
