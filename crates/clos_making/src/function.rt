//! What a `defun` does (HyperSpec 5.3). It takes one step for the whole of its effect.
ghost use Rattle.std.specs.Prelude.{◌≡◌, ◌+◌, IfOk, length, is_some};
ghost use Rattle.lisp_data.specs.ValueView.{value_of};
ghost use Rattle.clos_forms.specs.Quotation.{name_value};
ghost use Rattle.clos_machine.specs.clos_world.Uses.{uses_of};
ghost use Rattle.clos_machine.specs.clos_world.World.{seen};
ghost use Rattle.clos_machine.specs.Machine.{Answers};
ghost use Rattle.clos_effects.specs.Effects.{SameAtStorage};
ghost use Rattle.clos_making.specs.Function.{define_function, new_function_defined, new_setter_defined, has_room};

use clos_forms::{FunctionName, value_named};
use clos_machine::{ConditionKind, Function, Stop, World, plain, setter_value};
use clos_syntax::FunctionDefinition;
use lisp_data::{Name, Value};
use std::alloc::Global;

/// Defines a function, in place of an older one of its name.
pub fn defun(
    alloc: Global,
    world: &mut World,
    definition: FunctionDefinition,
    steps: &mut u64,
) -> Result<Value, Stop>
    ensures answers { Answers (define_function definition.name (record
        { lambda_list = definition.lambda_list; body = definition.body })) (seen world.old) steps.old result
        (seen world.new) steps.new }
    ensures kept { uses_of world.new ≡ uses_of world.old }
    ensures undone { SameAtStorage result (seen world.old) (seen world.new) }
{
    let FunctionDefinition {
        name,
        lambda_list,
        body,
    } = definition;
    let function = Function { lambda_list, body };
    match name {
        FunctionName::Symbol(name) => define_named(alloc, world, name, function, steps),
        FunctionName::Setf(name) => define_setter(alloc, world, name, function, steps),
    }
}

/// Whether one more function may be defined.
fn has_room(world: &World) -> bool
    ensures { result ≡ has_room (seen world.now) }
{
    let functions = world.functions.len() as u64;
    let setters = world.setters.len() as u64;
    functions < world.limits.functions && setters < world.limits.functions - functions
}

/// Defines the function that a symbol names.
fn define_named(
    alloc: Global,
    world: &mut World,
    name: Name,
    function: Function,
    steps: &mut u64,
) -> Result<Value, Stop>
    ensures answers { Answers (new_function_defined name function) (seen world.old) steps.old result (seen world.new)
        steps.new }
    ensures kept { uses_of world.new ≡ uses_of world.old }
    ensures undone { SameAtStorage result (seen world.old) (seen world.new) }
{
    if world.generics.named_by_symbol(&name).is_some() {
        return Err(Stop::Refused(plain(alloc, ConditionKind::ProgramError)));
    }
    if world.functions.get(&name).is_none() && !has_room(world) {
        return Err(Stop::Refused(plain(alloc, ConditionKind::TableLimit)));
    }
    if *steps == 0 {
        return Err(Stop::Refused(plain(alloc, ConditionKind::StepLimit)));
    }
    let Ok(value) = value_named(&name) else {
        return Err(Stop::Storage);
    };
    let Ok(()) = world.functions.define(name, function) else {
        return Err(Stop::Storage);
    };
    *steps -= 1;
    Ok(value)
}

/// Defines the function `(setf name)`.
fn define_setter(
    alloc: Global,
    world: &mut World,
    name: Name,
    function: Function,
    steps: &mut u64,
) -> Result<Value, Stop>
    ensures answers { Answers (new_setter_defined name function) (seen world.old) steps.old result (seen world.new)
        steps.new }
    ensures kept { uses_of world.new ≡ uses_of world.old }
    ensures undone { SameAtStorage result (seen world.old) (seen world.new) }
{
    if world.generics.named_by_setf(&name).is_some() {
        return Err(Stop::Refused(plain(alloc, ConditionKind::ProgramError)));
    }
    if world.setters.get(&name).is_none() && !has_room(world) {
        return Err(Stop::Refused(plain(alloc, ConditionKind::TableLimit)));
    }
    if *steps == 0 {
        return Err(Stop::Refused(plain(alloc, ConditionKind::StepLimit)));
    }
    let Ok(value) = setter_value(alloc, &name) else {
        return Err(Stop::Storage);
    };
    let Ok(()) = world.setters.define(name, function) else {
        return Err(Stop::Storage);
    };
    *steps -= 1;
    Ok(value)
}
