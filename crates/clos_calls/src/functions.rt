//! Calls of functions by their names (HyperSpec 3.1.2.1.2.3).
ghost use Rattle.std.specs.Prelude.{◌≡◌};
ghost use Rattle.lisp_data.specs.ValueView.{value_of};
ghost use Rattle.lisp_prims.specs.Primitive.{answer};
ghost use Rattle.clos_forms.specs.OperatorView.{called_of};
ghost use Rattle.clos_forms.specs.Quotation.{name_value};
ghost use Rattle.clos_forms.specs.declared.operator.FunctionName.TheVariants.{Symbol};
ghost use Rattle.clos_machine.specs.clos_world.clos_generic.Table.{named};
ghost use Rattle.clos_machine.specs.clos_world.FunctionName.{setter_value};
ghost use Rattle.clos_machine.specs.clos_world.Functions.{function_in};
ghost use Rattle.clos_machine.specs.clos_world.Uses.{uses_of};
ghost use Rattle.clos_machine.specs.clos_world.World.{seen};
ghost use Rattle.clos_machine.specs.clos_meaning.Calls.{applied_to, called_defined, called_function, called_setter};
ghost use Rattle.clos_machine.specs.clos_meaning.Fault.{answered};
ghost use Rattle.clos_machine.specs.Uses.{LeadsBy};
ghost use Rattle.clos_machine.specs.Machine.{Leads, Grows, at, inside, collected, collect_weight, value_weight, here, Does};
ghost use Rattle.clos_machine.specs.clos_meaning.Meaning.{function_value, is_plain_function, other_function};
ghost use Rattle.clos_machine.specs.declared.machine.Action.TheVariants.{Call};

use crate::bodies::run_body;
use crate::generic_calls::call_generic;
use clos_forms::{CalledName, Forms, FunctionName, is_function, value_named};
use clos_machine::fault::of_function;
use clos_machine::machine::{Action, Doing, Machine};
use clos_machine::moves::collect_next;
use clos_machine::parameters::fits;
use clos_machine::{
    Arguments, ConditionKind, Context, Function, Stop, Values, World, about, about_name, plain,
    setter_value,
};
use lisp_data::{Name, Value};
use lisp_prims::{Primitive, apply};
use std::alloc::{AllocError, Global};

/// A call of the function of this name begins with its arguments.
pub fn start_call(
    alloc: Global,
    machine: &mut Machine,
    name: &CalledName,
    arguments: &Forms,
) -> Result<Doing, Stop>
    ensures leads { Does (λ ev env. collected ev env arguments.now (Call name.now)) machine.old result machine.new }
    ensures small { Grows (collect_weight (Call name.now)) machine.old.levels result machine.new }
{
    let action = Action::Call(name.copy()?);
    collect_next(machine, action, arguments, Values::new(alloc))
}

/// A function of values.
#[tactic(auto, using(clos_machine::proofs::Turns::stopped_through))]
pub fn compute(
    alloc: Global,
    machine: &mut Machine,
    world: &World,
    primitive: Primitive,
    values: &Values,
) -> Result<Doing, Stop>
    ensures leads { Leads (inside machine.old (answered (answer primitive values.now))) (seen world.now) result
        machine.new }
    ensures small { Grows value_weight machine.old.levels result machine.new }
{
    let _ = world;
    match apply(primitive, alloc, values.as_slice()) {
        Ok(value) => Ok(Doing::Give(value)),
        Err(fault) => Err(of_function(alloc, fault)),
    }
}

/// A call of the function of the program's of this name.
#[tactic(auto, using(clos_machine::proofs::Turns::stopped_through, clos_machine::proofs::Turns::grows_more, clos_machine::proofs::Uses::leads_none, clos_machine::proofs::Uses::leads_storage))]
pub fn call(
    alloc: Global,
    machine: &mut Machine,
    world: &mut World,
    name: &Name,
    values: Values,
) -> Result<Doing, Stop>
    ensures leads { LeadsBy (here machine.old (λ ev env w. called_function ev name.now values
        (named w.generics (Symbol name.now)) w)) (seen world.old) (uses_of world.old) result machine.new
        (uses_of world.new) }
    ensures same { seen world.new ≡ seen world.old }
    ensures small { Grows value_weight machine.old.levels result machine.new }
{
    match world.generics.named_by_symbol(name) {
        None => call_named(alloc, machine, world, name, values),
        Some(id) => call_generic(alloc, machine, world, id, values),
    }
}

/// A call of the function that a `defun` gave this name.
#[tactic(auto, using(clos_machine::proofs::Turns::stopped_through))]
fn call_named(
    alloc: Global,
    machine: &mut Machine,
    world: &World,
    name: &Name,
    values: Values,
) -> Result<Doing, Stop>
    ensures leads { Leads (here machine.old (λ ev env w. called_defined ev values (name_value name.now)
        (function_in w.functions name.now) w)) (seen world.now) result machine.new }
    ensures small { Grows value_weight machine.old.levels result machine.new }
{
    match world.functions.get(name) {
        None => {
            let condition = about_name(alloc, ConditionKind::UndefinedFunction, name)?;
            Err(Stop::Refused(condition))
        }
        Some(function) => call_function(alloc, machine, world, function, values),
    }
}

/// A call of the function `(setf name)`, whose first argument is the last of the values.
#[tactic(auto, using(clos_machine::proofs::Turns::stopped_through, clos_machine::proofs::Turns::grows_more, clos_machine::proofs::Uses::leads_storage))]
pub fn call_setter(
    alloc: Global,
    machine: &mut Machine,
    world: &mut World,
    name: &Name,
    mut values: Values,
) -> Result<Doing, Stop>
    ensures leads { LeadsBy (here machine.old (λ ev env. called_setter ev name.now values)) (seen world.old)
        (uses_of world.old) result machine.new (uses_of world.new) }
    ensures same { seen world.new ≡ seen world.old }
    ensures small { Grows value_weight machine.old.levels result machine.new }
{
    values.put_last_first()?;
    match world.generics.named_by_setf(name) {
        None => call_set_function(alloc, machine, world, name, values),
        Some(id) => call_generic(alloc, machine, world, id, values),
    }
}

/// A call of the function that a `defun` gave the name `(setf name)`.
#[tactic(auto, using(clos_machine::proofs::Turns::stopped_through))]
fn call_set_function(
    alloc: Global,
    machine: &mut Machine,
    world: &World,
    name: &Name,
    values: Values,
) -> Result<Doing, Stop>
    ensures leads { Leads (here machine.old (λ ev env w. called_defined ev values (setter_value name.now)
        (function_in w.setters name.now) w)) (seen world.now) result machine.new }
    ensures small { Grows value_weight machine.old.levels result machine.new }
{
    match world.setters.get(name) {
        None => {
            let kind = ConditionKind::UndefinedFunction;
            Err(Stop::Refused(about(alloc, kind, setter_value(alloc, name)?)?))
        }
        Some(function) => call_function(alloc, machine, world, function, values),
    }
}

/// A call of a function of the program's.
#[tactic(auto, using(clos_machine::proofs::Turns::stopped_through))]
fn call_function(
    alloc: Global,
    machine: &mut Machine,
    world: &World,
    function: &Function,
    values: Values,
) -> Result<Doing, Stop>
    ensures leads { Leads (here machine.old (λ ev env. applied_to ev values function.now)) (seen world.now) result
        machine.new }
    ensures small { Grows value_weight machine.old.levels result machine.new }
{
    if !fits(&function.lambda_list, values.as_slice()) {
        return Err(Stop::Refused(plain(alloc, ConditionKind::ProgramError)));
    }
    let arguments = Arguments::new(alloc, values)?;
    let context = Context::of_function(alloc, arguments)?;
    run_body(
        alloc,
        machine,
        world,
        context,
        &function.lambda_list,
        &function.body,
    )
}

/// What a `function` form names: a generic function.
#[tactic(auto, using(clos_machine::proofs::Turns::stopped_through))]
pub fn function_named(
    alloc: Global,
    machine: &mut Machine,
    world: &World,
    name: &FunctionName,
) -> Result<Doing, Stop>
    ensures leads { Leads (inside machine.old (function_value (called_of name.now))) (seen world.now) result machine.new }
    ensures small { Grows value_weight machine.old.levels result machine.new }
{
    match name {
        FunctionName::Symbol(name) => match world.generics.named_by_symbol(name) {
            Some(id) => Ok(Doing::Give(Value::Generic(id))),
            None => {
                let known = is_plain_function(world, name);
                no_object(alloc, machine, world, known, value_named(name)?)
            }
        },
        FunctionName::Setf(name) => {
            match world.generics.named_by_setf(name) {
                Some(id) => Ok(Doing::Give(Value::Generic(id))),
                None => {
                    let known = world.setters.get(name).is_some();
                    no_object(alloc, machine, world, known, setter_value(alloc, name)?)
                }
            }
        }
    }
}

/// Whether a symbol names a function that is no generic function.
fn is_plain_function(world: &World, name: &Name) -> bool
    ensures { result ≡ is_plain_function (seen world.now) name.now }
{
    is_function(name) || world.functions.get(name).is_some()
}

/// A function that is no object here, or none at all.
#[tactic(auto, using(clos_machine::proofs::Turns::stopped_through))]
fn no_object(
    alloc: Global,
    machine: &Machine,
    world: &World,
    known: bool,
    name: Value,
) -> Result<Doing, Stop>
    ensures leads { Leads (inside machine.now (other_function known (value_of name))) (seen world.now) result
        machine.now }
    ensures small { Grows value_weight machine.now.levels result machine.now }
{
    let _ = machine;
    let _ = world;
    if known {
        return Err(Stop::Refused(plain(alloc, ConditionKind::Unsupported)));
    }
    Err(Stop::Refused(about(alloc, ConditionKind::UndefinedFunction, name)?))
}
