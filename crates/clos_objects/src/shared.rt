//! Calls of shared-initialize (HyperSpec 7.1.4), for initargs that are checked first (7.1.2).
ghost use Rattle.std.specs.Prelude.{◌≡◌, ◌∷◌, IfOk, map, option_map};
ghost use Rattle.lisp_data.specs.Value.{instance};
ghost use Rattle.lisp_data.specs.ValueView.{value_of};
ghost use Rattle.clos_machine.specs.clos_world.Uses.{uses_of};
ghost use Rattle.clos_machine.specs.clos_world.World.{seen};
ghost use Rattle.clos_machine.specs.Uses.{LeadsBy};
ghost use Rattle.clos_machine.specs.Machine.{Grows, Leads, value_weight, here};
ghost use Rattle.clos_machine.specs.clos_meaning.SystemMethods.{checked_shared, class_in, shared_initialized};

use crate::creation::refuse;
use clos_filling::initargs::invalid_initarg;
use clos_filling::reached::methods_reached;
use clos_forms::Forms;
use clos_machine::finalized::Finalized;
use clos_machine::machine::{Doing, Frame, Machine};
use clos_machine::moves::invoke_under;
use clos_machine::{ConditionKind, Stop, Values, World, plain};
use clos_method::SystemFunction;
use lisp_data::{ClassId, InstanceId, Value};
use std::alloc::{AllocError, Global};

/// The class of an instance, and what it has.
pub fn class_in(world: &World, id: InstanceId) -> Result<Option<(ClassId, Finalized)>, AllocError>
    ensures { IfOk result (λ r. option_map (λ p. (p.0.0, p.1)) r ≡ class_in (seen world.now) id.0) }
{
    match world.store().class_of(id) {
        None => Ok(None),
        Some(class) => match Finalized::find(world, class)? {
            None => Ok(None),
            Some(effective) => Ok(Some((class, effective))),
        },
    }
}

/// Shared-initialize is called with these arguments, and then the instance is given.
#[tactic(auto, using(clos_machine::proofs::Turns::grows_more))]
pub fn initialize_shared(
    alloc: Global,
    machine: &mut Machine,
    world: &World,
    id: InstanceId,
    names: Value,
    initargs: &[Value],
) -> Result<Doing, Stop>
    ensures leads { Leads (here machine.old (λ ev env. shared_initialized ev id.0 (value_of names)
        (map value_of initargs.now))) (seen world.now) result machine.new }
    ensures small { Grows value_weight machine.old.levels result machine.new }
{
    let _ = world;
    let arguments = shared_arguments(alloc, id, names, initargs)?;
    let frame = Frame::Keep(Forms::new(), Value::Instance(id));
    invoke_under(machine, SystemFunction::SharedInitialize, arguments, frame)
}

/// The arguments of shared-initialize: an instance, the names of slots, and the initargs.
fn shared_arguments(
    alloc: Global,
    id: InstanceId,
    names: Value,
    initargs: &[Value],
) -> Result<Values, AllocError>
    ensures { IfOk result (λ r. r ≡ instance id.0 ∷ value_of names ∷ map value_of initargs.now) }
{
    let mut arguments = Values::new(alloc);
    let Ok(()) = arguments.push(Value::Instance(id)) else {
        drop(names);
        return Err(AllocError);
    };
    arguments.push(names)?;
    arguments.push_all(initargs)?;
    Ok(arguments)
}

/// Shared-initialize is called with an instance, these names of slots and these initargs, unless one is not valid for a call of
/// this function with these arguments; then the instance is given.
#[tactic(auto, using(clos_machine::proofs::Uses::leads_storage))]
pub fn check_shared(
    alloc: Global,
    machine: &mut Machine,
    world: &mut World,
    function: SystemFunction,
    arguments: &[Value],
    names: &Value,
    id: InstanceId,
    initargs: &[Value],
) -> Result<Doing, Stop>
    ensures leads { LeadsBy (here machine.old (λ ev env. checked_shared ev function (map value_of arguments.now)
        (value_of names.now) (map value_of initargs.now) id.0)) (seen world.old) (uses_of world.old) result machine.new
        (uses_of world.new) }
    ensures same { seen world.new ≡ seen world.old }
    ensures small { Grows value_weight machine.old.levels result machine.new }
{
    match class_in(world, id)? {
        None => Err(Stop::Refused(plain(alloc, ConditionKind::ProgramError))),
        Some((class, effective)) => {
            let given = names.copy()?;
            let Ok(reached) = methods_reached(alloc, world, function, arguments, id, given) else {
                return Err(Stop::Storage);
            };
            let methods = world.generics.methods();
            if let Some(name) = invalid_initarg(methods, &reached, effective.slots(), initargs) {
                return Err(refuse(alloc, world, class, name));
            }
            let Ok(names) = names.copy() else {
                return Err(Stop::Storage);
            };
            initialize_shared(alloc, machine, world, id, names, initargs)
        }
    }
}
