//! Conditions that many handlers answer: faults of functions of values, values of a wrong type, classes that are not complete.
ghost use Rattle.std.specs.Prelude.{◌≡◌, IfOk};
ghost use Rattle.lisp_data.specs.ValueView.{value_of};
ghost use Rattle.lisp_prims.specs.Fault.{Condition as Signalled, StandsFor};
ghost use Rattle.lisp_prims.specs.declared.fault.PrimFault.TheVariants.{Memory};
ghost use Rattle.clos_meaning.specs.clos_world.declared.condition.Stop.TheVariants.{Storage};
ghost use Rattle.clos_meaning.specs.clos_world.Class.{class_name};
ghost use Rattle.clos_meaning.specs.clos_world.World.{seen};
ghost use Rattle.clos_meaning.specs.ClassFunctions.{incomplete_class, wrong_type};
ghost use Rattle.clos_machine.specs.Fault.{Signals};
ghost use Rattle.clos_machine.specs.Machine.{DesignatesInstance};
ghost use Rattle.clos_meaning.specs.Slots.{instance_in};

use clos_meaning::{Condition, ConditionKind, Stop, World, about, about_name, plain};
use lisp_data::{ClassId, InstanceId, Naming, Value};
use lisp_prims::PrimFault;
use std::alloc::{AllocError, Global};

/// Why an evaluation stops at a fault of a function of values.
pub fn of_function(alloc: Global, fault: PrimFault) -> Stop
    ensures signals { (c : Signalled) → StandsFor fault c → Signals c result }
    ensures memory { fault ≡ Memory → result ≡ Storage }
{
    match fault {
        PrimFault::ProgramError => Stop::Refused(plain(alloc, ConditionKind::ProgramError)),
        PrimFault::TypeError(value) => match about(alloc, ConditionKind::TypeError, value) {
            Ok(condition) => Stop::Refused(condition),
            Err(_) => Stop::Storage,
        },
        PrimFault::IntegerRange => Stop::Refused(plain(alloc, ConditionKind::IntegerRange)),
        PrimFault::DivisionByZero => Stop::Refused(plain(alloc, ConditionKind::DivisionByZero)),
        PrimFault::Unsupported => Stop::Refused(plain(alloc, ConditionKind::Unsupported)),
        PrimFault::Memory => Stop::Storage,
    }
}

/// The condition that this value is of a wrong type.
pub fn wrong_type(alloc: Global, value: &Value) -> Result<Condition, AllocError>
    ensures { IfOk result (λ c. c ≡ wrong_type (value_of value.now)) }
{
    about(alloc, ConditionKind::TypeError, value.copy()?)
}

/// The condition that this class is not complete.
pub fn incomplete_class(alloc: Global, world: &World, id: ClassId) -> Result<Condition, AllocError>
    ensures { IfOk result (λ c. c ≡ incomplete_class (class_name (seen world.now).classes id.0)) }
{
    match world.class_name(id) {
        None => Ok(plain(alloc, ConditionKind::IncompleteClass)),
        Some(name) => about_name(alloc, ConditionKind::IncompleteClass, name),
    }
}

/// The instance that a value is.
pub fn instance_in(alloc: Global, object: &Value) -> Result<InstanceId, Stop>
    ensures { DesignatesInstance (instance_in (value_of object.now)) result }
{
    match object {
        Value::Instance(id) => Ok(*id),
        _ => Err(Stop::Refused(wrong_type(alloc, object)?)),
    }
}
