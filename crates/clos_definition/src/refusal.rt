//! Why a definition is refused.
ghost use Rattle.std.specs.Prelude.{◌≡◌, ◌∷◌, [], IfOk, Option, option_map};
ghost use Rattle.clos_generic.specs.Fault.{Refusal};
ghost use Rattle.clos_generic.specs.FaultView.{Refuses, Tells};
ghost use Rattle.clos_world.specs.FunctionName.{called_value};
ghost use Rattle.clos_world.specs.World.{seen};
ghost use Rattle.clos_definition.specs.Refusal.{Allows, StopsFor, is_taken, not_congruent, taken_refusal, told};

use clos_forms::FunctionName;
use clos_generic::GenericFault;
use clos_world::{Condition, ConditionKind, Stop, World, about, called_value, plain};
use std::alloc::{AllocError, Global};

/// Whether the name is that of a function that is no generic function.
fn is_taken(world: &World, name: &FunctionName) -> bool
    ensures { result ≡ is_taken (seen world.now) name.now }
{
    match name {
        FunctionName::Symbol(name) => world.functions.get(name).is_some(),
        FunctionName::Setf(name) => world.setters.get(name).is_some(),
    }
}

/// A program error, where the name is that of a function that is no generic function.
pub fn refuse_taken(alloc: Global, world: &World, name: &FunctionName) -> Result<(), Stop>
    ensures { Allows (taken_refusal name.now (seen world.now)) result }
{
    if is_taken(world, name) {
        return Err(Stop::Refused(plain(alloc, ConditionKind::ProgramError)));
    }
    Ok(())
}

/// The condition that a method is not congruent with the function of this name.
pub fn not_congruent(alloc: Global, name: &FunctionName) -> Result<Condition, AllocError>
    ensures { IfOk result (λ c. c ≡ not_congruent name.now) }
{
    about_function(alloc, ConditionKind::LambdaListCongruence, name)
}

/// A condition about the function of this name.
fn about_function(
    alloc: Global,
    kind: ConditionKind,
    name: &FunctionName,
) -> Result<Condition, AllocError>
    ensures { IfOk result (λ c. c ≡ record { kind = kind; items = called_value name.now ∷ [] }) }
{
    let name = called_value(alloc, name)?;
    about(alloc, kind, name)
}

/// What is told of a fault of the table of generic functions, where a form defines the function of this name or a method of it.
pub fn stop_for(alloc: Global, name: &FunctionName, fault: GenericFault) -> Stop
    ensures refuses { (o : Option Refusal) → Refuses fault o → StopsFor (option_map (told name.now) o) result }
    ensures tells { (o : Option Refusal) → Tells fault o → StopsFor (option_map (told name.now) o) result }
{
    let told = match fault {
        GenericFault::Incongruent => not_congruent(alloc, name),
        GenericFault::NoSuchMethod => about_function(alloc, ConditionKind::NoSuchMethod, name),
        GenericFault::Unsupported => Ok(plain(alloc, ConditionKind::Unsupported)),
        GenericFault::TableLimit => Ok(plain(alloc, ConditionKind::TableLimit)),
        GenericFault::Memory => Err(AllocError),
    };
    match told {
        Ok(condition) => Stop::Refused(condition),
        Err(_) => Stop::Storage,
    }
}
