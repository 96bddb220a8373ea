//! Calls of generic functions (HyperSpec 7.6.5, 7.6.6).
ghost use Rattle.std.specs.Prelude.{◌≡◌, [], IfOk, Some, slice_get};
ghost use Rattle.clos_comb.specs.Effective.{effective};
ghost use Rattle.clos_comb.specs.OutcomeView.{combined_of};
ghost use Rattle.clos_machine.specs.clos_world.clos_generic.Table.{Function};
ghost use Rattle.clos_machine.specs.clos_world.Uses.{uses_of};
ghost use Rattle.clos_machine.specs.clos_world.World.{seen};
ghost use Rattle.clos_machine.specs.clos_meaning.Bodies.{scoped};
ghost use Rattle.clos_machine.specs.clos_meaning.Contexts.{in_call};
ghost use Rattle.clos_machine.specs.clos_meaning.GenericCalls.{called_generic, combined_run, invoked, matched, unmatched};
ghost use Rattle.clos_machine.specs.Uses.{LeadsBy};
ghost use Rattle.clos_machine.specs.Machine.{Leads, Grows, call_growth, here, Does};
ghost use Rattle.clos_machine.specs.clos_meaning.Meaning.{meaning};
ghost use Rattle.clos_machine.specs.Fault.{TellsCondition};
ghost use Rattle.clos_calls.specs.GenericCalls.{about_function, takes_in};

use crate::keywords::keywords_fit;
use clos_comb::Outcome;
use clos_forms::Form;
use clos_machine::locals::Locals;
use clos_machine::machine::{Doing, Machine};
use clos_machine::moves::enter;
use clos_machine::{
    Arguments, Condition, ConditionKind, Context, Dispatch, EffectiveMethod, Stop, Values, World,
    about, about_both, called_value, plain,
};
use clos_method::SystemFunction;
use lisp_data::{GenericId, Name, Value};
use std::alloc::{AllocError, Global};
use std::rc::Rc;

/// A call of the generic function of this number.
#[tactic(auto, using(clos_machine::proofs::Uses::leads_storage, clos_machine::proofs::Uses::leads_refused_use))]
pub fn call_generic(
    alloc: Global,
    machine: &mut Machine,
    world: &mut World,
    id: GenericId,
    values: Values,
) -> Result<Doing, Stop>
    ensures leads { LeadsBy (here machine.old (λ ev env w. called_generic ev values id.0
        (slice_get w.generics.functions id.0) w)) (seen world.old) (uses_of world.old) result machine.new
        (uses_of world.new) }
    ensures same { seen world.new ≡ seen world.old }
    ensures small { Grows call_growth machine.old.levels result machine.new }
{
    if !takes(world, id, values.len()) {
        return Err(Stop::Refused(plain(alloc, ConditionKind::ProgramError)));
    }
    let arguments = Arguments::new(alloc, values)?;
    let found = world.effective_method(alloc, id, arguments.as_slice())?;
    if found.methods.len() == 0 {
        return call_unmatched(alloc, machine, world, id, &arguments);
    }
    call_matched(alloc, machine, world, id, found, arguments)
}

/// Whether there is such a function, and it takes so many arguments.
pub fn takes(world: &World, id: GenericId, count: usize) -> bool
    ensures { result ≡ takes_in (slice_get (seen world.now).generics.functions id.0) count }
{
    match world.generics.function(id) {
        None => false,
        Some(function) => function.shape().takes_count(count as u64),
    }
}

/// The function no-applicable-method is called with a generic function and its arguments.
#[tactic(auto, using(clos_machine::proofs::Uses::leads_storage, clos_machine::proofs::Uses::leads_refused_use))]
fn call_unmatched(
    alloc: Global,
    machine: &mut Machine,
    world: &mut World,
    id: GenericId,
    arguments: &Arguments,
) -> Result<Doing, Stop>
    ensures leads { LeadsBy (here machine.old (λ ev env. unmatched ev id.0 arguments.now)) (seen world.old)
        (uses_of world.old) result machine.new (uses_of world.new) }
    ensures same { seen world.new ≡ seen world.old }
    ensures small { Grows call_growth machine.old.levels result machine.new }
{
    let mut values = arguments.to_values(alloc)?;
    values.push_first(Value::Generic(id))?;
    let arguments = Arguments::new(alloc, values)?;
    let called = SystemFunction::NoApplicableMethod.id();
    if world.generics.function(called).is_none() {
        return Err(Stop::Refused(plain(alloc, ConditionKind::ProgramError)));
    }
    let found = world.effective_method(alloc, called, arguments.as_slice())?;
    if found.methods.len() == 0 {
        return Err(Stop::Refused(plain(alloc, ConditionKind::ProgramError)));
    }
    call_matched(alloc, machine, world, called, found, arguments)
}

/// A function is called for which these methods are applicable.
fn call_matched(
    alloc: Global,
    machine: &mut Machine,
    world: &World,
    id: GenericId,
    found: Rc<EffectiveMethod>,
    arguments: Arguments,
) -> Result<Doing, Stop>
    requires { combined_of found.value.outcome ≡ effective world.now.combinations world.now.generics.table id.0
        found.value.methods }
    ensures leads { (f : Function) → Some f ≡ slice_get (seen world.now).generics.functions id.0
        → Leads (here machine.old (λ ev env. matched ev arguments id.0 f found.value.methods)) (seen world.now) result
        machine.new }
    ensures small { Grows call_growth machine.old.levels result machine.new }
{
    if !keywords_fit(world, id, found.methods.as_slice(), arguments.as_slice()) {
        return Err(Stop::Refused(plain(alloc, ConditionKind::ProgramError)));
    }
    run_combined(alloc, machine, world, id, found, arguments)
}

/// The effective method runs, or there is none.
fn run_combined(
    alloc: Global,
    machine: &mut Machine,
    world: &World,
    id: GenericId,
    found: Rc<EffectiveMethod>,
    arguments: Arguments,
) -> Result<Doing, Stop>
    ensures leads { (f : Function) → Some f ≡ slice_get (seen world.now).generics.functions id.0
        → Leads (here machine.old (λ ev env. combined_run ev (in_call (record {
          generic = id.0;
          methods =
              found.value.methods;
        }) arguments) f (combined_of found.value.outcome))) (seen world.now) result machine.new }
    ensures small { Grows call_growth machine.old.levels result machine.new }
{
    match &found.outcome {
        Outcome::Effective(form) => {
            let next = form.copy()?;
            let context = Context::of_call(alloc, Dispatch::new(id, found), arguments)?;
            enter_effect(alloc, machine, context, next)
        }
        Outcome::InvalidMethod(method) => {
            let condition = about(alloc, ConditionKind::InvalidMethod, Value::Method(*method))?;
            Err(Stop::Refused(condition))
        }
        Outcome::RequiredGroupEmpty(group) => {
            let group = group.copy()?;
            let kind = ConditionKind::RequiredGroupEmpty;
            Err(refuse_function(alloc, world, id, kind, Some(group)))
        }
        Outcome::AmbiguousMethods(earlier, later) => {
            let earlier = Value::Method(*earlier);
            let kind = ConditionKind::AmbiguousMethods;
            let condition = about_both(alloc, kind, earlier, Value::Method(*later))?;
            Err(Stop::Refused(condition))
        }
        Outcome::BadExpansion => {
            let kind = ConditionKind::BadExpansion;
            Err(refuse_function(alloc, world, id, kind, None))
        }
        Outcome::ExpansionLimit => {
            let kind = ConditionKind::ExpansionLimit;
            Err(refuse_function(alloc, world, id, kind, None))
        }
    }
}

/// Why a function is not called of whose combination no effective method comes: a condition about the function, and the group
/// that has to have a method, where it is one.
fn refuse_function(
    alloc: Global,
    world: &World,
    id: GenericId,
    kind: ConditionKind,
    group: Option<Name>,
) -> Stop
    ensures { (f : Function) → Some f ≡ slice_get (seen world.now).generics.functions id.0
        → TellsCondition (about_function kind f group) result }
{
    match about_function(alloc, world, id, kind, group) {
        Ok(condition) => Stop::Refused(condition),
        Err(_) => Stop::Storage,
    }
}

fn about_function(
    alloc: Global,
    world: &World,
    id: GenericId,
    kind: ConditionKind,
    group: Option<Name>,
) -> Result<Condition, AllocError>
    ensures { IfOk result (λ c. (f : Function) → Some f ≡ slice_get (seen world.now).generics.functions id.0 → c ≡
        about_function kind f group) }
{
    match world.generics.function(id) {
        None => Ok(plain(alloc, ConditionKind::ProgramError)),
        Some(function) => {
            let name = called_value(alloc, function.name())?;
            match group {
                None => about(alloc, kind, name),
                Some(group) => about_both(alloc, kind, name, Value::Sym(group)),
            }
        }
    }
}

/// A call of a generic function of the system.
pub fn invoke(
    alloc: Global,
    machine: &mut Machine,
    world: &mut World,
    function: SystemFunction,
    values: Values,
) -> Result<Doing, Stop>
    ensures leads { LeadsBy (here machine.old (λ ev env. invoked ev function values)) (seen world.old)
        (uses_of world.old) result machine.new (uses_of world.new) }
    ensures same { seen world.new ≡ seen world.old }
    ensures small { Grows call_growth machine.old.levels result machine.new }
{
    call_generic(alloc, machine, world, function.id(), values)
}

/// Evaluates this next in a context of its own and with no variables; the machine's come back after it.
pub fn enter_effect(
    alloc: Global,
    machine: &mut Machine,
    context: Context,
    next: Form,
) -> Result<Doing, Stop>
    ensures leads { Does (λ ev env. scoped (meaning machine.old.room context next) []) machine.old result machine.new }
    ensures small { Grows call_growth machine.old.levels result machine.new }
{
    enter(machine, context, Locals::new(alloc), next)
}
