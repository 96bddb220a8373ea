//! The making of instances (HyperSpec 7.1.3, 7.1.7, 7.7 `make-instance`).
ghost use Rattle.std.specs.Prelude.{◌≡◌, ◌+◌, ◌≤◌, ◌<◌, ◌∷◌, [], IfOk, IfSome, MatchOption, drop, length, map, Some};
ghost use Rattle.lisp_data.specs.ValueView.{value_of};
ghost use Rattle.clos_machine.specs.clos_world.Class.{class_name, effective};
ghost use Rattle.clos_machine.specs.clos_world.Uses.{uses_of};
ghost use Rattle.clos_machine.specs.clos_world.World.{State, seen};
ghost use Rattle.clos_machine.specs.clos_meaning.Initialization.{allocate, checked, defaulted, instance_made, invalid_for, making_of};
ghost use Rattle.clos_machine.specs.Uses.{LeadsBy};
ghost use Rattle.clos_machine.specs.Machine.{Grows, Leads, Turns, at, act_weight, value_weight, default_given, Shrinks, here, Does};
ghost use Rattle.clos_machine.specs.Fault.{TellsCondition};
ghost use Rattle.clos_objects.specs.Objects.{Enters, default_first, ungiven};

use crate::classes::designate;
use clos_defclass::DefaultInitarg;
use clos_filling::initargs::{invalid_initarg, is_given};
use clos_filling::reached::methods_reached;
use clos_forms::{Forms, value_named};
use clos_machine::finalized::Finalized;
use clos_machine::machine::{Action, Doing, Frame, Machine};
use clos_machine::moves::{begin, invoke_under, set_apart};
use clos_machine::parameters::are_pairs;
use clos_machine::truth::t;
use clos_machine::{
    Arguments, Condition, ConditionKind, Context, Stop, Values, World, about, about_both, plain,
};
use clos_method::SystemFunction;
use lisp_data::{ClassId, InstanceId, Value};
use std::alloc::{AllocError, Global};

/// A call of `make-instance`.
pub fn make_instance(
    alloc: Global,
    machine: &mut Machine,
    world: &mut World,
    mut values: Values,
    steps: &mut u64,
) -> Result<Doing, Stop>
    ensures turns { Turns (here machine.old (λ ev env. instance_made ev values)) (seen world.old) steps.old result
        machine.new (seen world.new) steps.new }
    ensures small { Shrinks act_weight steps.old steps.new machine.old.levels result machine.new }
    ensures fewer { steps.new ≤ steps.old }
    ensures kept { uses_of world.new ≡ uses_of world.old }
{
    match values.take_first() {
        None => Err(Stop::Refused(plain(alloc, ConditionKind::ProgramError))),
        Some(class) => make(alloc, machine, world, class, values, steps),
    }
}

/// Makes an instance of the class that a value designates, with these initargs.
fn make(
    alloc: Global,
    machine: &mut Machine,
    world: &mut World,
    class: Value,
    initargs: Values,
    steps: &mut u64,
) -> Result<Doing, Stop>
    ensures turns { Turns (here machine.old (λ ev env. instance_made ev (value_of class ∷ initargs))) (seen world.old)
        steps.old result machine.new (seen world.new) steps.new }
    ensures small { Shrinks act_weight steps.old steps.new machine.old.levels result machine.new }
    ensures fewer { steps.new ≤ steps.old }
    ensures kept { uses_of world.new ≡ uses_of world.old }
{
    if !are_pairs(initargs.as_slice()) {
        drop(class);
        return Err(Stop::Refused(plain(alloc, ConditionKind::ProgramError)));
    }
    match designate(alloc, world, class) {
        Ok(class) => make_of(alloc, machine, world, class, initargs, steps),
        Err(stop) => Err(stop),
    }
}

fn make_of(
    alloc: Global,
    machine: &mut Machine,
    world: &mut World,
    class: ClassId,
    initargs: Values,
    steps: &mut u64,
) -> Result<Doing, Stop>
    ensures turns { Turns (here machine.old (λ ev env w. making_of ev initargs class.0 (effective w.classes class.0) w))
        (seen world.old) steps.old result machine.new (seen world.new) steps.new }
    ensures small { Shrinks act_weight steps.old steps.new machine.old.levels result machine.new }
    ensures fewer { steps.new ≤ steps.old }
    ensures kept { uses_of world.new ≡ uses_of world.old }
{
    match Finalized::find(world, class)? {
        None => Err(Stop::Refused(plain(alloc, ConditionKind::ProgramError))),
        Some(effective) => make_within(alloc, machine, world, class, effective, initargs, steps),
    }
}

/// The machine has no variables and no arguments for the forms that follow; those from before come back after them.
pub fn enter(alloc: Global, machine: &mut Machine) -> Result<(), AllocError>
    ensures { IfOk result (λ u. Enters machine.old machine.new) }
{
    let arguments = Arguments::new(alloc, Values::new(alloc))?;
    let context = Context::of_function(alloc, arguments)?;
    set_apart(alloc, machine, context)
}

#[tactic(auto, using(clos_machine::proofs::Turns::shrinks_by))]
fn make_within(
    alloc: Global,
    machine: &mut Machine,
    world: &mut World,
    class: ClassId,
    effective: Finalized,
    initargs: Values,
    steps: &mut u64,
) -> Result<Doing, Stop>
    ensures turns { Turns (here machine.old (λ ev env. making_of ev initargs class.0 (Some effective))) (seen world.old)
        steps.old result machine.new (seen world.new) steps.new }
    ensures small { Shrinks act_weight steps.old steps.new machine.old.levels result machine.new }
    ensures fewer { steps.new ≤ steps.old }
    ensures kept { uses_of world.new ≡ uses_of world.old }
{
    enter(alloc, machine)?;
    match next_ungiven(&effective, 0, initargs.as_slice()) {
        None => allocate(alloc, machine, world, class, effective, initargs, steps),
        Some(place) => evaluate_default(machine, class, effective, place, initargs),
    }
}

/// The place of the first default initarg from this one on that is not given.
fn next_ungiven(effective: &Finalized, from: usize, initargs: &[Value]) -> Option<usize>
    ensures value { MatchOption result (ungiven (map value_of initargs.now) (drop from effective.now.defaults) ≡ [])
        (λ p. ungiven (map value_of initargs.now) (drop from effective.now.defaults) ≡ drop p effective.now.defaults) }
    ensures within { IfSome result (λ p. p < length effective.now.defaults) }
{
    let defaults = effective.defaults();
    let mut place = from;
    while place < defaults.len() {
        if !is_given(initargs, &defaults[place]) {
            return Some(place);
        }
        place += 1;
    }
    None
}

/// The default initarg at this place is evaluated.
#[tactic(auto, using(clos_machine::proofs::Turns::grows_more))]
fn evaluate_default(
    machine: &mut Machine,
    class: ClassId,
    effective: Finalized,
    place: usize,
    initargs: Values,
) -> Result<Doing, Stop>
    requires { place < length effective.defaults }
    ensures leads { Does (λ ev env. default_first ev env class.0 effective (drop place effective.defaults) initargs)
        machine.old result machine.new }
    ensures small { Grows value_weight machine.old.levels result machine.new }
{
    let form = effective.defaults()[place].form.copy()?;
    begin(
        machine,
        form,
        Frame::Default(class, effective, place, initargs),
    )
}

/// The value of a default initarg is there: it follows the others with its name.
pub fn next_default(
    alloc: Global,
    machine: &mut Machine,
    class: ClassId,
    effective: Finalized,
    place: usize,
    mut initargs: Values,
    value: Value,
) -> Result<Doing, Stop>
    ensures leads { (w : State) → Leads (here machine.old (λ ev env. default_given ev env class.0 effective
        (drop place effective.defaults) initargs (value_of value))) w result machine.new }
    ensures small { Grows act_weight machine.old.levels result machine.new }
{
    let Some((default, next)) = default_at(&effective, place) else {
        drop(value);
        return Err(Stop::Refused(plain(alloc, ConditionKind::ProgramError)));
    };
    let Ok(name) = value_named(&default.name) else {
        drop(value);
        return Err(Stop::Storage);
    };
    let Ok(()) = initargs.push(name) else {
        drop(value);
        return Err(Stop::Storage);
    };
    initargs.push(value)?;
    go_on(machine, class, effective, next, initargs)
}

/// The default initarg at this place, and the next place.
fn default_at(effective: &Finalized, place: usize) -> Option<(&DefaultInitarg, usize)>
    ensures { MatchOption result (drop place effective.now.defaults ≡ [])
        (λ p. drop place effective.now.defaults ≡ p.0.now ∷ drop p.1 effective.now.defaults) }
{
    let defaults = effective.defaults();
    if place >= defaults.len() {
        return None;
    }
    Some((&defaults[place], place + 1))
}

/// The next default initarg from this place on is evaluated, or the instance is allocated.
fn go_on(
    machine: &mut Machine,
    class: ClassId,
    effective: Finalized,
    from: usize,
    initargs: Values,
) -> Result<Doing, Stop>
    ensures leads { (w : State) → Leads (here machine.old (λ ev env. defaulted ev env class.0 effective
        (drop from effective.defaults) initargs)) w result machine.new }
    ensures small { Grows act_weight machine.old.levels result machine.new }
{
    match next_ungiven(&effective, from, initargs.as_slice()) {
        None => Ok(Doing::Act(Action::Allocate(class, effective), initargs)),
        Some(place) => evaluate_default(machine, class, effective, place, initargs),
    }
}

/// An instance is made, in one step; what follows looks at its initargs.
pub fn allocate(
    alloc: Global,
    machine: &mut Machine,
    world: &mut World,
    class: ClassId,
    effective: Finalized,
    initargs: Values,
    steps: &mut u64,
) -> Result<Doing, Stop>
    ensures turns { Turns (here machine.old (λ ev env. allocate ev env class.0 effective initargs)) (seen world.old)
        steps.old result machine.new (seen world.new) steps.new }
    ensures small { Shrinks value_weight steps.old steps.new machine.old.levels result machine.new }
    ensures fewer { steps.new ≤ steps.old }
    ensures kept { uses_of world.new ≡ uses_of world.old }
{
    let _ = machine;
    let Some(id) = world.store().next_instance() else {
        return Err(Stop::Refused(plain(alloc, ConditionKind::TableLimit)));
    };
    if *steps == 0 {
        return Err(Stop::Refused(plain(alloc, ConditionKind::StepLimit)));
    }
    let Ok(_) = world.objects.allocate(alloc, class, effective.layout()) else {
        return Err(Stop::Storage);
    };
    *steps -= 1;
    Ok(Doing::Act(Action::Initialize(class, effective, id), initargs))
}

/// The instance that was made is initialized, unless an initarg is not valid; then it is given.
#[tactic(auto, using(clos_machine::proofs::Turns::grows_more, clos_machine::proofs::Uses::leads_storage))]
pub fn initialize(
    alloc: Global,
    machine: &mut Machine,
    world: &mut World,
    class: ClassId,
    effective: &Finalized,
    id: InstanceId,
    mut initargs: Values,
) -> Result<Doing, Stop>
    ensures leads { LeadsBy (here machine.old (λ ev env. checked ev class.0 effective.now initargs id.0))
        (seen world.old) (uses_of world.old) result machine.new (uses_of world.new) }
    ensures same { seen world.new ≡ seen world.old }
    ensures small { Grows value_weight machine.old.levels result machine.new }
{
    let function = SystemFunction::InitializeInstance;
    let object = [Value::Instance(id)];
    let Ok(reached) = methods_reached(alloc, world, function, &object, id, t()) else {
        return Err(Stop::Storage);
    };
    let methods = world.generics.methods();
    if let Some(name) = invalid_initarg(methods, &reached, effective.slots(), initargs.as_slice()) {
        return Err(refuse(alloc, world, class, name));
    }
    let Ok(()) = initargs.push_first(Value::Instance(id)) else {
        return Err(Stop::Storage);
    };
    let frame = Frame::Keep(Forms::new(), Value::Instance(id));
    invoke_under(machine, function, initargs, frame)
}

/// Why no instance of a class is initialized with this initarg.
pub fn refuse(alloc: Global, world: &World, class: ClassId, name: &Value) -> Stop
    ensures { TellsCondition (invalid_for (value_of name.now) (class_name (seen world.now).classes class.0)) result }
{
    match invalid(alloc, world, class, name) {
        Ok(condition) => Stop::Refused(condition),
        Err(_) => Stop::Storage,
    }
}

fn invalid(
    alloc: Global,
    world: &World,
    class: ClassId,
    name: &Value,
) -> Result<Condition, AllocError>
    ensures { IfOk result (λ c. c ≡ invalid_for (value_of name.now) (class_name (seen world.now).classes class.0)) }
{
    let name = name.copy()?;
    match world.classes().hierarchy().name(class) {
        None => about(alloc, ConditionKind::InvalidInitarg, name),
        Some(class) => {
            let Ok(class) = value_named(class) else {
                drop(name);
                return Err(AllocError);
            };
            about_both(alloc, ConditionKind::InvalidInitarg, name, class)
        }
    }
}
