//! Places that are set and read to be changed, and names that are set and changed: as the places that they stand for, or as
//! variables (HyperSpec 5.1.1, 7.7 `with-slots`).
ghost use Rattle.std.specs.Prelude.{◌≡◌, ◌∷◌, ◌+◌, ◌≤◌, IfOk};
ghost use Rattle.lisp_data.specs.ValueView.{value_of};
ghost use Rattle.clos_machine.specs.clos_world.Values.{last_first};
ghost use Rattle.clos_machine.specs.clos_world.Uses.{uses_of};
ghost use Rattle.clos_machine.specs.clos_world.World.{seen};
ghost use Rattle.clos_machine.specs.clos_meaning.Functions.{place_set};
ghost use Rattle.clos_machine.specs.Machine.{access_of, act_weight, action_weight, changed_weight, Grows, Turns, value_weight, here, Does};
ghost use Rattle.clos_machine.specs.clos_meaning.Meaning.{alone, changed_place, collect, name_changed};
ghost use Rattle.clos_machine.specs.clos_meaning.SlotNames.{name_set, place_denoted};
ghost use Rattle.clos_machine.specs.declared.machine.Action.TheVariants.{ChangePlace};
ghost use Rattle.clos_machine.specs.declared.machine.Target.TheVariants.{SlotValue};

use crate::assignment::{change_only, store_only};
use clos_forms::{Form, Forms};
use clos_machine::machine::{Action, Doing, Frame, Machine, Target};
use clos_machine::moves::{act_under, begin};
use clos_machine::names::place_denoted;
use clos_machine::{ConditionKind, Stop, Values, World, plain};
use lisp_data::{Name, Value};
use lisp_prims::Primitive;
use std::alloc::{AllocError, Global};

/// The new value of a place follows its arguments.
#[tactic(auto, using(clos_machine::proofs::Turns::grows_more))]
pub fn new_value(
    machine: &mut Machine,
    target: Target,
    form: &Form,
    values: Values,
) -> Result<Doing, Stop>
    ensures leads { Does (λ ev env. collect ev env (alone form.now) values
        (λ vs u k. place_set ev env (access_of target) vs u k)) machine.old result machine.new }
    ensures small { Grows value_weight machine.old.levels result machine.new }
{
    let next = form.copy()?;
    begin(
        machine,
        next,
        Frame::Collect(Action::Set(target), Forms::new(), values),
    )
}

/// The same target.
fn copy_target(target: &Target) -> Result<Target, AllocError>
    ensures { IfOk result (λ r. r ≡ target.now) }
{
    match target {
        Target::Call(name) => Ok(Target::Call(name.copy()?)),
        Target::SlotValue => Ok(Target::SlotValue),
    }
}

/// A place is read, and then changed by the amount, the last of the values.
#[tactic(auto, using(clos_machine::proofs::Turns::stopped_through))]
pub fn change_place(
    alloc: Global,
    machine: &mut Machine,
    primitive: Primitive,
    target: Target,
    mut values: Values,
) -> Result<Doing, Stop>
    ensures leads { Does (λ ev env. changed_place ev env primitive (access_of target) (last_first values)) machine.old
        result machine.new }
    ensures small { Grows (changed_weight + act_weight) machine.old.levels result machine.new }
{
    match values.take_last() {
        None => Err(Stop::Refused(plain(alloc, ConditionKind::ProgramError))),
        Some(amount) => change_by(alloc, machine, primitive, target, values, amount),
    }
}

/// A place with these arguments is read, and then changed by this amount.
fn change_by(
    alloc: Global,
    machine: &mut Machine,
    primitive: Primitive,
    target: Target,
    values: Values,
    amount: Value,
) -> Result<Doing, Stop>
    ensures leads { Does (λ ev env. changed_place ev env primitive (access_of target) (value_of amount ∷ values))
        machine.old result machine.new }
    ensures small { Grows (changed_weight + act_weight) machine.old.levels result machine.new }
{
    let Ok(read) = copy_target(&target) else {
        drop(amount);
        return Err(Stop::Storage);
    };
    let Ok(arguments) = values.copy(alloc) else {
        drop(amount);
        return Err(Stop::Storage);
    };
    let frame = Frame::Changed(primitive, target, values, amount);
    act_under(machine, Action::Read(read), arguments, frame)
}

/// A name is set: the place that it stands for, or a variable.
#[tactic(auto, using(clos_machine::proofs::Turns::grows_more))]
pub fn set_name(
    alloc: Global,
    machine: &mut Machine,
    world: &mut World,
    name: &Name,
    values: Values,
    steps: &mut u64,
) -> Result<Doing, Stop>
    ensures turns { Turns (here machine.old (λ ev env w. name_set ev env name.now (place_denoted w name.now) values w))
        (seen world.old) steps.old result machine.new (seen world.new) steps.new }
    ensures small { Grows act_weight machine.old.levels result machine.new }
    ensures fewer { steps.new ≤ steps.old }
    ensures kept { uses_of world.new ≡ uses_of world.old }
{
    match place_denoted(alloc, machine, name)? {
        None => store_only(alloc, machine, world, name, &values, steps),
        Some(mut place) => {
            place.append(values)?;
            Ok(Doing::Act(Action::Set(Target::SlotValue), place))
        }
    }
}

/// A name is changed by the amount: the place that it stands for, or a variable.
#[tactic(auto, using(clos_machine::proofs::Turns::grows_more))]
pub fn change_name(
    alloc: Global,
    machine: &mut Machine,
    world: &mut World,
    primitive: Primitive,
    name: &Name,
    values: Values,
    steps: &mut u64,
) -> Result<Doing, Stop>
    ensures turns { Turns (here machine.old (λ ev env w. name_changed ev env primitive name.now
        (place_denoted w name.now) values w)) (seen world.old) steps.old result machine.new (seen world.new) steps.new }
    ensures small { Grows (action_weight (ChangePlace primitive SlotValue)) machine.old.levels result machine.new }
    ensures fewer { steps.new ≤ steps.old }
    ensures kept { uses_of world.new ≡ uses_of world.old }
{
    match place_denoted(alloc, machine, name)? {
        None => change_only(alloc, machine, world, primitive, name, &values, steps),
        Some(mut place) => {
            place.append(values)?;
            Ok(Doing::Act(Action::ChangePlace(primitive, Target::SlotValue), place))
        }
    }
}
