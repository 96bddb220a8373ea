//! The system's method of shared-initialize (HyperSpec 7.1.4): the slots of an instance are filled in layout order.
ghost use Rattle.std.specs.Prelude.{◌≡◌, ◌∷◌, [], ◌≤◌, IfOk, MatchOption, drop, option_copied};
ghost use Rattle.std.specs.Option.{option_map_or};
ghost use Rattle.lisp_data.specs.Value.{list, nil};
ghost use Rattle.lisp_data.specs.ValueView.{value_of};
ghost use Rattle.clos_machine.specs.clos_world.clos_store.Store.{slot_found};
ghost use Rattle.clos_machine.specs.clos_world.Uses.{uses_of};
ghost use Rattle.clos_machine.specs.clos_world.World.{class_of_instance, seen};
ghost use Rattle.clos_machine.specs.clos_meaning.Filling.{is_named, fill, filler, is_the_class, unbound_filler};
ghost use Rattle.clos_machine.specs.Machine.{Shrinks, Turns, slots_left, subject_of, act_weight, fill_with, here};
ghost use Rattle.clos_machine.specs.declared.machine.Filling.{Filling};
ghost use Rattle.clos_filling.specs.Fillers.{Finds, filler_found, filler_of_form, first_filled};

use crate::initargs::initarg_for;
use crate::slot_names::{initargs_in, is_named, names_in};
use clos_class::EffectiveSlot;
use clos_forms::Form;
use clos_machine::machine::{Doing, Filling, Frame, InstanceTask, Machine};
use clos_machine::moves::begin;
use clos_machine::{ConditionKind, Stop, Values, World, plain};
use lisp_data::{InstanceId, Value};
use std::alloc::{AllocError, Global};

/// What a slot is filled with.
#[derive(Drop)]
pub enum Found {
    Value(Value),
    /// The value of this form.
    Initform(Form),
}

/// The initform of a local slot that is unbound and named.
fn initform_for<'a>(
    world: &World,
    id: InstanceId,
    names: Option<&Value>,
    slot: &'a EffectiveSlot,
) -> Option<&'a Form>
    ensures { filler_of_form (option_copied result) ≡ unbound_filler (is_named
        (option_map_or (λ v. value_of v.now) names.entry (list nil)) slot.now.name) slot.now.cell
        (slot_found (seen world.now).store id.0 slot.now.name) slot.now.initform }
{
    if slot.cell.is_some() {
        return None;
    }
    match world.store().slot(id, &slot.name) {
        None => None,
        Some(found) => {
            if found.value().is_some() || !is_named(names, &slot.name) {
                return None;
            }
            slot.initform.as_ref()
        }
    }
}

/// What a slot is filled with, if it is.
fn find_filler(
    world: &World,
    filling: &Filling,
    slot: &EffectiveSlot,
) -> Result<Option<Found>, AllocError>
    ensures { IfOk result (λ r. filler_found r ≡ filler (seen world.now) (subject_of filling.now) slot.now) }
{
    let arguments = filling.arguments.as_slice();
    if let Some(value) = initarg_for(slot, initargs_in(arguments)) {
        return Ok(Some(Found::Value(value.copy()?)));
    }
    match initform_for(world, filling.instance, names_in(arguments), slot) {
        None => Ok(None),
        Some(form) => Ok(Some(Found::Initform(form.copy()?))),
    }
}

/// The next slot that is filled with something, by its place, and with what.
fn next_filler(world: &World, filling: &Filling) -> Result<Option<(usize, Found)>, AllocError>
    ensures { IfOk result (λ r. Finds (seen world.now) (subject_of filling.now) filling.now.effective.slots
        (slots_left filling.now) r) }
{
    let slots = filling.effective.slots();
    let mut place = filling.place;
    while place < slots.len() {
        if let Some(found) = find_filler(world, filling, &slots[place])? {
            return Ok(Some((place, found)));
        }
        place += 1;
    }
    Ok(None)
}

/// The slot at this place comes next.
fn at_place(mut filling: Box<Filling>, place: usize) -> Box<Filling>
    ensures { result.value ≡ record filling.value { place = place } }
{
    filling.place = place;
    filling
}

/// The next slot is filled, or the instance is given.
pub fn fill(
    alloc: Global,
    machine: &mut Machine,
    world: &mut World,
    filling: Box<Filling>,
    steps: &mut u64,
) -> Result<Doing, Stop>
    ensures turns { Turns (here machine.old (λ ev env. fill ev env (subject_of filling.value) (slots_left filling.value)))
        (seen world.old) steps.old result machine.new (seen world.new) steps.new }
    ensures small { Shrinks act_weight steps.old steps.new machine.old.levels result machine.new }
    ensures fewer { steps.new ≤ steps.old }
    ensures kept { uses_of world.new ≡ uses_of world.old }
{
    match next_filler(world, &filling)? {
        None => Ok(Doing::Give(Value::Instance(filling.instance))),
        Some((place, found)) => {
            let filling = at_place(filling, place);
            match found {
                Found::Value(value) => fill_first(alloc, machine, world, filling, value, steps),
                Found::Initform(form) => { begin(machine, form, Frame::Filled(filling)) }
            }
        }
    }
}

/// The first of the slots that come next has this value, which takes a step; then the others are filled.
fn fill_first(
    alloc: Global,
    machine: &Machine,
    world: &mut World,
    mut filling: Box<Filling>,
    value: Value,
    steps: &mut u64,
) -> Result<Doing, Stop>
    ensures turns { Turns (here machine.now (λ ev env. first_filled ev env (subject_of filling.value) (slots_left filling.value)
        (value_of value))) (seen world.old) steps.old result machine.now (seen world.new) steps.new }
    ensures small { Shrinks act_weight steps.old steps.new machine.now.levels result machine.now }
    ensures fewer { steps.new ≤ steps.old }
    ensures kept { uses_of world.new ≡ uses_of world.old }
{
    let _ = machine;
    let Some((slot, next)) = slot_at(&filling) else {
        return Ok(Doing::Give(Value::Instance(filling.instance)));
    };
    if *steps == 0 {
        return Err(Stop::Refused(plain(alloc, ConditionKind::StepLimit)));
    }
    world
        .objects
        .set_slot(filling.instance, &slot.name, Some(value));
    *steps -= 1;
    filling.place = next;
    Ok(Doing::Tend(InstanceTask::Fill(filling)))
}

/// The slot that comes next, and the place after it.
fn slot_at(filling: &Filling) -> Option<(&EffectiveSlot, usize)>
    ensures { MatchOption result (slots_left filling.now ≡ []) (λ p. slots_left filling.now ≡ p.0.now ∷ drop p.1
        filling.now.effective.slots) }
{
    let slots = filling.effective.slots();
    if filling.place >= slots.len() {
        return None;
    }
    Some((&slots[filling.place], filling.place + 1))
}

/// The value of the initform of the slot that comes next is there. Where the instance is of another class by then, nothing
/// more is filled.
pub fn fill_with(
    alloc: Global,
    machine: &mut Machine,
    world: &mut World,
    filling: Box<Filling>,
    value: Value,
    steps: &mut u64,
) -> Result<Doing, Stop>
    ensures turns { Turns (here machine.old (λ ev env. fill_with ev env (subject_of filling.value) (slots_left filling.value)
        (value_of value))) (seen world.old) steps.old result machine.new (seen world.new) steps.new }
    ensures small { Shrinks act_weight steps.old steps.new machine.old.levels result machine.new }
    ensures fewer { steps.new ≤ steps.old }
    ensures kept { uses_of world.new ≡ uses_of world.old }
{
    if !is_the_class(world, &filling) {
        return Ok(Doing::Give(Value::Instance(filling.instance)));
    }
    fill_first(alloc, machine, world, filling, value, steps)
}

/// Whether the instance is still of its class.
fn is_the_class(world: &World, filling: &Filling) -> bool
    ensures { result ≡ is_the_class filling.now.class.0 (class_of_instance (seen world.now) filling.now.instance.0) }
{
    match world.store().class_of(filling.instance) {
        None => false,
        Some(class) => class.0 == filling.class.0,
    }
}
