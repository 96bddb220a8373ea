//! What an `add-dependent` and a `remove-dependent` do (AMOP chapter 6). Each takes one step for its effect.
ghost use Rattle.std.specs.Prelude.{◌≡◌, OnErr, OnOk, true};
ghost use Rattle.lisp_data.specs.ValueView.{value_of};
ghost use Rattle.lisp_prims.specs.Primitive.{truth};
ghost use Rattle.clos_eval.specs.clos_machine.Machine.{Answers};
ghost use Rattle.clos_eval.specs.clos_machine.clos_meaning.ClassFunctions.{symbol_in};
ghost use Rattle.clos_eval.specs.clos_machine.clos_world.Uses.{uses_of};
ghost use Rattle.clos_eval.specs.clos_machine.clos_world.World.{seen};
ghost use Rattle.clos_eval.specs.Evaluation.{Performs};
ghost use Rattle.clos_making.specs.clos_effects.Effects.{SameAtStorage};
ghost use Rattle.clos_definition_forms.specs.Dependents.{FindsNamed, FindsWatched, change_dependents, dependent_named, metaobject_in, takes_step, values_watched, watched, with_change};

use crate::forms::evaluate_forms;
use clos_eval::{ConditionKind, Natives, Stop, World, about_name, plain, symbol_in, t, wrong_type};
use clos_forms::Form;
use clos_making::{Metaobject, Slot, both, place_of, value_or_nil};
use lisp_data::Value;
use std::alloc::{AllocError, Global};

/// What a form does to the dependents of a metaobject.
#[derive(Clone, Copy)]
pub enum Change {
    /// The dependent is added as the last, unless it is there.
    Add,
    Remove,
}

/// Adds a dependent of a class or a generic function, or takes it out, after both forms are evaluated.
pub fn change_dependents<N: Natives>(
    alloc: Global,
    world: &mut World,
    natives: &N,
    answers: &mut Vec<i64>,
    change: Change,
    metaobject: Form,
    dependent: Form,
    steps: &mut u64,
) -> Result<Value, Stop>
    ensures performs { Performs (N.host natives.now) (change_dependents change metaobject dependent) world.old steps.old
        answers.old.items result world.new steps.new answers.new.items }
    ensures undone { SameAtStorage result (seen world.old) (seen world.new) }
{
    let Ok(forms) = both(alloc, metaobject, dependent) else {
        return Err(Stop::Storage);
    };
    match evaluate_forms(alloc, world, natives, answers, &forms, steps) {
        Err(stop) => Err(stop),
        Ok(values) => change_evaluated(alloc, world, change, &values, steps),
    }
}

/// The same of the metaobject that the first of these values is, and the dependent that the second names.
#[tactic(auto, using(crate::proofs::Watched::change_not_begun, crate::proofs::Watched::not_watched, crate::proofs::Watched::is_changed))]
fn change_evaluated(
    alloc: Global,
    world: &mut World,
    change: Change,
    values: &[Slot],
    steps: &mut u64,
) -> Result<Value, Stop>
    ensures answers { Answers (values_watched change values.now) (seen world.old) steps.old result (seen world.new)
        steps.new }
    ensures kept { uses_of world.new ≡ uses_of world.old }
    ensures undone { SameAtStorage result (seen world.old) (seen world.new) }
{
    let Ok(metaobject) = value_or_nil(values, 0) else {
        return Err(Stop::Storage);
    };
    let Ok(dependent) = value_or_nil(values, 1) else {
        return Err(Stop::Storage);
    };
    match find_watched(alloc, world, &metaobject, &dependent) {
        Err(stop) => Err(stop),
        Ok((metaobject, place)) => change_at(alloc, world, change, metaobject, place, steps),
    }
}

/// The metaobject and the place of the dependent that these values are.
fn find_watched(
    alloc: Global,
    world: &World,
    metaobject: &Value,
    dependent: &Value,
) -> Result<(Metaobject, usize), Stop>
    ensures { FindsWatched (watched (seen world.now).hearing.names (value_of metaobject.now) (value_of dependent.now))
        result }
{
    let Some(watched) = metaobject_in(metaobject) else {
        return Err(Stop::Refused(wrong_type(alloc, metaobject)?));
    };
    let place = dependent_named(alloc, world, dependent)?;
    Ok((watched, place))
}

/// The class or the generic function that a value is.
fn metaobject_in(value: &Value) -> Option<Metaobject>
    ensures { result ≡ metaobject_in (value_of value.now) }
{
    match value {
        Value::Class(id) => Some(Metaobject::Class(*id)),
        Value::Generic(id) => Some(Metaobject::Generic(*id)),
        _ => None,
    }
}

/// The place of the dependent that a symbol names.
fn dependent_named(alloc: Global, world: &World, value: &Value) -> Result<usize, Stop>
    ensures { FindsNamed (dependent_named (seen world.now).hearing.names (value_of value.now)
        (symbol_in (value_of value.now))) result }
{
    let Some(name) = symbol_in(value)? else {
        return Err(Stop::Refused(wrong_type(alloc, value)?));
    };
    match place_of(world.hearing.names.as_slice(), &name) {
        Some(place) => Ok(place),
        None => {
            let kind = ConditionKind::UnknownDependent;
            Err(Stop::Refused(about_name(alloc, kind, &name)?))
        }
    }
}

/// Takes the step of a change, and then makes it. The value is T.
fn change_at(
    alloc: Global,
    world: &mut World,
    change: Change,
    metaobject: Metaobject,
    place: usize,
    steps: &mut u64,
) -> Result<Value, Stop>
    ensures answers { Answers (takes_step (with_change change metaobject place (seen world.old))) (seen world.old)
        steps.old result (seen world.new) steps.new }
    ensures kept { uses_of world.new ≡ uses_of world.old }
    ensures undone { SameAtStorage result (seen world.old) (seen world.new) }
{
    if *steps == 0 {
        return Err(Stop::Refused(plain(alloc, ConditionKind::StepLimit)));
    }
    let Ok(()) = change_watchers(alloc, world, change, metaobject, place) else {
        return Err(Stop::Storage);
    };
    *steps -= 1;
    Ok(t())
}

/// Makes the change. Where memory is refused, nothing is changed.
fn change_watchers(
    alloc: Global,
    world: &mut World,
    change: Change,
    metaobject: Metaobject,
    place: usize,
) -> Result<(), AllocError>
    ensures ok { OnOk result (seen world.new ≡ with_change change metaobject place (seen world.old)) }
    ensures err { OnErr result (seen world.new ≡ seen world.old) }
    ensures kept { uses_of world.new ≡ uses_of world.old }
{
    match change {
        Change::Add => world.hearing.watchers.add(alloc, metaobject, place),
        Change::Remove => {
            world.hearing.watchers.remove(metaobject, place);
            Ok(())
        }
    }
}
