//! Generic functions that are defined: what a `defgeneric` does.
ghost use Rattle.std.specs.Prelude.{◌≡◌, ◌∷◌, [], IfOk, OnOk, None, Some, drop, map, position, slice_get, unwrap_or};
ghost use Rattle.lisp_data.specs.Name.{same_name};
ghost use Rattle.clos_generic.specs.Initial.{standard};
ghost use Rattle.clos_generic.specs.Table.{named};
ghost use Rattle.clos_method.specs.MethodIds.{method_numbers};
ghost use Rattle.clos_world.specs.Uses.{uses_of};
ghost use Rattle.clos_world.specs.World.{seen};
ghost use Rattle.clos_definition.specs.Effect.{IsReserved, adding, addition_of, concerned_by, removing, with_effect};
ghost use Rattle.clos_definition.specs.Generic.{IsWellRead, combination_refusal, definition_of, earlier_methods, eql_forms, generic_concerned, generic_refusal, initial_among, is_initial, methods_refusal, methods_with, names_refusal, options_of, place_in, precedence_of, with_defined_generic};
ghost use Rattle.clos_definition.specs.Method.{open_addition};
ghost use Rattle.clos_definition.specs.Refusal.{Allows};

use crate::effect::{Effect, check, reserve};
use crate::method::{method_with, number_of, push_forms, refuse_specializers};
use crate::refusal::refuse_taken;
use clos_class::Classes;
use clos_forms::{Form, Sequence};
use clos_generic::{
    Addition, Changes, Definition, Generics, Options, Positions, Removal, copy_name,
    standard_combination,
};
use clos_method::{Origin, Shape};
use clos_store::Slot;
use clos_syntax::{CombinationUse, GenericDefinition, MethodDefinition};
use clos_world::{ConditionKind, Stop, UseFault, World, about_name, plain};
use lisp_data::{GenericId, MethodId, Name};
use std::alloc::{AllocError, Global};
use std::collections::VecDeque;

/// Whether a generic function may be defined, as far as this is known before the forms of the specializers of its methods are
/// evaluated: the name is not that of a function, its method combination is defined and takes its arguments, the classes are defined, and the lambda
/// lists of its methods, and of those that stay, are congruent with it.
pub fn check_generic(
    alloc: Global,
    world: &World,
    definition: &GenericDefinition,
) -> Result<(), Stop>
    ensures { Allows (generic_refusal definition.now None (seen world.now)) result }
{
    refuse_generic(alloc, world, definition)?;
    let mut changes = changes_for(alloc, &world.generics, definition)?;
    let id = number_of(&world.generics, &definition.name);
    add_open(alloc, &mut changes, id, definition.methods.as_slice())?;
    check(alloc, world, &definition.name, &changes)
}

/// The forms that are evaluated for the specializers of its methods, one for each.
pub fn generic_forms(
    alloc: Global,
    definition: &GenericDefinition,
) -> Result<Vec<Option<Form>>, AllocError>
    ensures { IfOk result (λ r. r.items ≡ eql_forms definition.now.methods) }
{
    let mut forms = Vec::new(alloc);
    let mut left = definition.methods.as_slice();
    while let Some((method, others)) = left.split_first() {
        push_forms(&mut forms, method.specializers.as_slice())?;
        left = others;
    }
    Ok(forms)
}

/// Prepares a generic function, where the forms of the specializers of its methods gave these values.
pub fn prepare_generic(
    alloc: Global,
    world: &mut World,
    definition: GenericDefinition,
    values: &[Slot],
) -> Result<Effect, Stop>
    requires { IsWellRead definition }
    ensures allows { Allows (generic_refusal definition (Some values.now) (seen world.old)) result }
    ensures reserved { IfOk result (λ e. IsReserved e world.new.generics) }
    ensures effect { IfOk result (λ e. with_effect e (seen world.old) ≡ with_defined_generic definition values.now
        (seen world.old)) }
    ensures concerned { IfOk result (λ e. concerned_by e (seen world.old).generics ≡ generic_concerned definition
        values.now (seen world.old)) }
    ensures same { seen world.new ≡ seen world.old }
    ensures kept { uses_of world.new ≡ uses_of world.old }
{
    refuse_generic(alloc, world, &definition)?;
    let changes = changes_for(alloc, &world.generics, &definition)?;
    let id = number_of(&world.generics, &definition.name);
    let GenericDefinition {
        name,
        lambda_list: _,
        precedence: _,
        combination: _,
        methods,
    } = definition;
    let effect = with_methods(alloc, world.classes(), changes, id, methods, values)?;
    reserve(alloc, world, &name, &effect)?;
    Ok(effect)
}

/// What is wrong besides what the table of generic functions tells.
fn refuse_generic(alloc: Global, world: &World, definition: &GenericDefinition) -> Result<(), Stop>
    ensures { Allows (names_refusal definition.now (seen world.now)) result }
{
    refuse_taken(alloc, world, &definition.name)?;
    refuse_combination(alloc, world, &definition.combination)?;
    refuse_methods(alloc, world, definition.methods.as_slice())
}

/// A condition where its method combination is not defined, or does not take its arguments.
fn refuse_combination(
    alloc: Global,
    world: &World,
    combination: &Option<CombinationUse>,
) -> Result<(), Stop>
    ensures { Allows (combination_refusal combination.now (seen world.now)) result }
{
    match combination {
        None => Ok(()),
        Some(used) => match world.combinations.fits(&used.name, &used.arguments) {
            Ok(()) => Ok(()),
            Err(UseFault::Undefined) => {
                let kind = ConditionKind::UndefinedCombination;
                Err(Stop::Refused(about_name(alloc, kind, &used.name)?))
            }
            Err(UseFault::Arguments) => {
                Err(Stop::Refused(plain(alloc, ConditionKind::ProgramError)))
            }
        },
    }
}

/// A condition where a class among the specializers of these is not defined: of the first one.
fn refuse_methods(alloc: Global, world: &World, methods: &[MethodDefinition]) -> Result<(), Stop>
    ensures { Allows (methods_refusal methods.now (seen world.now)) result }
{
    let mut left = methods;
    while let Some((method, others)) = left.split_first() {
        refuse_specializers(alloc, world, method.specializers.as_slice())?;
        left = others;
    }
    Ok(())
}

/// The methods of an earlier definition go, and the function is defined.
fn changes_for(
    alloc: Global,
    generics: &Generics,
    definition: &GenericDefinition,
) -> Result<Changes, AllocError>
    ensures { IfOk result (λ r. r ≡ record {
      removals = earlier_methods generics.now.table
          (named generics.now.table definition.now.name);
      definitions = definition_of definition.now ∷ [];
      additions = [];
    }) }
{
    let mut changes = Changes::new(alloc);
    if let Some(id) = generics.named(&definition.name) {
        remove_earlier(&mut changes, generics, id)?;
    }
    let name = copy_name(&definition.name)?;
    let options = options_of(alloc, definition)?;
    changes.define(Definition { name, options })?;
    Ok(changes)
}

/// Removes the methods that an earlier definition of a function brought, and that are still there.
fn remove_earlier(
    changes: &mut Changes,
    generics: &Generics,
    id: GenericId,
) -> Result<(), AllocError>
    ensures { OnOk result (changes.new ≡ removing changes.old (earlier_methods generics.now.table (Some id.0))) }
{
    match generics.function(id) {
        None => Ok(()),
        Some(function) => remove_initial(changes, generics, id, function.methods()),
    }
}

/// Removes those of these methods that came with a definition of their function.
fn remove_initial(
    changes: &mut Changes,
    generics: &Generics,
    id: GenericId,
    methods: &[MethodId],
) -> Result<(), AllocError>
    ensures { OnOk result (changes.new ≡ removing changes.old (initial_among id.0 generics.now.table.methods
        (method_numbers methods.now))) }
{
    let mut left = methods;
    while let Some((method, others)) = left.split_first() {
        if is_initial(generics, *method) {
            changes.remove(Removal {
                generic: id,
                method: *method,
            })?;
        }
        left = others;
    }
    Ok(())
}

fn is_initial(generics: &Generics, id: MethodId) -> bool
    ensures { result ≡ is_initial (slice_get generics.now.table.methods id.0) }
{
    match generics.method(id) {
        None => false,
        Some(method) => method.origin.is_method_option(),
    }
}

/// What the function is defined with.
fn options_of(alloc: Global, definition: &GenericDefinition) -> Result<Options, AllocError>
    ensures { IfOk result (λ r. r ≡ options_of definition.now) }
{
    let required = definition.lambda_list.required.as_slice();
    Ok(Options {
        shape: Shape::of(alloc, &definition.lambda_list)?,
        precedence: precedence_of(alloc, required, &definition.precedence)?,
        combination: combination_of(&definition.combination)?,
    })
}

fn combination_of(combination: &Option<CombinationUse>) -> Result<CombinationUse, AllocError>
    ensures { IfOk result (λ r. r ≡ unwrap_or combination.now standard) }
{
    match combination {
        None => Ok(standard_combination()),
        Some(combination) => Ok(CombinationUse {
            name: combination.name.copy()?,
            arguments: combination.arguments.copy()?,
        }),
    }
}

/// The argument precedence order, as places of the required parameters.
fn precedence_of(
    alloc: Global,
    required: &[Name],
    written: &Option<Sequence<Name>>,
) -> Result<Positions, AllocError>
    ensures { IfOk result (λ r. r ≡ precedence_of required.now written.now) }
{
    match written {
        None => Positions::left_to_right(alloc, required.len() as u64),
        Some(names) => places_of(alloc, required, names.as_slice()),
    }
}

fn places_of(alloc: Global, required: &[Name], names: &[Name]) -> Result<Positions, AllocError>
    ensures { IfOk result (λ r. r ≡ map (place_in required.now) names.now) }
{
    let mut places = Positions::new(alloc);
    let mut left = names;
    while let Some((name, others)) = left.split_first() {
        places.push(place_in(required, name))?;
        left = others;
    }
    Ok(places)
}

/// The place of a required parameter.
fn place_in(required: &[Name], name: &Name) -> usize
    ensures { result ≡ place_in required.now name.now }
{
    match position_of(required, name) {
        Some(place) => place,
        None => required.len(),
    }
}

fn position_of(required: &[Name], name: &Name) -> Option<usize>
    ensures { result ≡ position (same_name name.now) required.now }
{
    required.iter().position(|other| name.is(other))
}

/// Adds these methods, whose specializers are not known yet.
fn add_open(
    alloc: Global,
    changes: &mut Changes,
    id: GenericId,
    methods: &[MethodDefinition],
) -> Result<(), AllocError>
    ensures { OnOk result (changes.new ≡ adding changes.old (map (open_addition id.0) methods.now)) }
{
    let mut left = methods;
    while let Some((method, others)) = left.split_first() {
        changes.add(Addition {
            generic: id,
            shape: Shape::of(alloc, &method.lambda_list)?,
            likeness: None,
        })?;
        left = others;
    }
    Ok(())
}

/// These changes with the methods that come with the definition.
fn with_methods(
    alloc: Global,
    classes: &Classes,
    changes: Changes,
    id: GenericId,
    methods: Sequence<MethodDefinition>,
    values: &[Slot],
) -> Result<Effect, AllocError>
    ensures changes { IfOk result (λ e. e.changes ≡ adding changes (map addition_of
        (methods_with classes.now id.0 methods values.now))) }
    ensures methods { IfOk result (λ e. e.methods.items ≡ methods_with classes.now id.0 methods values.now) }
{
    let mut effect = Effect::new(alloc, changes);
    let mut left = VecDeque::from(methods.into_items());
    let mut values = values;
    while let Some(method) = left.pop_front() {
        let count = method.specializers.len();
        effect.add(
            alloc,
            method_with(alloc, classes, id, Origin::MethodOption, method, values)?,
        )?;
        values = past(values, count);
    }
    Ok(effect)
}

/// What comes after so many of these.
fn past(values: &[Slot], count: usize) -> &[Slot]
    ensures { result.now ≡ drop count values.now }
{
    if count < values.len() {
        return &values[count..];
    }
    &[]
}
