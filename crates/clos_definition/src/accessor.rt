//! The accessors of the slots of a class.
ghost use Rattle.std.specs.Prelude.{◌≡◌, ◌++◌, ◌∷◌, [], IfOk, OnOk, length, map, slice_get, unwrap_or};
ghost use Rattle.clos_method.specs.MethodIds.{method_numbers};
ghost use Rattle.clos_world.specs.World.{seen};
ghost use Rattle.clos_definition.specs.Accessor.{accessor_body, accessor_method, accessor_methods, accessor_refusal, accessor_shape, accessor_specializers, accessors_of, accessors_refusal, earlier_accessors, fits, function_of, functions_for, number_after, of_slot, place_of, removal_in, removals_of, with_functions};
ghost use Rattle.clos_definition.specs.Effect.{adding, addition_of, removing};
ghost use Rattle.clos_definition.specs.Refusal.{Allows};

use crate::effect::{Effect, addition_of};
use crate::refusal::{not_congruent, refuse_taken};
use clos_forms::FunctionName;
use clos_generic::{Changes, Definition, Generics, Options, Removal, copy_name, is_same};
use clos_hierarchy::numbers;
use clos_method::{Method, MethodBody, Origin, Qualifiers, Shape, Specializer, Specializers};
use clos_syntax::{Accessor, SlotSpecifier};
use clos_world::{Stop, World};
use lisp_data::{ClassId, GenericId, MethodId, Name};
use std::alloc::{AllocError, Global};

/// An accessor of the slot of this name.
#[derive(Drop)]
pub struct SlotAccessor {
    pub slot: Name,
    pub accessor: Accessor,
}

/// Those of these slots, in order.
pub fn accessors_of(alloc: Global, slots: &[SlotSpecifier]) -> Result<Vec<SlotAccessor>, AllocError>
    ensures { IfOk result (λ r. r.items ≡ accessors_of slots.now) }
{
    let mut accessors = Vec::new(alloc);
    let mut left = slots;
    while let Some((slot, others)) = left.split_first() {
        push_accessors(&mut accessors, &slot.name, slot.accessors.as_slice())?;
        left = others;
    }
    Ok(accessors)
}

fn push_accessors(
    all: &mut Vec<SlotAccessor>,
    slot: &Name,
    accessors: &[Accessor],
) -> Result<(), AllocError>
    ensures { OnOk result (all.new.items ≡ all.old.items ++ map (of_slot slot.now) accessors.now) }
{
    let mut left = accessors;
    while let Some((accessor, others)) = left.split_first() {
        all.push(SlotAccessor {
            slot: slot.copy()?,
            accessor: copy_accessor(accessor)?,
        })?;
        left = others;
    }
    Ok(())
}

fn copy_accessor(accessor: &Accessor) -> Result<Accessor, AllocError>
    ensures { IfOk result (λ r. r ≡ accessor.now) }
{
    match accessor {
        Accessor::Reader(name) => Ok(Accessor::Reader(name.copy()?)),
        Accessor::Writer(name) => Ok(Accessor::Writer(copy_name(name)?)),
    }
}

/// The name of the function that an accessor is a method of.
fn function_of(accessor: &SlotAccessor) -> Result<FunctionName, AllocError>
    ensures { IfOk result (λ r. r ≡ function_of accessor.now) }
{
    match &accessor.accessor {
        Accessor::Reader(name) => Ok(FunctionName::Symbol(name.copy()?)),
        Accessor::Writer(name) => copy_name(name),
    }
}

/// The shape of its method.
fn accessor_shape(accessor: &Accessor) -> Shape
    ensures { result ≡ accessor_shape accessor.now }
{
    let required = match accessor {
        Accessor::Reader(_) => 1,
        Accessor::Writer(_) => 2,
    };
    Shape {
        required,
        optional: 0,
        rest: false,
        keys: None,
    }
}

/// The classes on which it is specialized.
fn accessor_specializers(
    alloc: Global,
    class: ClassId,
    accessor: &Accessor,
) -> Result<Specializers, AllocError>
    ensures { IfOk result (λ r. r ≡ accessor_specializers class.0 accessor.now) }
{
    let mut specializers = Specializers::new(alloc);
    match accessor {
        Accessor::Reader(_) => {}
        Accessor::Writer(_) => specializers.push(Specializer::Class(numbers::T))?,
    }
    specializers.push(Specializer::Class(class))?;
    Ok(specializers)
}

/// What it does with the slot.
fn accessor_body(slot: &Name, accessor: &Accessor) -> Result<MethodBody, AllocError>
    ensures { IfOk result (λ r. r ≡ accessor_body slot.now accessor.now) }
{
    match accessor {
        Accessor::Reader(_) => Ok(MethodBody::Reader(slot.copy()?)),
        Accessor::Writer(_) => Ok(MethodBody::Writer(slot.copy()?)),
    }
}

/// The method of an accessor, of this class and of the function of this number.
fn accessor_method(
    alloc: Global,
    class: ClassId,
    generic: GenericId,
    accessor: &SlotAccessor,
) -> Result<Method, AllocError>
    ensures { IfOk result (λ r. r ≡ accessor_method class.0 generic.0 accessor.now) }
{
    Ok(Method {
        generic,
        qualifiers: Qualifiers::new(alloc),
        specializers: accessor_specializers(alloc, class, &accessor.accessor)?,
        shape: accessor_shape(&accessor.accessor),
        origin: Origin::Accessor(class),
        body: accessor_body(&accessor.slot, &accessor.accessor)?,
    })
}

/// The accessors of an earlier definition of a class go, and the functions that are to be made for these are, each once.
pub fn changes_for(
    alloc: Global,
    generics: &Generics,
    class: ClassId,
    accessors: &[SlotAccessor],
) -> Result<Changes, AllocError>
    ensures { IfOk result (λ r. r ≡ record {
      removals = earlier_accessors class.0 generics.now.table;
      definitions =
          functions_for generics.now.table accessors.now;
      additions = [];
    }) }
{
    let mut changes = Changes::new(alloc);
    remove_earlier(alloc, generics, &mut changes, class)?;
    add_functions(alloc, generics, &mut changes, accessors)?;
    Ok(changes)
}

/// Removes the methods of the accessors of an earlier definition of a class that are still there.
fn remove_earlier(
    alloc: Global,
    generics: &Generics,
    changes: &mut Changes,
    class: ClassId,
) -> Result<(), AllocError>
    ensures { OnOk result (changes.new ≡ removing changes.old (earlier_accessors class.0 generics.now.table)) }
{
    let methods = generics.accessors_there(alloc, class)?;
    remove_methods(generics, changes, &methods)
}

/// Removes these methods from their functions.
fn remove_methods(
    generics: &Generics,
    changes: &mut Changes,
    methods: &[MethodId],
) -> Result<(), AllocError>
    ensures { OnOk result (changes.new ≡ removing changes.old (removals_of generics.now.table.methods
        (method_numbers methods.now))) }
{
    let mut left = methods;
    while let Some((method, others)) = left.split_first() {
        remove_method(generics, changes, *method)?;
        left = others;
    }
    Ok(())
}

/// Removes a method from its function.
fn remove_method(generics: &Generics, changes: &mut Changes, id: MethodId) -> Result<(), AllocError>
    ensures { OnOk result (changes.new ≡ removing changes.old (removal_in id.0
        (slice_get generics.now.table.methods id.0))) }
{
    match generics.method(id) {
        None => Ok(()),
        Some(method) => {
            changes.remove(Removal {
                generic: method.generic,
                method: id,
            })?;
            Ok(())
        }
    }
}

/// Adds the functions that are to be made for these accessors, each once.
fn add_functions(
    alloc: Global,
    generics: &Generics,
    changes: &mut Changes,
    accessors: &[SlotAccessor],
) -> Result<(), AllocError>
    ensures { OnOk result (changes.new ≡ record changes.old {
      definitions = with_functions generics.now.table
          changes.old.definitions accessors.now;
    }) }
{
    let mut left = accessors;
    while let Some((accessor, others)) = left.split_first() {
        add_function(alloc, generics, changes, accessor)?;
        left = others;
    }
    Ok(())
}

/// With the function of an accessor, unless it is there.
fn add_function(
    alloc: Global,
    generics: &Generics,
    changes: &mut Changes,
    accessor: &SlotAccessor,
) -> Result<(), AllocError>
    ensures { OnOk result (changes.new ≡ record changes.old {
      definitions = with_functions generics.now.table
          changes.old.definitions (accessor.now ∷ []);
    }) }
{
    let name = function_of(accessor)?;
    if generics.named(&name).is_some() || place_of(changes.definitions(), &name).is_some() {
        return Ok(());
    }
    let options = Options::standard(alloc, accessor_shape(&accessor.accessor))?;
    changes.define(Definition { name, options })?;
    Ok(())
}

/// The place of the definition of this name.
fn place_of(definitions: &[Definition], name: &FunctionName) -> Option<usize>
    ensures { result ≡ place_of name.now definitions.now }
{
    definitions.iter().position(|d| is_same(&d.name, name))
}

/// The number that the function of this name has after these definitions of new ones. There is no memory for more functions than
/// there are numbers.
fn number_after(
    generics: &Generics,
    definitions: &[Definition],
    name: &FunctionName,
) -> Result<GenericId, AllocError>
    ensures { IfOk result (λ g. g.0 ≡ number_after generics.now.table definitions.now name.now) }
{
    match generics.named(name) {
        Some(id) => Ok(id),
        None => {
            let place = place_or_end(definitions, name);
            match generics.function_count().checked_add(place) {
                Some(number) => Ok(GenericId(number)),
                None => Err(AllocError),
            }
        }
    }
}

/// The place of the definition of this name, or that of the next one.
fn place_or_end(definitions: &[Definition], name: &FunctionName) -> u64
    ensures { result ≡ unwrap_or (place_of name.now definitions.now) (length definitions.now) }
{
    match place_of(definitions, name) {
        Some(place) => place as u64,
        None => definitions.len() as u64,
    }
}

/// A condition where an accessor among these can't be, after these definitions of new functions: of the first one.
pub fn refuse_accessors(
    alloc: Global,
    world: &World,
    class: ClassId,
    definitions: &[Definition],
    accessors: &[SlotAccessor],
) -> Result<(), Stop>
    ensures { Allows (accessors_refusal class.0 definitions.now accessors.now (seen world.now)) result }
{
    let mut left = accessors;
    while let Some((accessor, others)) = left.split_first() {
        refuse_accessor(alloc, world, class, definitions, accessor)?;
        left = others;
    }
    Ok(())
}

fn refuse_accessor(
    alloc: Global,
    world: &World,
    class: ClassId,
    definitions: &[Definition],
    accessor: &SlotAccessor,
) -> Result<(), Stop>
    ensures { Allows (accessor_refusal class.0 definitions.now accessor.now (seen world.now)) result }
{
    let name = function_of(accessor)?;
    refuse_taken(alloc, world, &name)?;
    if !fits(alloc, &world.generics, class, definitions, accessor)? {
        return Err(Stop::Refused(not_congruent(alloc, &name)?));
    }
    Ok(())
}

/// The method of an accessor, of its function as it is after these definitions of new ones.
fn method_for(
    alloc: Global,
    generics: &Generics,
    class: ClassId,
    definitions: &[Definition],
    accessor: &SlotAccessor,
) -> Result<Method, AllocError>
    ensures { IfOk result (λ r. r ≡ accessor_method class.0 (number_after generics.now.table definitions.now
        (function_of accessor.now)) accessor.now) }
{
    let name = function_of(accessor)?;
    let id = number_after(generics, definitions, &name)?;
    accessor_method(alloc, class, id, accessor)
}

/// Whether an accessor is congruent with its function, as it is after these definitions.
fn fits(
    alloc: Global,
    generics: &Generics,
    class: ClassId,
    definitions: &[Definition],
    accessor: &SlotAccessor,
) -> Result<bool, AllocError>
    ensures { IfOk result (λ b. b ≡ fits class.0 generics.now.table definitions.now accessor.now) }
{
    let method = method_for(alloc, generics, class, definitions, accessor)?;
    let addition = addition_of(alloc, &method)?;
    Ok(generics.addition_fits(definitions, &addition))
}

/// These changes, with the methods of the accessors.
pub fn with_accessors(
    alloc: Global,
    generics: &Generics,
    class: ClassId,
    changes: Changes,
    accessors: &[SlotAccessor],
) -> Result<Effect, AllocError>
    ensures changes { IfOk result (λ e. e.changes ≡ adding changes (map addition_of
        (accessor_methods class.0 generics.now.table changes.definitions accessors.now))) }
    ensures methods { IfOk result (λ e. e.methods.items ≡ accessor_methods class.0 generics.now.table
        changes.definitions accessors.now) }
{
    let mut effect = Effect::new(alloc, changes);
    let mut left = accessors;
    while let Some((accessor, others)) = left.split_first() {
        let definitions = effect.changes.definitions();
        let method = method_for(alloc, generics, class, definitions, accessor)?;
        effect.add(alloc, method)?;
        left = others;
    }
    Ok(effect)
}
