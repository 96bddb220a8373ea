//! Methods that are defined: what a `defmethod` does, and what a `:method` option of a `defgeneric` stands for.
ghost use Rattle.std.specs.Prelude.{◌≡◌, ◌++◌, ◌∷◌, [], IfOk, OnOk, None, Some, drop, map, option_map, unwrap_or};
ghost use Rattle.lisp_data.specs.DatumView.{datum_of};
ghost use Rattle.lisp_data.specs.Value.{list, nil};
ghost use Rattle.lisp_data.specs.ValueView.{value_of};
ghost use Rattle.clos_forms.specs.Quotation.{quotation};
ghost use Rattle.clos_generic.specs.Table.{number};
ghost use Rattle.clos_method.specs.Specializer.{specializer_of};
ghost use Rattle.clos_syntax.specs.Laws.{IsSpecialized};
ghost use Rattle.clos_world.specs.Uses.{uses_of};
ghost use Rattle.clos_world.specs.World.{seen};
ghost use Rattle.clos_definition.specs.Effect.{IsReserved, concerned_by, with_effect};
ghost use Rattle.clos_definition.specs.Method.{defined_method, eql_form, first_value, function_for, method_changes, method_concerned, method_refusal, method_with, qualifiers_of, specializer_refusal, specializer_with, specializers_refusal, specializers_with, with_defined_method};
ghost use Rattle.clos_definition.specs.Refusal.{Allows};

use crate::effect::{Effect, check, reserve};
use crate::refusal::refuse_taken;
use clos_class::Classes;
use clos_forms::{Form, FunctionName, quoted_value};
use clos_generic::{Addition, Changes, Definition, Generics, Options, copy_name};
use clos_method::{
    Method, MethodBody, Origin, Qualifiers, Shape, SharedLambdaList, Specializer, Specializers,
};
use clos_store::Slot;
use clos_syntax::{MethodDefinition, ParameterSpecializer};
use clos_world::{ConditionKind, Stop, World, about_name};
use lisp_data::{ClassId, Data, Datum, GenericId, Items, Value};
use std::alloc::{AllocError, Global};

/// Whether a method may be defined, as far as this is known before the forms of its specializers are evaluated: the name is not
/// that of a function, the classes are defined, and its lambda list is congruent with that of its function.
pub fn check_method(
    alloc: Global,
    world: &World,
    name: &FunctionName,
    definition: &MethodDefinition,
) -> Result<(), Stop>
    ensures { Allows (method_refusal name.now definition.now None (seen world.now)) result }
{
    refuse_taken(alloc, world, name)?;
    refuse_specializers(alloc, world, definition.specializers.as_slice())?;
    let shape = Shape::of(alloc, &definition.lambda_list)?;
    let mut changes = changes_for(alloc, &world.generics, name, &shape)?;
    changes.add(Addition {
        generic: number_of(&world.generics, name),
        shape,
        likeness: None,
    })?;
    check(alloc, world, name, &changes)
}

/// The forms that are evaluated for the specializers of a method, one for each.
pub fn method_forms(
    alloc: Global,
    definition: &MethodDefinition,
) -> Result<Vec<Option<Form>>, AllocError>
    ensures { IfOk result (λ r. r.items ≡ map eql_form definition.now.specializers) }
{
    let mut forms = Vec::new(alloc);
    push_forms(&mut forms, definition.specializers.as_slice())?;
    Ok(forms)
}

/// Prepares a method, where the forms of its specializers gave these values.
pub fn prepare_method(
    alloc: Global,
    world: &mut World,
    name: &FunctionName,
    definition: MethodDefinition,
    values: &[Slot],
) -> Result<Effect, Stop>
    requires { IsSpecialized definition }
    ensures allows { Allows (method_refusal name.now definition (Some values.now) (seen world.old)) result }
    ensures reserved { IfOk result (λ e. IsReserved e world.new.generics) }
    ensures effect { IfOk result (λ e. with_effect e (seen world.old) ≡ with_defined_method name.now definition
        values.now (seen world.old)) }
    ensures concerned { IfOk result (λ e. concerned_by e (seen world.old).generics ≡ method_concerned name.now
        definition values.now (seen world.old)) }
    ensures same { seen world.new ≡ seen world.old }
    ensures kept { uses_of world.new ≡ uses_of world.old }
{
    refuse_taken(alloc, world, name)?;
    refuse_specializers(alloc, world, definition.specializers.as_slice())?;
    let effect = effect_for(alloc, world, name, definition, values)?;
    reserve(alloc, world, name, &effect)?;
    Ok(effect)
}

/// What the definition of a method does.
fn effect_for(
    alloc: Global,
    world: &World,
    name: &FunctionName,
    definition: MethodDefinition,
    values: &[Slot],
) -> Result<Effect, AllocError>
    ensures changes { IfOk result (λ e. e.changes ≡ method_changes name.now definition (Some values.now)
        (seen world.now)) }
    ensures methods { IfOk result (λ e. e.methods.items ≡ defined_method name.now definition values.now (seen world.now)
        ∷ []) }
{
    let id = number_of(&world.generics, name);
    let method = method_with(
        alloc,
        world.classes(),
        id,
        Origin::Defmethod,
        definition,
        values,
    )?;
    let changes = changes_for(alloc, &world.generics, name, &method.shape)?;
    let mut effect = Effect::new(alloc, changes);
    effect.add(alloc, method)?;
    Ok(effect)
}

/// The number of the function of this name, or the next number where there is none.
pub fn number_of(generics: &Generics, name: &FunctionName) -> GenericId
    ensures { result.0 ≡ number generics.now.table name.now }
{
    match generics.named(name) {
        Some(id) => id,
        None => GenericId(generics.function_count()),
    }
}

/// The definition of the function of this name, where there is none, for a method of this shape.
fn changes_for(
    alloc: Global,
    generics: &Generics,
    name: &FunctionName,
    shape: &Shape,
) -> Result<Changes, AllocError>
    ensures { IfOk result (λ r. r ≡ record {
      removals = [];
      definitions = function_for generics.now.table name.now
          shape.now;
      additions = [];
    }) }
{
    let mut changes = Changes::new(alloc);
    if generics.named(name).is_none() {
        let options = Options::standard(alloc, Shape::made_by(shape))?;
        let name = copy_name(name)?;
        changes.define(Definition { name, options })?;
    }
    Ok(changes)
}

/// A condition where a class among these is not defined: of the first one.
pub fn refuse_specializers(
    alloc: Global,
    world: &World,
    specializers: &[ParameterSpecializer],
) -> Result<(), Stop>
    ensures { Allows (specializers_refusal specializers.now (seen world.now)) result }
{
    let mut left = specializers;
    while let Some((specializer, others)) = left.split_first() {
        refuse_specializer(alloc, world, specializer)?;
        left = others;
    }
    Ok(())
}

fn refuse_specializer(
    alloc: Global,
    world: &World,
    specializer: &ParameterSpecializer,
) -> Result<(), Stop>
    ensures { Allows (specializer_refusal (seen world.now) specializer.now) result }
{
    match specializer {
        ParameterSpecializer::Eql(_) => Ok(()),
        ParameterSpecializer::Class(name) => match world.classes().hierarchy().named(name) {
            Some(_) => Ok(()),
            None => {
                let condition = about_name(alloc, ConditionKind::UndefinedClass, name)?;
                Err(Stop::Refused(condition))
            }
        },
    }
}

/// Adds the forms of these specializers at the end.
pub fn push_forms(
    forms: &mut Vec<Option<Form>>,
    specializers: &[ParameterSpecializer],
) -> Result<(), AllocError>
    ensures { OnOk result (forms.new.items ≡ forms.old.items ++ map eql_form specializers.now) }
{
    let mut left = specializers;
    while let Some((specializer, others)) = left.split_first() {
        forms.push(eql_form(specializer)?)?;
        left = others;
    }
    Ok(())
}

fn eql_form(specializer: &ParameterSpecializer) -> Result<Option<Form>, AllocError>
    ensures { IfOk result (λ r. r ≡ eql_form specializer.now) }
{
    match specializer {
        ParameterSpecializer::Class(_) => Ok(None),
        ParameterSpecializer::Eql(form) => Ok(Some(form.copy()?)),
    }
}

/// A method of the function of this number, where the forms of its specializers gave these values.
pub fn method_with(
    alloc: Global,
    classes: &Classes,
    generic: GenericId,
    origin: Origin,
    definition: MethodDefinition,
    values: &[Slot],
) -> Result<Method, AllocError>
    ensures { IfOk result (λ r. r ≡ method_with classes.now generic.0 origin definition values.now) }
{
    let MethodDefinition {
        qualifiers,
        lambda_list,
        specializers,
        body,
    } = definition;
    Ok(Method {
        generic,
        qualifiers: qualifiers_of(alloc, &qualifiers)?,
        specializers: specializers_with(alloc, classes, specializers.as_slice(), values)?,
        shape: Shape::of(alloc, &lambda_list)?,
        origin,
        body: MethodBody::Forms(SharedLambdaList::new(alloc, lambda_list)?, body),
    })
}

/// The qualifiers as values.
fn qualifiers_of(alloc: Global, written: &Data) -> Result<Qualifiers, AllocError>
    ensures { IfOk result (λ r. r ≡ qualifiers_of written.now) }
{
    let mut qualifiers = Qualifiers::new(alloc);
    let mut left = written;
    while let Some((datum, others)) = left.split_first() {
        qualifiers.push(atom(alloc, datum)?)?;
        left = others;
    }
    Ok(qualifiers)
}

/// An atom as it would be quoted.
fn atom(alloc: Global, datum: &Datum) -> Result<Value, AllocError>
    ensures { IfOk result (λ r. value_of r ≡ unwrap_or (quotation (datum_of datum.now)) (list nil)) }
{
    match quoted_value(alloc, datum)? {
        Some(value) => Ok(value),
        None => Ok(Value::List(Items::new())),
    }
}

/// The specializers, with these values of their forms.
fn specializers_with(
    alloc: Global,
    classes: &Classes,
    specializers: &[ParameterSpecializer],
    values: &[Slot],
) -> Result<Specializers, AllocError>
    ensures { IfOk result (λ r. r ≡ specializers_with classes.now specializers.now values.now) }
{
    let mut found = Specializers::new(alloc);
    let mut left = specializers;
    let mut values = values;
    while let Some((specializer, others)) = left.split_first() {
        let (value, more) = first_value(values);
        found.push(specializer_with(classes, specializer, value)?)?;
        left = others;
        values = more;
    }
    Ok(found)
}

/// The first value, if there is one, and the others.
fn first_value(values: &[Slot]) -> (Option<&Value>, &[Slot])
    ensures first { option_map (λ v. value_of v.now) result.0 ≡ first_value values.now }
    ensures others { result.1.now ≡ drop 1 values.now }
{
    match values.split_first() {
        None => (None, values),
        Some((value, others)) => (value.value(), others),
    }
}

/// A specializer, with the value of its form.
fn specializer_with(
    classes: &Classes,
    specializer: &ParameterSpecializer,
    value: Option<&Value>,
) -> Result<Specializer, AllocError>
    ensures { IfOk result (λ r. specializer_of r ≡ specializer_with classes.now specializer.now
        (option_map (λ v. value_of v.now) value.entry)) }
{
    match specializer {
        ParameterSpecializer::Class(name) => match classes.hierarchy().named(name) {
            Some(class) => Ok(Specializer::Class(class)),
            None => Ok(Specializer::Class(ClassId(0))),
        },
        ParameterSpecializer::Eql(_) => match value {
            Some(object) => Ok(Specializer::Eql(object.copy()?)),
            None => Ok(Specializer::Eql(Value::List(Items::new()))),
        },
    }
}
