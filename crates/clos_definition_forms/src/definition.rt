//! What definition forms do (HyperSpec 7.7): the checks, the forms that they evaluate, and one step for the whole of the effect. What
//! is refused takes none.
ghost use Rattle.std.specs.Prelude.{◌≡◌, [], map};
ghost use Rattle.clos_eval.specs.clos_machine.clos_world.World.{seen};
ghost use Rattle.clos_making.specs.clos_effects.clos_definition.Class.{initforms};
ghost use Rattle.clos_syntax.specs.Laws.{IsSpecialized};
ghost use Rattle.clos_making.specs.clos_effects.clos_definition.Generic.{IsWellRead, eql_forms};
ghost use Rattle.clos_making.specs.clos_effects.clos_definition.Method.{eql_form};
ghost use Rattle.clos_eval.specs.Evaluation.{Performs};
ghost use Rattle.clos_definition_forms.specs.Definition.{define_class, define_generic, define_method, remove_method};
ghost use Rattle.clos_making.specs.Made.{class_made, generic_made, method_made};
ghost use Rattle.clos_definition_forms.specs.Forms.{forms_evaluated};
ghost use Rattle.clos_making.specs.clos_effects.Effects.{SameAtStorage};
ghost use Rattle.clos_making.specs.clos_effects.Hearing.{Heard};

use crate::forms::evaluate_forms;
use clos_eval::{Natives, Stop, World};
use clos_forms::{Form, FunctionName};
use clos_making::{
    Dependents, NewCell, both, check_class, check_generic, check_method, generic_forms, initforms,
    make_checked_class, make_generic, make_method, method_forms, remove_evaluated,
};
use clos_syntax::{ClassDefinition, GenericDefinition, MethodDefinition};
use lisp_data::Value;
use std::alloc::Global;

/// Defines a method, which takes the place of one with the same qualifiers and specializers.
pub fn defmethod<N: Natives, D: Dependents>(
    alloc: Global,
    world: &mut World,
    natives: &N,
    answers: &mut Vec<i64>,
    dependents: &mut D,
    name: FunctionName,
    definition: MethodDefinition,
    steps: &mut u64,
) -> Result<Value, Stop>
    requires { IsSpecialized definition }
    ensures performs { Performs (N.host natives.now) (define_method name definition) world.old steps.old
        answers.old.items result world.new steps.new answers.new.items }
    ensures heard { Heard (D.told dependents.old) (seen world.old) (D.told dependents.new) (seen world.new) }
    ensures names { D.names dependents.new ≡ D.names dependents.old }
    ensures undone { SameAtStorage result (seen world.old) (seen world.new) }
{
    match check_method(alloc, world, &name, &definition) {
        Err(stop) => Err(stop),
        Ok(()) => {
            define_checked_method(
                alloc, world, natives, answers, dependents, name, definition, steps,
            )
        },
    }
}

/// Evaluates the forms of the specializers of a method, and then makes it.
fn define_checked_method<N: Natives, D: Dependents>(
    alloc: Global,
    world: &mut World,
    natives: &N,
    answers: &mut Vec<i64>,
    dependents: &mut D,
    name: FunctionName,
    definition: MethodDefinition,
    steps: &mut u64,
) -> Result<Value, Stop>
    requires { IsSpecialized definition }
    ensures performs { Performs (N.host natives.now) (forms_evaluated (map eql_form definition.specializers) []
        (method_made name definition)) world.old steps.old answers.old.items result world.new steps.new
        answers.new.items }
    ensures heard { Heard (D.told dependents.old) (seen world.old) (D.told dependents.new) (seen world.new) }
    ensures names { D.names dependents.new ≡ D.names dependents.old }
    ensures undone { SameAtStorage result (seen world.old) (seen world.new) }
{
    let Ok(forms) = method_forms(alloc, &definition) else {
        return Err(Stop::Storage);
    };
    match evaluate_forms(alloc, world, natives, answers, &forms, steps) {
        Err(stop) => Err(stop),
        Ok(values) => make_method(alloc, world, dependents, name, definition, &values, steps),
    }
}

/// Defines a generic function, or defines it again.
pub fn defgeneric<N: Natives, D: Dependents>(
    alloc: Global,
    world: &mut World,
    natives: &N,
    answers: &mut Vec<i64>,
    dependents: &mut D,
    definition: GenericDefinition,
    steps: &mut u64,
) -> Result<Value, Stop>
    requires { IsWellRead definition }
    ensures performs { Performs (N.host natives.now) (define_generic definition) world.old steps.old answers.old.items
        result world.new steps.new answers.new.items }
    ensures heard { Heard (D.told dependents.old) (seen world.old) (D.told dependents.new) (seen world.new) }
    ensures names { D.names dependents.new ≡ D.names dependents.old }
    ensures undone { SameAtStorage result (seen world.old) (seen world.new) }
{
    match check_generic(alloc, world, &definition) {
        Err(stop) => Err(stop),
        Ok(()) => define_checked_generic(
            alloc, world, natives, answers, dependents, definition, steps,
        ),
    }
}

/// Evaluates the forms of the specializers of its methods, and then makes it.
fn define_checked_generic<N: Natives, D: Dependents>(
    alloc: Global,
    world: &mut World,
    natives: &N,
    answers: &mut Vec<i64>,
    dependents: &mut D,
    definition: GenericDefinition,
    steps: &mut u64,
) -> Result<Value, Stop>
    requires { IsWellRead definition }
    ensures performs { Performs (N.host natives.now) (forms_evaluated (eql_forms definition.methods) []
        (generic_made definition)) world.old steps.old answers.old.items result world.new steps.new answers.new.items }
    ensures heard { Heard (D.told dependents.old) (seen world.old) (D.told dependents.new) (seen world.new) }
    ensures names { D.names dependents.new ≡ D.names dependents.old }
    ensures undone { SameAtStorage result (seen world.old) (seen world.new) }
{
    let Ok(forms) = generic_forms(alloc, &definition) else {
        return Err(Stop::Storage);
    };
    match evaluate_forms(alloc, world, natives, answers, &forms, steps) {
        Err(stop) => Err(stop),
        Ok(values) => make_generic(alloc, world, dependents, definition, &values, steps),
    }
}

/// Defines a class, or defines it again, with the methods of its accessors. Some of its direct superclasses may not be defined
/// yet.
pub fn defclass<N: Natives, D: Dependents>(
    alloc: Global,
    world: &mut World,
    natives: &N,
    answers: &mut Vec<i64>,
    dependents: &mut D,
    definition: &ClassDefinition,
    steps: &mut u64,
) -> Result<Value, Stop>
    ensures performs { Performs (N.host natives.now) (define_class definition.now) world.old steps.old answers.old.items
        result world.new steps.new answers.new.items }
    ensures heard { Heard (D.told dependents.old) (seen world.old) (D.told dependents.new) (seen world.new) }
    ensures names { D.names dependents.new ≡ D.names dependents.old }
    ensures undone { SameAtStorage result (seen world.old) (seen world.new) }
{
    match check_class(alloc, world, definition) {
        Err(stop) => Err(stop),
        Ok(reserved) => {
            define_checked_class(
                alloc,
                world,
                natives,
                answers,
                dependents,
                definition,
                reserved.cells.as_slice(),
                steps,
            )
        }
    }
}

/// Evaluates the initforms of the new cells of a class, and then makes it.
fn define_checked_class<N: Natives, D: Dependents>(
    alloc: Global,
    world: &mut World,
    natives: &N,
    answers: &mut Vec<i64>,
    dependents: &mut D,
    definition: &ClassDefinition,
    cells: &[NewCell],
    steps: &mut u64,
) -> Result<Value, Stop>
    ensures performs { Performs (N.host natives.now) (forms_evaluated (initforms cells.now) []
        (class_made definition.now)) world.old steps.old answers.old.items result world.new steps.new answers.new.items }
    ensures heard { Heard (D.told dependents.old) (seen world.old) (D.told dependents.new) (seen world.new) }
    ensures names { D.names dependents.new ≡ D.names dependents.old }
    ensures undone { SameAtStorage result (seen world.old) (seen world.new) }
{
    let Ok(forms) = initforms(alloc, cells) else {
        return Err(Stop::Storage);
    };
    match evaluate_forms(alloc, world, natives, answers, &forms, steps) {
        Err(stop) => Err(stop),
        Ok(values) => make_checked_class(alloc, world, dependents, definition, values, steps),
    }
}

/// Takes a method out of a function, after both forms are evaluated.
pub fn remove_method<N: Natives, D: Dependents>(
    alloc: Global,
    world: &mut World,
    natives: &N,
    answers: &mut Vec<i64>,
    dependents: &mut D,
    function: Form,
    method: Form,
    steps: &mut u64,
) -> Result<Value, Stop>
    ensures performs { Performs (N.host natives.now) (remove_method function method) world.old steps.old
        answers.old.items result world.new steps.new answers.new.items }
    ensures heard { Heard (D.told dependents.old) (seen world.old) (D.told dependents.new) (seen world.new) }
    ensures names { D.names dependents.new ≡ D.names dependents.old }
    ensures undone { SameAtStorage result (seen world.old) (seen world.new) }
{
    let Ok(forms) = both(alloc, function, method) else {
        return Err(Stop::Storage);
    };
    match evaluate_forms(alloc, world, natives, answers, &forms, steps) {
        Err(stop) => Err(stop),
        Ok(values) => remove_evaluated(alloc, world, dependents, &values, steps),
    }
}
