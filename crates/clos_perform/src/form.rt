//! What a top-level form does, by its kind.
ghost use Rattle.std.specs.Prelude.{◌≡◌, Some};
ghost use Rattle.lisp_data.specs.DatumView.{datum_of};
ghost use Rattle.clos_definition_forms.specs.clos_world.World.{seen};
ghost use Rattle.clos_definition_forms.specs.clos_eval.Evaluation.{Performs};
ghost use Rattle.clos_definition_forms.specs.clos_effects.Effects.{SameAtStorage};
ghost use Rattle.clos_definition_forms.specs.clos_effects.Hearing.{Heard};
ghost use Rattle.clos_perform.specs.Read.{IsWellRead};
ghost use Rattle.clos_perform.specs.Step.{checked, step};

use clos_definition_forms::{
    Change, ConditionKind, Dependents, Natives, Stop, World, change_dependents, defclass,
    defgeneric, define_combination, define_variable, defmethod, defun, evaluate, plain,
    remove_method,
};
use clos_forms::SyntaxFault;
use clos_top::{Top, parse_top};
use lisp_data::{Datum, Items, Value};
use std::alloc::Global;

/// Performs a top-level form (HyperSpec 3.1.2.1) with so many steps, which fall by those that it takes.
#[tactic(auto, using(clos_definition_forms::proofs::Evaluated::performs_alone))]
pub fn perform<N: Natives, D: Dependents>(
    alloc: Global,
    world: &mut World,
    natives: &N,
    answers: &mut Vec<i64>,
    dependents: &mut D,
    datum: &Datum,
    steps: &mut u64,
) -> Result<Value, Stop>
    ensures performs { Performs (N.host natives.now) (step (datum_of datum.now)) world.old steps.old answers.old.items
        result world.new steps.new answers.new.items }
    ensures heard { Heard (D.told dependents.old) (seen world.old) (D.told dependents.new) (seen world.new) }
    ensures names { D.names dependents.new ≡ D.names dependents.old }
    ensures undone { SameAtStorage result (seen world.old) (seen world.new) }
{
    match parse_top(alloc, datum) {
        Ok(top) => perform_top(alloc, world, natives, answers, dependents, top, steps),
        Err(SyntaxFault::Program) => Err(Stop::Refused(plain(alloc, ConditionKind::ProgramError))),
        Err(SyntaxFault::Memory) => Err(Stop::Storage),
    }
}

/// Performs a form that is checked.
#[tactic(auto, using(clos_definition_forms::proofs::Evaluated::performs_alone))]
fn perform_top<N: Natives, D: Dependents>(
    alloc: Global,
    world: &mut World,
    natives: &N,
    answers: &mut Vec<i64>,
    dependents: &mut D,
    top: Top,
    steps: &mut u64,
) -> Result<Value, Stop>
    requires { IsWellRead top }
    ensures performs { Performs (N.host natives.now) (checked (Some top)) world.old steps.old answers.old.items result
        world.new steps.new answers.new.items }
    ensures heard { Heard (D.told dependents.old) (seen world.old) (D.told dependents.new) (seen world.new) }
    ensures names { D.names dependents.new ≡ D.names dependents.old }
    ensures undone { SameAtStorage result (seen world.old) (seen world.new) }
{
    match top {
        Top::DefClass(definition) => {
            defclass(
                alloc,
                world,
                natives,
                answers,
                dependents,
                &definition,
                steps,
            )
        }
        Top::DefGeneric(definition) => {
            defgeneric(
                alloc, world, natives, answers, dependents, definition, steps,
            )
        }
        Top::DefMethod(name, definition) => {
            defmethod(
                alloc, world, natives, answers, dependents, name, definition, steps,
            )
        }
        Top::DefCombination(definition) => define_combination(alloc, world, definition, steps),
        Top::Defun(function) => defun(alloc, world, function, steps),
        Top::DefVar(variable) => {
            define_variable(alloc, world, natives, answers, variable, steps)
        }
        Top::RemoveMethod(function, method) => {
            remove_method(
                alloc, world, natives, answers, dependents, function, method, steps,
            )
        }
        Top::AddDependent(metaobject, name) => {
            change_dependents(
                alloc,
                world,
                natives,
                answers,
                Change::Add,
                metaobject,
                name,
                steps,
            )
        }
        Top::RemoveDependent(metaobject, name) => {
            change_dependents(
                alloc,
                world,
                natives,
                answers,
                Change::Remove,
                metaobject,
                name,
                steps,
            )
        }
        Top::InPackage => Ok(Value::List(Items::new())),
        Top::Expr(form) => {
            let room = world.limits.depth.min(4_000);
            evaluate(alloc, world, natives, answers, form, room, steps)
        }
    }
}
