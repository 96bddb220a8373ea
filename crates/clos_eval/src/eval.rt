//! Evaluation: the machine takes one turn after another, up to the value of the whole.
ghost use Rattle.std.specs.Prelude.{IfOk};
ghost use Rattle.lisp_data.specs.ValueView.{value_of};
ghost use Rattle.clos_machine.specs.clos_meaning.Meaning.{evaluation};
ghost use Rattle.clos_eval.specs.Evaluation.{GoesOn, Performs, followed};

use crate::actions::{act, perform, tend};
use crate::forms::begin_form;
use crate::frames::give;
use crate::host::Natives;
use crate::natives::call_native;
use clos_control::arguments::collect_values;
use clos_control::binding::turn;
use clos_forms::Form;
use clos_machine::machine::{Doing, Level, Machine};
use clos_machine::{Stop, World};
use clos_next_methods::generic_calls::invoke;
use lisp_data::Value;
use std::alloc::Global;

/// Evaluates a form with this much room for depth. Steps fall by those taken, and the answers of the host's functions that
/// were called come after those that are there. What is kept of calls, and how many effective methods were worked out, follows
/// the uses that the form makes. Where memory is refused, the world is that after the steps taken.
pub fn evaluate<N: Natives>(
    alloc: Global,
    world: &mut World,
    natives: &N,
    answers: &mut Vec<i64>,
    form: Form,
    room: u64,
    steps: &mut u64,
) -> Result<Value, Stop>
    ensures performs { Performs (N.host natives.now) (evaluation room form) world.old steps.old answers.old.items result
        world.new steps.new answers.new.items }
    ensures taken { IfOk result (λ v. GoesOn (N.host natives.now) (followed (evaluation room form)) world.old steps.old
        answers.old.items (value_of v) world.new steps.new answers.new.items) }
{
    let Ok(mut machine) = Machine::new(alloc, room) else {
        return Err(Stop::Storage);
    };
    let mut doing = Doing::Start(form);
    loop {
        let came = match doing {
            Doing::Start(begun) => begin_form(alloc, &mut machine, world, begun, steps),
            Doing::Collect(action, forms, values) => {
                collect_values(&mut machine, world, action, &forms, values, steps)
            }
            Doing::Act(action, values) => act(alloc, &mut machine, world, action, values, steps),
            Doing::Invoke(function, values) => {
                invoke(alloc, &mut machine, world, function, values)
            }
            Doing::Perform(method, arguments) => {
                perform(alloc, &mut machine, world, method, &arguments, steps)
            }
            Doing::Turn(repetition, counter) => {
                turn(alloc, &mut machine, world, repetition, counter, steps)
            }
            Doing::Tend(task) => tend(alloc, &mut machine, world, task, steps),
            Doing::Native(values) => {
                call_native(alloc, &machine, natives, answers, &values, steps)
            }
            Doing::Give(value) => match machine.levels.pop() {
                None => return Ok(value),
                Some(level) => {
                    let Level { frame, room } = level;
                    machine.room = room;
                    give(alloc, &mut machine, world, frame, value)
                }
            },
        };
        match came {
            Ok(next) => doing = next,
            Err(stop) => return Err(stop),
        }
    }
}
