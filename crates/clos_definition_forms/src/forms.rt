//! Forms that a definition evaluates, one after another, before it takes effect: initforms of shared slots (HyperSpec 7.1.3), and the
//! forms of eql specializers (HyperSpec 7.7 `defmethod`).
ghost use Rattle.std.specs.Prelude.{◌≡◌, [], IfOk, IfErr};
ghost use Rattle.clos_eval.specs.Evaluation.{GoesOn};
ghost use Rattle.clos_definition_forms.specs.Forms.{EndsBefore, form_evaluated, forms_evaluated};

use clos_eval::{Natives, Stop, World, evaluate};
use clos_forms::Form;
use clos_making::Slot;
use std::alloc::Global;

/// Evaluates these forms, one after another. Where there is none, there is no value.
#[tactic(auto, using(crate::proofs::Evaluated::begins, crate::proofs::Evaluated::one_more, crate::proofs::Evaluated::one_stops, crate::proofs::Evaluated::between))]
pub fn evaluate_forms<N: Natives>(
    alloc: Global,
    world: &mut World,
    natives: &N,
    answers: &mut Vec<i64>,
    forms: &[Option<Form>],
    steps: &mut u64,
) -> Result<Vec<Slot>, Stop>
    ensures values { IfOk result (λ r. GoesOn (N.host natives.now) (forms_evaluated forms.now [])
        world.old steps.old answers.old.items r.items world.new steps.new answers.new.items) }
    ensures stop { IfErr result (λ e. EndsBefore (N.host natives.now) (forms_evaluated forms.now [])
        world.old steps.old answers.old.items e world.new steps.new answers.new.items) }
{
    let mut values = Vec::new(alloc);
    let mut left = forms;
    while let Some((form, others)) = left.split_first() {
        let value = evaluate_form(alloc, world, natives, answers, form, steps)?;
        values.push(value)?;
        left = others;
    }
    Ok(values)
}

/// Evaluates a form, where there is one.
#[tactic(auto, using(crate::proofs::Evaluated::no_form, crate::proofs::Evaluated::not_begun, crate::proofs::Evaluated::form_stops, crate::proofs::Evaluated::form_gives))]
fn evaluate_form<N: Natives>(
    alloc: Global,
    world: &mut World,
    natives: &N,
    answers: &mut Vec<i64>,
    form: &Option<Form>,
    steps: &mut u64,
) -> Result<Slot, Stop>
    ensures value { IfOk result (λ r. GoesOn (N.host natives.now) (form_evaluated form.now)
        world.old steps.old answers.old.items r world.new steps.new answers.new.items) }
    ensures stop { IfErr result (λ e. EndsBefore (N.host natives.now) (form_evaluated form.now)
        world.old steps.old answers.old.items e world.new steps.new answers.new.items) }
{
    let Some(form) = form else {
        return Ok(Slot::new(None));
    };
    let Ok(form) = form.copy() else {
        return Err(Stop::Storage);
    };
    let room = world.limits.depth.min(4_000).saturating_sub(1);
    let value = evaluate(alloc, world, natives, answers, form, room, steps)?;
    Ok(Slot::new(Some(value)))
}
