//! What is shown of a call whose arguments are evaluated.
ghost use Rattle.std.specs.Prelude.{◌≡◌, ℕ, List, IfOk, IfErr, OnOk, true};
ghost use Rattle.std.specs.Io.KnownBytes.{Appends};
ghost use Rattle.lisp_data.specs.DatumView.{datum_of};
ghost use Rattle.clos_commentary.specs.clos_system.clos_session.Session.{standing_of};
ghost use Rattle.clos_prompt.specs.Command.{Asks};
ghost use Rattle.clos_prompt.specs.Prompt.{Begun};
ghost use Rattle.clos_prompt.specs.Waiting.{takes_command};
ghost use Rattle.clos_prompt.specs.WaitingView.{waiting_of};
ghost use Rattle.clos_prompt.specs.inner.Loop.{AnswerWritten};

use crate::waiting::Prompt;
use crate::writing::write;
use clos_commentary::{
    Dependents, Fault, Natives, Performed, Session, Source, Summary, World, explain, fault_of,
    fitting_page, run_form,
};
use lisp_data::{Datum, GenericId, Value};
use std::alloc::{AllocError, Global};
use std::io::Write;

/// What is shown of the methods that fit the elements of a list, on a line of its own.
fn page(
    alloc: Global,
    world: &World,
    id: GenericId,
    list: &Value,
    fresh: bool,
) -> Result<Vec<u8>, AllocError> {
    let mut text = Vec::new(alloc);
    if !fresh {
        text.push(b'\n')?;
    }
    let shown = fitting_page(alloc, world, id, list)?;
    text.extend_from_slice(shown.as_slice())?;
    Ok(text)
}

/// Shows the methods that fit the arguments that a form gave, or explains why it gave none.
fn show<W: Write, E: Write>(
    alloc: Global,
    world: &World,
    id: GenericId,
    performed: &Performed,
    source: Source<'_>,
    output: &mut W,
    errors: &mut E,
) -> Result<(), Fault<'static>>
    ensures { OnOk result ((page : List ℕ) × Appends (W.contents output.old) (W.contents output.new) page) }
{
    match &performed.answer {
        Ok(list) => match page(alloc, world, id, list, performed.fresh) {
            Ok(page) => write(output, page.as_slice()),
            Err(_) => Err(Fault::Memory),
        },
        Err(_) => explain(
            alloc,
            world,
            &performed.form,
            &performed.answer,
            source,
            output,
            errors,
        ),
    }
}

/// Answers a line that asks for the methods that fit the value of this form.
pub(crate) fn answer_call<N: Natives, D: Dependents, W: Write, E: Write>(
    alloc: Global,
    session: &mut Session<N, D>,
    prompt: &Prompt,
    line: &[u8],
    id: GenericId,
    form: Datum,
    output: &mut W,
    errors: &mut E,
) -> Result<Prompt, Fault<'static>>
    requires command { takes_command (waiting_of prompt.now) line.now ≡ true }
    requires asks { Asks (standing_of (D.told session.old.dependents) session.old).state line.now (datum_of form) }
    ensures answers { IfOk result (λ r. AnswerWritten (N.host session.old.natives)
        (standing_of (D.told session.old.dependents) session.old) (standing_of (D.told session.new.dependents) session.new)
        (waiting_of prompt.now) line.now (W.contents output.old) (W.contents output.new) (waiting_of r)) }
    ensures stops { IfErr result (λ _. Begun (N.host session.old.natives) (standing_of (D.told session.old.dependents) session.old)
        (waiting_of prompt.now) line.now (standing_of (D.told session.new.dependents) session.new)) }
    ensures host { N.host session.new.natives ≡ N.host session.old.natives }
{
    let none_yet = Summary {
        forms: 0,
        conditions: 0,
        storages: 0,
    };
    let performed = match run_form(alloc, session, form, output, false, true, none_yet) {
        Ok(performed) => performed,
        Err(fault) => return Err(fault_of(&fault)),
    };
    let source = Source {
        file: None,
        place: prompt.place,
        text: &[],
    };
    match show(
        alloc,
        session.world(),
        id,
        &performed,
        source,
        output,
        errors,
    ) {
        Ok(()) => Ok(prompt.cleared(alloc, line, performed.summary)),
        Err(fault) => Err(fault),
    }
}
