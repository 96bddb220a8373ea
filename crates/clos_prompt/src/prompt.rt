//! A session at a prompt: lines come, and each is answered.
ghost use Rattle.std.specs.Prelude.{◌≡◌, ◌≤◌, ℕ, List, IfOk, IfErr, OnOk, false, true, length, take};
ghost use Rattle.std.specs.Io.KnownBytes.{Appends};
ghost use Rattle.lisp_data.specs.DatumView.{datum_of};
ghost use Rattle.lisp_tokens.specs.Fault.{OnFault};
ghost use Rattle.clos_commentary.specs.clos_system.clos_session.Session.{standing_of};
ghost use Rattle.clos_commentary.specs.Fault.{fault_text};
ghost use Rattle.clos_commentary.specs.Forms.{Leaves};
ghost use Rattle.clos_commentary.specs.Place.{place_after};
ghost use Rattle.clos_prompt.specs.Prompt.{Begun, Breaks, Ends, GoesOn, RunsPrompt};
ghost use Rattle.clos_prompt.specs.Waiting.{exit_status, farewell, prompt_of, takes_command};
ghost use Rattle.clos_prompt.specs.WaitingView.{waiting_of};
ghost use Rattle.clos_prompt.specs.inner.Loop.{AnswerWritten, TakesLine};

use crate::call::answer_call;
use crate::command::{Request, request_of};
use crate::waiting::Prompt;
use crate::writing::write;
use clos_commentary::{
    Dependents, Fault, Left, Natives, STATUS_FAULT, Session, Source, Summary, fault_line,
    perform_forms, report,
};
use lisp_tokens::ReadFault;
use std::alloc::Global;
use std::io::{BufRead, ErrorKind, Write};

/// What the input is called where a file would be named.
const INPUT_NAME: &str = "-";

/// Asks for a line.
fn ask<W: Write>(output: &mut W, prompt: &Prompt) -> Result<(), Fault<'static>>
    ensures { OnOk result (Appends (W.contents output.old) (W.contents output.new) (prompt_of (waiting_of prompt.now))) }
{
    if output.write_all(prompt.text()).is_err() || output.flush().is_err() {
        return Err(Fault::Write);
    }
    Ok(())
}

/// The next line with its newline, or no byte at the end of the input.
fn next_line<I: BufRead>(alloc: Global, input: &mut I) -> Result<Vec<u8>, Fault<'static>>
    ensures { IfOk result (λ line. TakesLine (I.remaining input.old) (I.remaining input.new) line.items) }
{
    let mut line = Vec::new(alloc);
    match input.read_until(b'\n', &mut line) {
        Ok(_) => Ok(line),
        Err(error) => {
            if error.kind() == ErrorKind::OutOfMemory {
                return Err(Fault::Memory);
            }
            Err(Fault::Read(INPUT_NAME))
        }
    }
}

/// Tells what can't be read, at this byte of the text.
fn tell_unread<W: Write>(
    alloc: Global,
    prompt: &Prompt,
    text: &[u8],
    fault: &ReadFault,
    at: usize,
    output: &mut W,
) -> Result<(), Fault<'static>>
    requires { at ≤ length text.now }
    ensures { OnOk result (OnFault fault.now (λ kind _. Appends (W.contents output.old) (W.contents output.new)
        (fault_text kind (place_after (waiting_of prompt.now).place (take at text.now))))) }
{
    let Ok(line) = fault_line(alloc, fault, prompt.place.after(&text[..at])) else {
        return Err(Fault::Memory);
    };
    write(output, line.as_slice())
}

/// How the prompt waits after a text of which so much was performed and so much is left.
fn go_on<W: Write>(
    alloc: Global,
    prompt: &Prompt,
    text: &[u8],
    summary: Summary,
    left: Left,
    output: &mut W,
) -> Result<Prompt, Fault<'static>>
    requires { (at : ℕ) × Leaves text.now at left }
    ensures { IfOk result (λ r. (piece : List ℕ) × Appends (W.contents output.old) (W.contents output.new) piece
        × ((at : ℕ) → Leaves text.now at left → GoesOn (waiting_of prompt.now) text.now summary at (waiting_of r) piece)) }
{
    match left {
        Left::Nothing => Ok(prompt.cleared(alloc, text, summary)),
        Left::Open(begin) => match prompt.left_open(alloc, text, summary, begin) {
            Ok(next) => Ok(next),
            Err(_) => Err(Fault::Memory),
        },
        Left::Unread(fault, at) => match tell_unread(alloc, prompt, text, &fault, at, output) {
            Ok(()) => Ok(prompt.given_up(alloc, text, summary)),
            Err(fault) => Err(fault),
        },
    }
}

/// Answers a line that is no command.
fn answer_forms<N: Natives, D: Dependents, W: Write, E: Write>(
    alloc: Global,
    session: &mut Session<N, D>,
    prompt: &Prompt,
    line: &[u8],
    output: &mut W,
    errors: &mut E,
) -> Result<Prompt, Fault<'static>>
    requires { takes_command (waiting_of prompt.now) line.now ≡ false }
    ensures answers { IfOk result (λ r. AnswerWritten (N.host session.old.natives)
        (standing_of (D.told session.old.dependents) session.old) (standing_of (D.told session.new.dependents) session.new)
        (waiting_of prompt.now) line.now (W.contents output.old) (W.contents output.new) (waiting_of r)) }
    ensures stops { IfErr result (λ _. Begun (N.host session.old.natives) (standing_of (D.told session.old.dependents) session.old)
        (waiting_of prompt.now) line.now (standing_of (D.told session.new.dependents) session.new)) }
    ensures host { N.host session.new.natives ≡ N.host session.old.natives }
{
    let Ok(whole) = prompt.text_with(alloc, line) else {
        return Err(Fault::Memory);
    };
    let text = whole.as_slice();
    let source = Source {
        file: None,
        place: prompt.place,
        text,
    };
    match perform_forms(alloc, session, text, source, true, output, errors) {
        Ok(performed) => go_on(alloc, prompt, text, performed.0, performed.1, output),
        Err(fault) => Err(fault),
    }
}

/// Answers a command.
fn answer_command<N: Natives, D: Dependents, W: Write, E: Write>(
    alloc: Global,
    session: &mut Session<N, D>,
    prompt: &Prompt,
    line: &[u8],
    output: &mut W,
    errors: &mut E,
) -> Result<Prompt, Fault<'static>>
    requires { takes_command (waiting_of prompt.now) line.now ≡ true }
    ensures answers { IfOk result (λ r. AnswerWritten (N.host session.old.natives)
        (standing_of (D.told session.old.dependents) session.old) (standing_of (D.told session.new.dependents) session.new)
        (waiting_of prompt.now) line.now (W.contents output.old) (W.contents output.new) (waiting_of r)) }
    ensures stops { IfErr result (λ _. Begun (N.host session.old.natives) (standing_of (D.told session.old.dependents) session.old)
        (waiting_of prompt.now) line.now (standing_of (D.told session.new.dependents) session.new)) }
    ensures host { N.host session.new.natives ≡ N.host session.old.natives }
{
    match request_of(alloc, session.world(), line) {
        Ok(Request::Page(page)) => match write(output, page.as_slice()) {
            Ok(()) => Ok(prompt.passed(alloc, line)),
            Err(fault) => Err(fault),
        },
        Ok(Request::Methods(id, form)) => {
            answer_call(alloc, session, prompt, line, id, form, output, errors)
        }
        Err(_) => Err(Fault::Memory),
    }
}

/// Answers a line.
fn answer_line<N: Natives, D: Dependents, W: Write, E: Write>(
    alloc: Global,
    session: &mut Session<N, D>,
    prompt: &Prompt,
    line: &[u8],
    output: &mut W,
    errors: &mut E,
) -> Result<Prompt, Fault<'static>>
    ensures answers { IfOk result (λ r. AnswerWritten (N.host session.old.natives)
        (standing_of (D.told session.old.dependents) session.old) (standing_of (D.told session.new.dependents) session.new)
        (waiting_of prompt.now) line.now (W.contents output.old) (W.contents output.new) (waiting_of r)) }
    ensures stops { IfErr result (λ _. Begun (N.host session.old.natives) (standing_of (D.told session.old.dependents) session.old)
        (waiting_of prompt.now) line.now (standing_of (D.told session.new.dependents) session.new)) }
    ensures host { N.host session.new.natives ≡ N.host session.old.natives }
{
    if prompt.takes_command(line) {
        return answer_command(alloc, session, prompt, line, output, errors);
    }
    answer_forms(alloc, session, prompt, line, output, errors)
}

/// Leaves at the end of the input, with the exit status.
fn leave<W: Write>(alloc: Global, output: &mut W, prompt: &Prompt) -> Result<u8, Fault<'static>>
    ensures { IfOk result (λ r. (r ≡ exit_status (waiting_of prompt.now))
        × Appends (W.contents output.old) (W.contents output.new) (farewell (waiting_of prompt.now))) }
{
    let Ok(text) = prompt.farewell(alloc) else {
        return Err(Fault::Memory);
    };
    if output.write_all(text.as_slice()).is_err() || output.flush().is_err() {
        return Err(Fault::Write);
    }
    Ok(prompt.status())
}

/// Answers the lines of the input, up to its end.
fn answer_lines<N: Natives, D: Dependents, I: BufRead, W: Write, E: Write>(
    alloc: Global,
    session: &mut Session<N, D>,
    input: &mut I,
    output: &mut W,
    errors: &mut E,
) -> Result<u8, Fault<'static>>
    ensures ends { IfOk result (Ends (N.host session.old.natives) (I.remaining input.old)
        (standing_of (D.told session.old.dependents) session.old) (standing_of (D.told session.new.dependents) session.new)
        (W.contents output.old) (W.contents output.new)) }
    ensures breaks { IfErr result (λ _. Breaks (N.host session.old.natives) (I.remaining input.old)
        (standing_of (D.told session.old.dependents) session.old) (standing_of (D.told session.new.dependents) session.new)) }
{
    let mut prompt = Prompt::new(alloc);
    for _ in 0..u64::MAX {
        let Ok(()) = ask(output, &prompt) else {
            return Err(Fault::Write);
        };
        let line = match next_line(alloc, input) {
            Ok(line) => line,
            Err(fault) => return Err(fault),
        };
        if line.is_empty() {
            return leave(alloc, output, &prompt);
        }
        match answer_line(alloc, session, &prompt, line.as_slice(), output, errors) {
            Ok(next) => prompt = next,
            Err(fault) => return Err(fault),
        }
    }
    Err(Fault::Read(INPUT_NAME))
}

/// Runs a session at a prompt: asks for a line, answers it, and so on up to the end of the input. The output is flushed after each
/// prompt, and before a fault is told, in one line on `errors`, which ends the session. Conditions are explained on `errors` too.
/// The answer is the exit status.
pub fn run_prompt<N: Natives, D: Dependents, I: BufRead, W: Write, E: Write>(
    alloc: Global,
    session: &mut Session<N, D>,
    input: &mut I,
    output: &mut W,
    errors: &mut E,
) -> u8
    ensures { RunsPrompt (N.host session.old.natives) (I.remaining input.old)
        (standing_of (D.told session.old.dependents) session.old) (standing_of (D.told session.new.dependents) session.new)
        (W.contents output.old) (W.contents output.new) result }
{
    match answer_lines(alloc, session, input, output, errors) {
        Ok(status) => status,
        Err(fault) => {
            let _ = output.flush();
            report(errors, fault);
            STATUS_FAULT
        }
    }
}
