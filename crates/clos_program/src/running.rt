//! Running files, one after the other, in one session.
ghost use Rattle.std.specs.Prelude.{◌≡◌, ◌⊎◌, ◌||◌, IfOk, IfErr, MatchResult, map, true, false};
ghost use Rattle.std.specs.List.{list_any};
ghost use Rattle.std.specs.Io.KnownBytes.{Keeps};
ghost use Rattle.clos_ending.specs.clos_system.clos_world.Limits.{standard};
ghost use Rattle.clos_ending.specs.clos_system.clos_session.Session.{standing_of};
ghost use Rattle.clos_ending.specs.Status.{fault_status, status_of};
ghost use Rattle.clos_program.specs.Lines.{lined_of};
ghost use Rattle.clos_program.specs.Files.{RanAll, Runs, Stopped, known_as, known_texts};
ghost use Rattle.clos_program.specs.Program.{Failed, Ran, Tells, is_input, is_input_alone, is_new};

use crate::notices::notices_told;
use crate::output::Output;
use crate::sources::Sources;
use crate::way::{Plainly, Way};
use clos_command_line::Settings;
use clos_ending::{
    Dependents, Fault, Limits, Natives, STATUS_CONDITION, STATUS_DONE, STATUS_FAULT, Session,
    report,
};
use std::alloc::Global;
use std::io::{Read, Write};

/// What standard input is called where a file would be named.
const INPUT_NAME: &str = "-";

/// Whether this name stands for standard input.
pub fn is_input(name: &str) -> bool
    ensures { result ≡ is_input name.now }
{
    name == "-"
}

/// Whether standard input alone is run: no file is named, or it is the only one.
fn is_input_alone(names: &[&str]) -> bool
    ensures { result ≡ is_input_alone (map (λ f. f.now) names.now) }
{
    match names {
        [] => true,
        [name] => is_input(name),
        _ => false,
    }
}

/// Whether standard input is one of the files that are named.
fn has_input(names: &[&str]) -> bool
    ensures { result ≡ list_any (λ f. is_input f.now) names.now }
{
    names.iter().any(|name| is_input(name))
}

/// Whether standard input is run: no file is named, or it is one of them.
pub fn reads_input(settings: &Settings<'_>) -> bool
    ensures { result ≡ (is_input_alone (map (λ f. f.now) settings.now.files.items)
        || list_any (λ f. is_input f.now) settings.now.files.items) }
{
    is_input_alone(settings.files.as_slice()) || has_input(settings.files.as_slice())
}

/// The limits that the settings ask for; the others are those of `Limits`.
pub fn limits(settings: &Settings<'_>) -> Limits
    ensures { result ≡ record standard { steps = settings.now.steps; depth = settings.now.depth } }
{
    Limits {
        steps: settings.steps,
        depth: settings.depth,
        ..Limits::default()
    }
}

/// Runs the file of this name, or the input where the name stands for it.
fn run_named<'a, V: Way, N: Natives, D: Dependents, S: Sources, I: Read, O: Write, E: Write>(
    way: &V,
    rt: &S,
    alloc: Global,
    session: &mut Session<N, D>,
    name: &'a str,
    echo: bool,
    input: &mut I,
    output: &mut O,
    errors: &mut E,
) -> Result<bool, Fault<'a>>
    ensures finishes { IfOk result (Ran (N.host session.old.natives) echo (known_as (S.text rt.now) (I.remaining input.old) name.now)
        (standing_of (D.told session.old.dependents) session.old) (standing_of (D.told session.new.dependents) session.new)
        (O.contents output.old) (O.contents output.new)) }
    ensures fails { IfErr result (λ _. ((standing_of (D.told session.new.dependents) session.new ≡ standing_of (D.told session.old.dependents) session.old)
        × Keeps (O.contents output.old) (O.contents output.new))
        ⊎ Failed (N.host session.old.natives) echo (known_as (S.text rt.now) (I.remaining input.old) name.now)
        (standing_of (D.told session.old.dependents) session.old) (standing_of (D.told session.new.dependents) session.new)
        (O.contents output.old) (O.contents output.new)) }
    ensures host { N.host session.new.natives ≡ N.host session.old.natives }
    ensures input { is_input name.now ≡ false → input.new ≡ input.old }
{
    if is_input(name) {
        return way.run_text(alloc, session, INPUT_NAME, echo, input, output, errors);
    }
    match rt.open_source(name) {
        Ok(mut source) => way.run_text(alloc, session, name, echo, &mut source, output, errors),
        Err(_) => Err(Fault::Read(name)),
    }
}

/// Runs the files in order, each with a flush of the output after it, and says whether a condition or storage line was
/// written.
fn run_files<'a, V: Way, N: Natives, D: Dependents, S: Sources, I: Read, O: Write, E: Write>(
    way: &V,
    rt: &S,
    alloc: Global,
    session: &mut Session<N, D>,
    settings: &Settings<'a>,
    input: &mut I,
    output: &mut O,
    errors: &mut E,
) -> Result<bool, Fault<'a>>
    ensures finishes { IfOk result (RanAll (N.host session.old.natives) settings.now.echo
        (known_texts (S.text rt.now) (I.remaining input.old) (map (λ f. f.now) settings.now.files.items))
        (standing_of (D.told session.old.dependents) session.old) (standing_of (D.told session.new.dependents) session.new)
        (O.contents output.old) (O.contents output.new)) }
    ensures fails { IfErr result (λ _. Stopped (N.host session.old.natives) settings.now.echo
        (known_texts (S.text rt.now) (I.remaining input.old) (map (λ f. f.now) settings.now.files.items))
        (standing_of (D.told session.old.dependents) session.old) (standing_of (D.told session.new.dependents) session.new)
        (O.contents output.old) (O.contents output.new)) }
{
    let echo = settings.echo;
    let mut any = false;
    for name in settings.files.iter() {
        match run_named(way, rt, alloc, session, *name, echo, input, output, errors) {
            Ok(told) => any |= told,
            Err(fault) => return Err(fault),
        }
        if output.flush().is_err() {
            return Err(Fault::Write);
        }
    }
    Ok(any)
}

/// Runs standard input, where it alone is to be run, and else the files.
fn run_all<'a, V: Way, N: Natives, D: Dependents, S: Sources, I: Read, O: Write, E: Write>(
    way: &V,
    rt: &S,
    alloc: Global,
    session: &mut Session<N, D>,
    settings: &Settings<'a>,
    input: &mut I,
    output: &mut O,
    errors: &mut E,
) -> Result<bool, Fault<'a>>
    ensures finishes { is_input_alone (map (λ f. f.now) settings.now.files.items) ≡ true
        → IfOk result (Ran (N.host session.old.natives) settings.now.echo (I.remaining input.old)
        (standing_of (D.told session.old.dependents) session.old) (standing_of (D.told session.new.dependents) session.new)
        (O.contents output.old) (O.contents output.new)) }
    ensures fails { is_input_alone (map (λ f. f.now) settings.now.files.items) ≡ true
        → IfErr result (λ _. Failed (N.host session.old.natives) settings.now.echo (I.remaining input.old)
        (standing_of (D.told session.old.dependents) session.old) (standing_of (D.told session.new.dependents) session.new)
        (O.contents output.old) (O.contents output.new)) }
    ensures files { is_input_alone (map (λ f. f.now) settings.now.files.items) ≡ false
        → IfOk result (RanAll (N.host session.old.natives) settings.now.echo
        (known_texts (S.text rt.now) (I.remaining input.old) (map (λ f. f.now) settings.now.files.items))
        (standing_of (D.told session.old.dependents) session.old) (standing_of (D.told session.new.dependents) session.new)
        (O.contents output.old) (O.contents output.new)) }
    ensures stops { is_input_alone (map (λ f. f.now) settings.now.files.items) ≡ false
        → IfErr result (λ _. Stopped (N.host session.old.natives) settings.now.echo
        (known_texts (S.text rt.now) (I.remaining input.old) (map (λ f. f.now) settings.now.files.items))
        (standing_of (D.told session.old.dependents) session.old) (standing_of (D.told session.new.dependents) session.new)
        (O.contents output.old) (O.contents output.new)) }
{
    if is_input_alone(settings.files.as_slice()) {
        let echo = settings.echo;
        return way.run_text(alloc, session, INPUT_NAME, echo, input, output, errors);
    }
    run_files(way, rt, alloc, session, settings, input, output, errors)
}

/// Flushes the output, tells a fault in one line on `errors`, and gives the exit status.
fn finish<O: Write, E: Write>(ran: Result<bool, Fault<'_>>, output: &mut O, errors: &mut E) -> u8
    ensures keeps { Keeps (O.contents output.old) (O.contents output.new) }
    ensures status { MatchResult ran.entry (λ told. (result ≡ status_of told) ⊎ (result ≡ fault_status)) (λ _. result ≡ fault_status) }
{
    let flushed = output.flush();
    match ran {
        Err(fault) => {
            report(errors, fault);
            STATUS_FAULT
        }
        Ok(told) => {
            if flushed.is_err() {
                report(errors, Fault::Write);
                return STATUS_FAULT;
            }
            if told { STATUS_CONDITION } else { STATUS_DONE }
        }
    }
}

/// What a run told, once what AUDIT and SECOND heard is written after it, where it is asked for and the run ended without a
/// fault.
fn tell_notices<'a, N: Natives, D: Dependents, W: Write>(
    alloc: Global,
    session: &Session<N, D>,
    notices: bool,
    ran: Result<bool, Fault<'a>>,
    output: &mut Output<W>,
) -> Result<bool, Fault<'a>>
    ensures told { IfOk ran.entry (λ told. MatchResult result (λ r. (r ≡ told)
        × Tells notices (standing_of (D.told session.now.dependents) session.now) output.old.fresh
        (lined_of W.contents output.old) (lined_of W.contents output.new)) (λ _. notices ≡ true)) }
    ensures passed { IfErr ran.entry (λ _. MatchResult result (λ _. ⊥) (λ _. output.new ≡ output.old)) }
{
    let told = ran?;
    if !notices {
        return Ok(told);
    }
    let Ok(text) = notices_told(alloc, session, output.is_fresh()) else {
        return Err(Fault::Memory);
    };
    if output.write_all(text.as_slice()).is_err() {
        return Err(Fault::Write);
    }
    Ok(told)
}

/// Runs the files of the settings in order in the session, each in this way, or the input where there are none; the name `-` stands
/// for the input. Where the settings ask for notices, those that AUDIT and SECOND heard follow. The output is flushed after each
/// file, and before a fault is told, in one line on `errors`, which ends the program. The answer is the exit status.
pub fn program_in<V: Way, N: Natives, D: Dependents, S: Sources, I: Read, W: Write, E: Write>(
    way: &V,
    rt: &S,
    alloc: Global,
    session: &mut Session<N, D>,
    settings: &Settings<'_>,
    input: &mut I,
    output: &mut Output<W>,
    errors: &mut E,
) -> u8
    ensures status { (result ≡ STATUS_DONE) ⊎ (result ≡ STATUS_CONDITION) ⊎ (result ≡ STATUS_FAULT) }
    ensures runs { is_new output.old → Runs (N.host session.old.natives) settings.now.echo settings.now.notices (S.text rt.now)
        (I.remaining input.old) (map (λ f. f.now) settings.now.files.items)
        (standing_of (D.told session.old.dependents) session.old) (standing_of (D.told session.new.dependents) session.new)
        (W.contents output.old.writer) (W.contents output.new.writer) result }
{
    let ran = run_all(way, rt, alloc, session, settings, input, output, errors);
    let told = tell_notices(alloc, session, settings.notices, ran, output);
    finish(told, output, errors)
}

/// Runs the files of the settings, as `program_in` does, as they are.
pub fn program<N: Natives, D: Dependents, S: Sources, I: Read, W: Write, E: Write>(
    rt: &S,
    alloc: Global,
    session: &mut Session<N, D>,
    settings: &Settings<'_>,
    input: &mut I,
    output: &mut Output<W>,
    errors: &mut E,
) -> u8
    ensures status { (result ≡ STATUS_DONE) ⊎ (result ≡ STATUS_CONDITION) ⊎ (result ≡ STATUS_FAULT) }
    ensures runs { is_new output.old → Runs (N.host session.old.natives) settings.now.echo settings.now.notices (S.text rt.now)
        (I.remaining input.old) (map (λ f. f.now) settings.now.files.items)
        (standing_of (D.told session.old.dependents) session.old) (standing_of (D.told session.new.dependents) session.new)
        (W.contents output.old.writer) (W.contents output.new.writer) result }
{
    program_in(
        &Plainly, rt, alloc, session, settings, input, output, errors,
    )
}
