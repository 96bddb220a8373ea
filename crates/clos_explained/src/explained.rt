//! Runs of files whose conditions are explained.
ghost use Rattle.std.specs.Prelude.{◌≡◌, ◌⊎◌, ℕ, List, IfOk, IfErr, map};
ghost use Rattle.std.specs.Io.KnownBytes.{Keeps};
ghost use Rattle.clos_program.specs.Files.{Runs};
ghost use Rattle.clos_program.specs.Program.{is_new};
ghost use Rattle.clos_commentary.specs.clos_ending.Status.{is_told};
ghost use Rattle.clos_program.specs.clos_system.Transcript.{Finishes, Ran};
ghost use Rattle.clos_program.specs.clos_system.clos_session.Session.{standing_of};
ghost use Rattle.clos_program.specs.clos_system.declared.transcript.Summary.{Summary};

use clos_commentary::{Left, Place, Source, is_told, perform_forms, push_place, tell, words};
use clos_program::{
    Dependents, Fault, Natives, Output, STATUS_CONDITION, STATUS_DONE, STATUS_FAULT, Session,
    Settings, Sources, Way, program_in, read_source,
};
use lisp_tokens::ReadFault;
use std::alloc::{AllocError, Global};
use std::io::{Read, Write};

/// What is told of a fault of reading: what it is, and where the datum begins that it stands in.
fn fault_text(
    alloc: Global,
    fault: &ReadFault,
    place: Place,
    begin: Place,
) -> Result<Vec<u8>, AllocError> {
    let mut text = Vec::from_slice(alloc, words(fault).as_bytes())?;
    if place != begin {
        text.extend_from_slice(b", in what begins at ")?;
        push_place(&mut text, begin)?;
    }
    text.push(b'\n')?;
    Ok(text)
}

/// Explains what can't be read, at this byte of the text.
fn explain_fault<W: Write, E: Write>(
    alloc: Global,
    name: &str,
    text: &[u8],
    fault: &ReadFault,
    at: usize,
    begin: Place,
    output: &mut W,
    errors: &mut E,
) -> Result<(), Fault<'static>> {
    let place = Place::first().after(text.get(..at).unwrap_or(&[]));
    let Ok(told) = fault_text(alloc, fault, place, begin) else {
        return Err(Fault::Memory);
    };
    let source = Source {
        file: Some(name),
        place,
        text: &[],
    };
    tell(alloc, source, told.as_slice(), output, errors)
}

/// Runs a text, and says whether a condition or storage line was written.
fn explain_text<'a, N: Natives, D: Dependents, W: Write, E: Write>(
    alloc: Global,
    session: &mut Session<N, D>,
    name: &'a str,
    text: &[u8],
    echo: bool,
    output: &mut W,
    errors: &mut E,
) -> Result<bool, Fault<'a>>
    ensures finishes { IfOk result (λ told. (n : Summary) × (told ≡ is_told n) × Finishes (N.host session.old.natives) echo text.now
        (standing_of (D.told session.old.dependents) session.old) (standing_of (D.told session.new.dependents) session.new)
        (W.contents output.old) (W.contents output.new) n) }
    ensures fails { IfErr result (λ _. (at : ℕ) × (out : List ℕ) × (n : Summary) × Ran (N.host session.old.natives) echo text.now
        (standing_of (D.told session.old.dependents) session.old) (standing_of (D.told session.new.dependents) session.new) at out n) }
    ensures host { N.host session.new.natives ≡ N.host session.old.natives }
{
    let source = Source {
        file: Some(name),
        place: Place::first(),
        text,
    };
    let (summary, left, begin) = match perform_forms(
        alloc, session, text, source, echo, output, errors,
    ) {
        Ok(performed) => performed,
        Err(fault) => return Err(fault),
    };
    let (fault, at) = match left {
        Left::Nothing => return Ok(is_told(summary)),
        Left::Open(at) => (ReadFault::EndInside(at), at),
        Left::Unread(fault, at) => (fault, at),
    };
    match explain_fault(alloc, name, text, &fault, at, begin, output, errors) {
        Ok(()) => Err(Fault::Reader(name, fault)),
        Err(fault) => Err(fault),
    }
}

/// With explanations of conditions and of faults of reading.
struct Explained;

impl Way for Explained {
    fn run_text<'a, N: Natives, D: Dependents, I: Read, O: Write, E: Write>(
        &self,
        alloc: Global,
        session: &mut Session<N, D>,
        name: &'a str,
        echo: bool,
        input: &mut I,
        output: &mut O,
        errors: &mut E,
    ) -> Result<bool, Fault<'a>> {
        match read_source(alloc, input) {
            Ok(text) => explain_text(alloc, session, name, text.as_slice(), echo, output, errors),
            Err(fault) => Err(Fault::of_run(name, &fault)),
        }
    }
}

/// Runs the files of the settings as `program` does, and explains on `errors` each condition and each fault of reading,
/// with its file, line and column. The answer is the exit status.
pub fn run_explained<N: Natives, D: Dependents, S: Sources, I: Read, W: Write, E: Write>(
    rt: &S,
    alloc: Global,
    session: &mut Session<N, D>,
    settings: &Settings<'_>,
    input: &mut I,
    output: &mut Output<W>,
    errors: &mut E,
) -> u8
    ensures status { (result ≡ STATUS_DONE) ⊎ (result ≡ STATUS_CONDITION) ⊎ (result ≡ STATUS_FAULT) }
    ensures runs { is_new output.old → Runs (N.host session.old.natives) settings.now.echo settings.now.notices (S.text rt.now)
        (I.remaining input.old) (map (λ f. f.now) settings.now.files.items)
        (standing_of (D.told session.old.dependents) session.old) (standing_of (D.told session.new.dependents) session.new)
        (W.contents output.old.writer) (W.contents output.new.writer) result }
{
    program_in(
        &Explained, rt, alloc, session, settings, input, output, errors,
    )
}
