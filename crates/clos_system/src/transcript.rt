//! Runs: the forms of a whole text one after another, and the transcript of them.
ghost use Rattle.std.specs.Prelude.{◌≡◌, ◌+◌, ◌<◌, ◌≤◌, ◌^◌, IfOk, IfErr, IfSome, length, drop, true};
ghost use Rattle.lisp_data.specs.DatumView.{datum_of};
ghost use Rattle.clos_session.specs.Session.{standing_of};
ghost use Rattle.clos_system.specs.Transcript.{counted_for, Finishes, Faults, Performs, Answered, FailsAfter, OverText, RunFaults, SourceFails};

use clos_session::{Dependents, Natives, Session, Stop};
use clos_transcript::{ends_line, tell};
use lisp_data::{Datum, Value};
use lisp_reader::{ReadFault, read_form};
use std::alloc::Global;
use std::io::{ErrorKind, Read, Write};
use thiserror::Error;

/// How long a source may be, in bytes.
pub const MAX_SOURCE: usize = 16_777_216;
/// In how many reads a source has to come.
const MAX_READS: u64 = 33_554_432;

/// How the forms of a run ended.
#[derive(Clone, Copy, Debug, PartialEq, Eq)]
pub struct Summary {
    pub forms: u64,
    pub conditions: u64,
    pub storages: u64,
}

/// What comes of a form of a run.
pub struct Performed {
    /// How the forms ended so far, with this one.
    pub summary: Summary,
    /// Whether a line has ended.
    pub fresh: bool,
    /// The form.
    pub form: Datum,
    /// Its value, or why it stopped.
    pub answer: Result<Value, Stop>,
}

// By hand: what drops it does not ask what the form was, nor how it ended.
impl Drop for Performed {
    fn drop(self) {
        let Performed {
            summary: _,
            fresh: _,
            form: _,
            answer: _,
        } = self;
    }
}

/// Why a run ended before its text did.
#[derive(Debug, Drop, Error)]
pub enum RunFault {
    /// The source could not be read. No form ran.
    #[error("the source could not be read")]
    Read,
    /// The source is longer than a source may be. No form ran.
    #[error("the source is too long")]
    TooLong,
    /// The forms before it ran.
    #[error("{0}")]
    Reader(ReadFault),
    /// The transcript could not be written. The session stands after the last form that was performed.
    #[error("the transcript could not be written")]
    Write,
    /// Memory was refused. The session stands after the last form that was performed, of which nothing may be written.
    #[error("out of memory")]
    Memory,
}

/// Reads a source, performs its forms in the session, and writes their transcript: what they write, after each form
/// that ended with a condition a line that tells it, and with `echo` the value of each other form.
pub fn run<N: Natives, D: Dependents, R: Read, W: Write>(
    alloc: Global,
    session: &mut Session<N, D>,
    reader: &mut R,
    writer: &mut W,
    echo: bool,
) -> Result<Summary, RunFault>
    ensures finishes { IfOk result (λ n. OverText (R.remaining reader.old) (λ text.
        Finishes (N.host session.old.natives) echo text (standing_of (D.told session.old.dependents) session.old) (standing_of (D.told session.new.dependents) session.new) (W.contents writer.old) (W.contents writer.new) n)) }
    ensures faults { IfErr result (RunFaults (N.host session.old.natives) echo (R.remaining reader.old)
        (standing_of (D.told session.old.dependents) session.old) (standing_of (D.told session.new.dependents) session.new)
        (W.contents writer.old) (W.contents writer.new)) }
    ensures host { N.host session.new.natives ≡ N.host session.old.natives }
{
    match read_source(alloc, reader) {
        Ok(source) => run_text(alloc, session, source.as_slice(), writer, echo),
        Err(fault) => Err(fault),
    }
}

/// The bytes of a source, of which there are not too many.
pub fn read_source<R: Read>(alloc: Global, reader: &mut R) -> Result<Vec<u8>, RunFault>
    ensures whole { IfOk result (λ s. (length s.items ≤ 16_777_216) × IfSome (R.remaining reader.old) (λ text. s.items ≡ text)) }
    ensures fails { IfErr result (SourceFails (R.remaining reader.old)) }
{
    let mut source = Vec::new(alloc);
    let mut buffer = [0u8; 8192];
    for _ in 0..MAX_READS {
        match reader.read(&mut buffer) {
            Ok(count) => {
                if count == 0 {
                    return Ok(source);
                }
                if source.extend_from_slice(&buffer[..count]).is_err() {
                    return Err(RunFault::Memory);
                }
                if source.len() > MAX_SOURCE {
                    return Err(RunFault::TooLong);
                }
            }
            Err(error) => {
                if error.kind() != ErrorKind::Interrupted {
                    return Err(RunFault::Read);
                }
            }
        }
    }
    Err(RunFault::Read)
}

/// Performs the forms of a text and writes their transcript.
fn run_text<N: Natives, D: Dependents, W: Write>(
    alloc: Global,
    session: &mut Session<N, D>,
    text: &[u8],
    writer: &mut W,
    echo: bool,
) -> Result<Summary, RunFault>
    ensures finishes { IfOk result (Finishes (N.host session.old.natives) echo text.now
        (standing_of (D.told session.old.dependents) session.old) (standing_of (D.told session.new.dependents) session.new) (W.contents writer.old) (W.contents writer.new)) }
    ensures faults { IfErr result (Faults (N.host session.old.natives) echo text.now
        (standing_of (D.told session.old.dependents) session.old) (standing_of (D.told session.new.dependents) session.new) (W.contents writer.old) (W.contents writer.new)) }
    ensures host { N.host session.new.natives ≡ N.host session.old.natives }
{
    let mut summary = Summary {
        forms: 0,
        conditions: 0,
        storages: 0,
    };
    let mut at = 0;
    let mut fresh = true;
    loop {
        match read_form(alloc, text, at) {
            Ok(None) => return Ok(summary),
            Ok(Some(found)) => {
                let (datum, next) = found;
                match run_form(alloc, session, datum, writer, echo, fresh, summary) {
                    Ok(performed) => {
                        summary = performed.summary;
                        fresh = performed.fresh;
                        at = next;
                    }
                    Err(fault) => return Err(fault),
                }
            }
            Err(ReadFault::Memory) => return Err(RunFault::Memory),
            Err(fault) => return Err(RunFault::Reader(fault)),
        }
    }
}

/// The step of a run: performs a form, which follows so many others, and writes what is told of it, where `fresh` says whether
/// a line has ended.
pub fn run_form<N: Natives, D: Dependents, W: Write>(
    alloc: Global,
    session: &mut Session<N, D>,
    datum: Datum,
    writer: &mut W,
    echo: bool,
    fresh: bool,
    summary: Summary,
) -> Result<Performed, RunFault>
    requires forms { summary.forms + 1 < 2 ^ 64 }
    requires conditions { summary.conditions ≤ summary.forms }
    requires storages { summary.storages ≤ summary.forms }
    ensures performs { IfOk result (λ r. Performs (N.host session.old.natives) echo (datum_of datum)
        (standing_of (D.told session.old.dependents) session.old) (standing_of (D.told session.new.dependents) session.new)
        (W.contents writer.old) (W.contents writer.new) summary r.summary fresh r.fresh) }
    ensures answers { IfOk result (λ r. (datum_of r.form ≡ datum_of datum) × Answered (N.host session.old.natives) (datum_of datum)
        (standing_of (D.told session.old.dependents) session.old) (standing_of (D.told session.new.dependents) session.new) r.answer
        × (r.summary ≡ counted_for r.answer summary)) }
    ensures few { IfOk result (λ r. (r.summary.conditions ≤ r.summary.forms) × (r.summary.storages ≤ r.summary.forms) × (r.summary.forms ≡ summary.forms + 1)) }
    ensures fails { IfErr result (FailsAfter (N.host session.old.natives) (datum_of datum) (standing_of (D.told session.old.dependents) session.old)
        (standing_of (D.told session.new.dependents) session.new) (W.contents writer.old) (W.contents writer.new)) }
    ensures host { N.host session.new.natives ≡ N.host session.old.natives }
{
    let from = session.written().len();
    let limit = session.world().limits.steps;
    let mut left = limit;
    let answer = session.perform(&datum, &mut left);
    let counts = counted(summary, &answer);
    let world = session.world();
    let taken = limit.saturating_sub(left);
    let Ok(piece) = tell(alloc, world, from, &answer, taken, echo, fresh) else {
        return Err(RunFault::Memory);
    };
    if writer.write_all(piece.as_slice()).is_err() {
        return Err(RunFault::Write);
    }
    let line = ends_line(fresh, piece.as_slice());
    Ok(Performed {
        summary: counts,
        fresh: line,
        form: datum,
        answer,
    })
}

/// The counts with one more form, which ended so.
fn counted(summary: Summary, answer: &Result<Value, Stop>) -> Summary
    requires forms { summary.forms + 1 < 2 ^ 64 }
    requires conditions { summary.conditions ≤ summary.forms }
    requires storages { summary.storages ≤ summary.forms }
    ensures counts { result ≡ counted_for answer.now summary }
    ensures few { (result.conditions ≤ result.forms) × (result.storages ≤ result.forms) × (result.forms ≡ summary.forms + 1) }
{
    let Summary {
        forms,
        conditions,
        storages,
    } = summary;
    let forms = forms + 1;
    match answer {
        Ok(_) => Summary {
            forms,
            conditions,
            storages,
        },
        Err(Stop::Refused(_)) => Summary {
            forms,
            conditions: conditions + 1,
            storages,
        },
        Err(Stop::Storage) => Summary {
            forms,
            conditions,
            storages: storages + 1,
        },
    }
}
