//! The forms of a text, one after another, up to where it is open or can't be read.
ghost use Rattle.std.specs.Prelude.{◌≡◌, ◌≤◌, ◌<◌, ◌+◌, ◌^◌, ℕ, List, length, IfOk, IfErr, OnErr};
ghost use Rattle.lisp_data.specs.DatumView.{datum_of};
ghost use Rattle.lisp_tokens.specs.declared.fault.ReadFault.TheVariants.{Memory};
ghost use Rattle.clos_ending.specs.clos_system.Transcript.{Comes, Performed, Performs, Ran};
ghost use Rattle.clos_ending.specs.clos_system.clos_session.Session.{standing_of};
ghost use Rattle.clos_ending.specs.clos_system.declared.transcript.Summary.{Summary};
ghost use Rattle.clos_commentary.specs.Forms.{IsRefused, Leaves};

use crate::place::Place;
use crate::told::{Source, explain};
use clos_ending::{Dependents, Fault, Natives, RunFault, Session, Summary, run_form};
use lisp_data::Datum;
use lisp_reader::read_form;
use lisp_tokens::{ReadFault, skip_gaps};
use std::alloc::Global;
use std::io::Write;

/// What a text has left where its forms were performed.
#[derive(Drop)]
pub enum Left {
    Nothing,
    /// A datum or a comment that begins at this byte and is not closed.
    Open(usize),
    /// What can't be read, at this byte.
    Unread(ReadFault, usize),
}

/// What a fault leaves of a text.
fn left_by(fault: ReadFault) -> Result<Left, Fault<'static>>
    ensures left { (text : List ℕ) (at : ℕ) → IsRefused text at fault → IfOk result (Leaves text at) }
    ensures fails { OnErr result (fault ≡ Memory) }
{
    if let ReadFault::EndInside(begin) = fault {
        return Ok(Left::Open(begin));
    }
    match fault.offset() {
        Some(at) => Ok(Left::Unread(fault, at)),
        None => Err(Fault::Memory),
    }
}

/// Why a form's answer could not be written.
pub fn fault_of(fault: &RunFault) -> Fault<'static> {
    match fault {
        RunFault::Write => Fault::Write,
        _ => Fault::Memory,
    }
}

/// The source from where the next datum begins, from a byte on that stands at this place.
fn from_next<'a>(source: Source<'a>, text: &[u8], at: usize, place: Place) -> Source<'a>
    requires { at ≤ length text.now }
{
    match skip_gaps(text, at) {
        Ok(begin) => source.from(place.after(text.get(at..begin).unwrap_or(&[])), begin),
        Err(_) => source.from(place, at),
    }
}

/// Performs the forms of a text, and writes what they write, their conditions, and with `echo` their values. Conditions are explained
/// on `errors`, with their places, of which the first is the text's. Answers how the forms ended, what is left, and where that begins.
pub fn perform_forms<N: Natives, D: Dependents, W: Write, E: Write>(
    alloc: Global,
    session: &mut Session<N, D>,
    text: &[u8],
    source: Source<'_>,
    echo: bool,
    output: &mut W,
    errors: &mut E,
) -> Result<(Summary, Left, Place), Fault<'static>>
    ensures performs { IfOk result (λ r. (at : ℕ) × Comes (N.host session.old.natives) echo text.now
        (standing_of (D.told session.old.dependents) session.old) (standing_of (D.told session.new.dependents) session.new)
        (W.contents output.old) (W.contents output.new) at r.0 × Leaves text.now at r.1) }
    ensures stops { IfErr result (λ _. (at : ℕ) × (out : List ℕ) × (n : Summary) × Ran (N.host session.old.natives) echo text.now
        (standing_of (D.told session.old.dependents) session.old) (standing_of (D.told session.new.dependents) session.new) at out n) }
    ensures host { N.host session.new.natives ≡ N.host session.old.natives }
{
    let mut summary = Summary {
        forms: 0,
        conditions: 0,
        storages: 0,
    };
    let mut at = 0;
    let mut fresh = true;
    let mut place = source.place;
    loop {
        match read_form(alloc, text, at) {
            Ok(None) => return Ok((summary, Left::Nothing, place)),
            Ok(Some(found)) => {
                let (datum, next) = found;
                let form = from_next(source, text, at, place);
                match perform_form(
                    alloc, session, datum, form, echo, fresh, summary, output, errors,
                ) {
                    Ok(told) => {
                        summary = told.0;
                        fresh = told.1;
                        place = place.after(text.get(at..next).unwrap_or(&[]));
                        at = next;
                    }
                    Err(fault) => return Err(fault),
                }
            }
            Err(fault) => {
                let begin = from_next(source, text, at, place).place;
                return match left_by(fault) {
                    Ok(left) => Ok((summary, left, begin)),
                    Err(fault) => Err(fault),
                };
            }
        }
    }
}

/// Performs a form, as a run does, and explains its condition.
fn perform_form<N: Natives, D: Dependents, W: Write, E: Write>(
    alloc: Global,
    session: &mut Session<N, D>,
    datum: Datum,
    source: Source<'_>,
    echo: bool,
    fresh: bool,
    summary: Summary,
    output: &mut W,
    errors: &mut E,
) -> Result<(Summary, bool), Fault<'static>>
    requires forms { summary.forms + 1 < 2 ^ 64 }
    requires conditions { summary.conditions ≤ summary.forms }
    requires storages { summary.storages ≤ summary.forms }
    ensures performs { IfOk result (λ r. Performs (N.host session.old.natives) echo (datum_of datum)
        (standing_of (D.told session.old.dependents) session.old) (standing_of (D.told session.new.dependents) session.new)
        (W.contents output.old) (W.contents output.new) summary r.0 fresh r.1) }
    ensures few { IfOk result (λ r. (r.0.conditions ≤ r.0.forms) × (r.0.storages ≤ r.0.forms) × (r.0.forms ≡ summary.forms + 1)) }
    ensures fails { IfErr result (λ _. Performed (N.host session.old.natives) (datum_of datum)
        (standing_of (D.told session.old.dependents) session.old) (standing_of (D.told session.new.dependents) session.new)) }
    ensures host { N.host session.new.natives ≡ N.host session.old.natives }
{
    let performed = match run_form(alloc, session, datum, output, echo, fresh, summary) {
        Ok(performed) => performed,
        Err(fault) => return Err(fault_of(&fault)),
    };
    let world = session.world();
    match explain(
        alloc,
        world,
        &performed.form,
        &performed.answer,
        source,
        output,
        errors,
    ) {
        Ok(()) => Ok((performed.summary, performed.fresh)),
        Err(fault) => Err(fault),
    }
}
