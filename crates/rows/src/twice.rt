//! A script that is performed in two sessions.
//!
//! Where an allocation is refused in the first session, at most one of its replies tells of it, with the steps that its form
//! had taken. The second session gives that form so many steps and all others their limit: then it writes the same, its other
//! replies are the same, and its dependents hear the same.
use crate::heard::tell_heard;
use clos_system::{Dependent, Dependents, Limits, Native, Natives, Recorder, Reply, Session};
use lisp_data::{Datum, Name, Value, equal};
use lisp_reader::{ReadFault, read_form};
use std::alloc::{AllocError, Global};
use std::io;

/// Where memory was refused: the form, by its place in the script from 0, and the steps that it had taken.
#[derive(Clone, Copy)]
struct Cut {
    form: usize,
    steps: u64,
}

/// What came of the two sessions.
#[derive(Clone, Copy)]
enum Outcome {
    /// Memory was refused before the first form.
    Before,
    /// It was refused in a form, and all else is the same.
    Cut(Cut),
    /// No reply tells that it was refused, and all is the same.
    Whole,
    /// It was refused after the first session, as in the second one.
    Later,
    /// More than one reply tells that it was refused, or something else is not the same.
    Differs,
}

/// What came of a session that performed the script.
#[derive(Drop)]
struct Performance {
    replies: Vec<Reply>,
    written: Vec<u8>,
    /// What its dependents heard, a line for each notice.
    heard: Vec<u8>,
}

/// The data of a text, unless it has one that can't be read.
fn data_of(alloc: Global, text: &str) -> Result<Vec<Datum>, ReadFault> {
    let bytes = text.as_bytes();
    let mut data = Vec::new(alloc);
    let mut at = 0;
    for _ in 0..bytes.len() {
        let Some((datum, next)) = read_form(alloc, bytes, at.min(bytes.len()))? else {
            return Ok(data);
        };
        if data.push(datum).is_err() {
            return Err(ReadFault::Memory);
        }
        at = next;
    }
    Ok(data)
}

/// Allocates so many times, and keeps nothing.
fn allocate(alloc: Global, times: u64) -> Result<(), AllocError> {
    for number in 0..times {
        drop(Box::new(alloc, number)?);
    }
    Ok(())
}

/// How many steps the form at this place may take, if it is the one at the cut.
fn steps_at(cut: Option<Cut>, place: usize) -> Option<u64> {
    match cut {
        Some(cut) if cut.form == place => Some(cut.steps),
        _ => None,
    }
}

fn reply_to<N: Natives, D: Dependents>(
    session: &mut Session<N, D>,
    datum: &Datum,
    steps: Option<u64>,
) -> Reply {
    match steps {
        Some(steps) => session.submit_within(datum, steps),
        None => session.submit(datum),
    }
}

/// Performs a script in which the form at the cut may take so many steps, and adds the replies.
fn perform_all<N: Natives, D: Dependents>(
    session: &mut Session<N, D>,
    replies: &mut Vec<Reply>,
    script: &[Datum],
    cut: Option<Cut>,
) -> Result<(), AllocError> {
    for (place, datum) in script.iter().enumerate() {
        let reply = reply_to(session, datum, steps_at(cut, place));
        replies.push(reply)?;
    }
    Ok(())
}

/// What came of a session that gave these replies.
fn performance_of<N: Natives, D: Dependents>(
    alloc: Global,
    session: &Session<N, D>,
    replies: Vec<Reply>,
) -> Result<Performance, AllocError> {
    let written = Vec::from_slice(alloc, session.written())?;
    let mut heard = Vec::new(alloc);
    tell_heard(alloc, session, &mut heard)?;
    Ok(Performance {
        replies,
        written,
        heard,
    })
}

/// What comes of a session with the dependents `audit` and `second` that performs a script, where the program first allocates
/// so many times; nothing where memory was refused after the script.
fn perform(
    alloc: Global,
    script: &[Datum],
    cut: Option<Cut>,
    times: u64,
) -> Result<Option<Performance>, AllocError> {
    let natives: Vec<Native> = Vec::new(alloc);
    let audit: Box<dyn Dependent> = Box::new(alloc, Recorder::new(alloc))?;
    let second: Box<dyn Dependent> = Box::new(alloc, Recorder::new(alloc))?;
    let mut dependents = Vec::new(alloc);
    dependents.push((Name::fixed(&"AUDIT"), audit))?;
    dependents.push((Name::fixed(&"SECOND"), second))?;
    let mut session = Session::new(alloc, Limits::default(), natives, dependents)?;
    let mut replies = Vec::new(alloc);
    replies.reserve(script.len())?;
    allocate(alloc, times)?;
    perform_all(&mut session, &mut replies, script, cut)?;
    Ok(performance_of(alloc, &session, replies).ok())
}

/// The first reply that tells of refused memory.
fn cut_of(replies: &[Reply]) -> Option<Cut> {
    for (form, reply) in replies.iter().enumerate() {
        if let Reply::Storage { steps } = reply {
            return Some(Cut {
                form,
                steps: *steps,
            });
        }
    }
    None
}

fn are_equal(values: &[Value], others: &[Value]) -> bool {
    values.len() == others.len()
        && values
            .iter()
            .zip(others)
            .all(|(value, other)| equal(value, other))
}

/// Whether two replies are the same, neither of which tells of refused memory.
fn is_same(reply: &Reply, other: &Reply) -> bool {
    match (reply, other) {
        (Reply::Value(value), Reply::Value(other)) => equal(value, other),
        (
            Reply::Condition { number, items },
            Reply::Condition {
                number: other,
                items: others,
            },
        ) => number == other && are_equal(items.as_slice(), others.as_slice()),
        _ => false,
    }
}

/// Whether two sessions replied the same to all forms but the one at the cut.
fn agree(replies: &[Reply], others: &[Reply], cut: Option<Cut>) -> bool {
    let at = cut.map(|cut| cut.form);
    replies.len() == others.len()
        && replies.iter().zip(others).enumerate().all(|(place, (reply, other))| at == Some(place)
            || is_same(reply, other))
}

/// Whether two sessions came to the same, but for the reply at the cut.
fn is_alike(first: &Performance, second: &Performance, cut: Option<Cut>) -> bool {
    first.written.as_slice() == second.written.as_slice()
        && first.heard.as_slice() == second.heard.as_slice()
        && agree(first.replies.as_slice(), second.replies.as_slice(), cut)
}

/// What came of two sessions, where neither is one that memory was refused for before its first form.
fn outcome_of(first: &Performance, second: &Performance, cut: Option<Cut>) -> Outcome {
    if cut_of(second.replies.as_slice()).is_some() {
        return Outcome::Later;
    }
    match cut {
        _ if !is_alike(first, second, cut) => Outcome::Differs,
        Some(cut) => Outcome::Cut(cut),
        None => Outcome::Whole,
    }
}

/// Performs the script in two sessions, after so many allocations.
fn compare(alloc: Global, script: &[Datum], times: u64) -> Outcome {
    let first = match perform(alloc, script, None, times) {
        Ok(Some(first)) => first,
        Ok(None) => return Outcome::Later,
        Err(_) => return Outcome::Before,
    };
    let cut = cut_of(first.replies.as_slice());
    match &perform(alloc, script, cut, 0) {
        Ok(Some(second)) => outcome_of(&first, second, cut),
        _ => Outcome::Later,
    }
}

fn tell(rt: &HostRuntime, outcome: Outcome) -> io::Result<()> {
    match outcome {
        Outcome::Before => rt.println("refused before the first form"),
        Outcome::Cut(Cut { form, steps }) => {
            println!(rt; "form {form} was cut after {steps} steps, and the rest is the same")
        }
        Outcome::Whole => rt.println("no form was cut, and all is the same"),
        Outcome::Later => rt.println("refused in the second session"),
        Outcome::Differs => rt.println("the sessions differ"),
    }
}

/// Performs a script twice, and tells what came of it. The program first allocates so many times: so, where the environment
/// refuses one allocation of the program, by its place among all, this number says which one of the first session that is.
pub fn perform_twice(rt: &HostRuntime, script: &str, times: u64) -> io::Result<()> {
    let Ok(script) = data_of(rt.alloc(), script) else {
        return Err(io::Error::from(io::ErrorKind::OutOfMemory));
    };
    tell(rt, compare(rt.alloc(), script.as_slice(), times))
}
