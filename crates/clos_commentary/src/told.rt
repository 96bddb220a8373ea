//! Conditions and faults of reading are explained where they come up.
ghost use Rattle.std.specs.Io.KnownBytes.{Keeps};

use crate::locate::locate;
use crate::place::{Place, push_place};
use clos_ending::{Fault, FileName, Stop};
use clos_explain::{World, explanation};
use lisp_data::{Datum, Value};
use std::alloc::{AllocError, Global};
use std::io::Write;

/// A text and where it begins, in a file if one is named.
#[derive(Clone, Copy)]
pub struct Source<'a> {
    /// The file.
    pub file: Option<&'a str>,
    /// Where the text begins.
    pub place: Place,
    /// The text, if there is one to point into.
    pub text: &'a [u8],
}

impl<'a> Source<'a> {
    /// The same text from a byte on, which stands at this place.
    pub(crate) fn from(self, place: Place, begin: usize) -> Source<'a> {
        Source {
            file: self.file,
            place,
            text: self.text.get(begin..).unwrap_or(&[]),
        }
    }

    /// The same where a datum begins to which this path leads from the text's first one.
    fn within(self, alloc: Global, path: &[usize]) -> Source<'a> {
        let begin = locate(alloc, self.text, path);
        let place = self.place.after(self.text.get(..begin).unwrap_or(&[]));
        self.from(place, begin)
    }
}

/// A text after where it stands.
fn placed(alloc: Global, source: Source<'_>, text: &[u8]) -> Result<Vec<u8>, AllocError> {
    let mut line = Vec::new(alloc);
    if let Some(name) = source.file {
        let shown = format!(in alloc; "{}:", FileName(name))?;
        line.extend_from_slice(shown.as_bytes())?;
    }
    push_place(&mut line, source.place)?;
    line.extend_from_slice(b": ")?;
    line.extend_from_slice(text)?;
    Ok(line)
}

/// Writes an explanation after all that was written. What can't be written on `errors` is lost.
pub fn tell<W: Write, E: Write>(
    alloc: Global,
    source: Source<'_>,
    text: &[u8],
    output: &mut W,
    errors: &mut E,
) -> Result<(), Fault<'static>>
    ensures { Keeps (W.contents output.old) (W.contents output.new) }
{
    if output.flush().is_err() {
        return Err(Fault::Write);
    }
    let Ok(line) = placed(alloc, source, text) else {
        return Err(Fault::Memory);
    };
    let _ = errors.write_all(line.as_slice());
    let _ = errors.flush();
    Ok(())
}

/// Explains the condition of a form, if it ended with one.
#[tactic(auto, using(crate::proofs::Outputs::nothing_written))]
pub fn explain<W: Write, E: Write>(
    alloc: Global,
    world: &World,
    form: &Datum,
    answer: &Result<Value, Stop>,
    source: Source<'_>,
    output: &mut W,
    errors: &mut E,
) -> Result<(), Fault<'static>>
    ensures { Keeps (W.contents output.old) (W.contents output.new) }
{
    let Err(Stop::Refused(condition)) = answer else {
        return Ok(());
    };
    let Ok(explanation) = explanation(alloc, world, form, condition) else {
        return Err(Fault::Memory);
    };
    let source = source.within(alloc, explanation.path.as_slice());
    tell(alloc, source, explanation.text.as_slice(), output, errors)
}
