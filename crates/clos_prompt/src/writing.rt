//! How pages are written.
ghost use Rattle.std.specs.Prelude.{OnOk};
ghost use Rattle.std.specs.Io.KnownBytes.{Appends};

use clos_commentary::Fault;
use std::io::Write;

/// Writes these bytes.
pub(crate) fn write<W: Write>(output: &mut W, bytes: &[u8]) -> Result<(), Fault<'static>>
    ensures { OnOk result (Appends (W.contents output.old) (W.contents output.new) bytes.now) }
{
    match output.write_all(bytes) {
        Ok(()) => Ok(()),
        Err(_) => Err(Fault::Write),
    }
}
