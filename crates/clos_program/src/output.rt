//! What the program writes to.
ghost use Rattle.std.specs.Prelude.{◌≡◌, true};
ghost use Rattle.clos_program.specs.Lines.{lined_of};

use std::io::{self, Write};

/// A writer, and whether a line has ended.
#[derive(Drop)]
pub struct Output<W> {
    writer: W,
    /// How many bytes went on to the writer.
    count: usize,
    /// Whether none did, or a newline last.
    fresh: bool,
}

impl<W: Write> Output<W> {
    /// An output to which nothing is written yet.
    pub fn new(writer: W) -> Output<W>
        ensures { (result.writer ≡ writer) × (result.count ≡ 0) × (result.fresh ≡ true) }
    {
        Output {
            writer,
            count: 0,
            fresh: true,
        }
    }

    /// Whether nothing was written, or a newline last.
    pub(crate) fn is_fresh(&self) -> bool
        ensures { result ≡ self.now.fresh }
    {
        self.fresh
    }
}

impl<W: Write> Write for Output<W> {
    ghost contents = { lined_of W.contents };

    fn write(&mut self, buf: &[u8]) -> io::Result<usize> {
        let most = buf.len().min(usize::MAX - self.count);
        let count = self.writer.write(&buf[..most])?;
        self.count += count;
        if count > 0 {
            self.fresh = buf[count - 1] == b'\n';
        }
        Ok(count)
    }

    fn flush(&mut self) -> io::Result<()> {
        self.writer.flush()
    }
}
