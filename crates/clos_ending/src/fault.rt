//! Why the program ends before its last file, and the line that tells it.
use clos_system::RunFault;
use lisp_tokens::ReadFault;
use std::fmt;
use std::io::Write;

/// Why the program ends before its last file.
#[derive(Clone, Copy, Debug)]
pub enum Fault<'a> {
    /// The file of this name can't be opened or read.
    Read(&'a str),
    /// It is longer than a text may be.
    TooLong(&'a str),
    /// What it holds can't be read as data.
    Reader(&'a str, ReadFault),
    /// The output can't be written.
    Write,
    /// Memory ran out.
    Memory,
}

impl<'a> Fault<'a> {
    /// The fault of a run over the file of this name.
    pub fn of_run(name: &'a str, fault: &RunFault) -> Fault<'a> {
        match fault {
            RunFault::Read => Fault::Read(name),
            RunFault::TooLong => Fault::TooLong(name),
            RunFault::Reader(ReadFault::Memory) => Fault::Memory,
            RunFault::Reader(fault) => Fault::Reader(name, *fault),
            RunFault::Write => Fault::Write,
            RunFault::Memory => Fault::Memory,
        }
    }
}

impl fmt::Display for Fault<'_> {
    fn fmt<W: fmt::Write>(&self, f: &mut fmt::Formatter<W>) -> fmt::Result {
        match self {
            Fault::Read(name) => write!(f, "{}: read fault", FileName(name)),
            Fault::TooLong(name) => write!(f, "{}: too long", FileName(name)),
            Fault::Reader(name, fault) => {
                write!(f, "{}", FileName(name))?;
                write_reader_fault(f, *fault)
            }
            Fault::Write => f.write_str("write fault"),
            Fault::Memory => f.write_str("no memory"),
        }
    }
}

/// A file's name as it is told: with a `?` for each control character, so that its line stays one line.
#[derive(Clone, Copy, Debug)]
pub struct FileName<'a>(pub &'a str);

impl fmt::Display for FileName<'_> {
    fn fmt<W: fmt::Write>(&self, f: &mut fmt::Formatter<W>) -> fmt::Result {
        for c in self.0.chars() {
            f.write_char(if c.is_control() { '?' } else { c })?;
        }
        Ok(())
    }
}

fn write_reader_fault<W: fmt::Write>(f: &mut fmt::Formatter<W>, fault: ReadFault) -> fmt::Result {
    let number = fault.number();
    match fault.offset() {
        Some(offset) => write!(f, ": reader fault {number} at {offset}"),
        None => write!(f, ": reader fault {number}"),
    }
}

/// Writes the line of a fault. Where even that fails, there is no one left to tell.
pub fn report<E: Write>(errors: &mut E, fault: Fault<'_>) {
    let _ = writeln!(errors, "clos: {fault}");
}
