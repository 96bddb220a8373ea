//! Groups of rows: texts, and what they write in a session.
use crate::heard::tell_heard;
use clos_program::low;
use clos_system::{Dependent, Limits, Native, Recorder, Relation, RunFault, Session, Summary, run};
use lisp_data::Name;
use std::alloc::{AllocError, Global};
use std::io;

/// The rows under one title, and what they share.
#[derive(Drop)]
pub struct Group {
    title: String,
    /// A text that stands before each row.
    before: String,
    /// What those rows write that do not say it.
    otherwise: String,
    /// How many rows were performed.
    rows: u64,
}

/// The limits of a session but for those that a word and a number set.
fn limits(setting: &str) -> Limits {
    let mut limits = Limits::default();
    let (name, number) = setting.split_once(' ').unwrap_or((setting, "0"));
    let number = number.parse().unwrap_or(0);
    match name {
        "steps" => limits.steps = number,
        "depth" => limits.depth = number,
        "methods" => limits.methods = number,
        "combinations" => limits.combinations = number,
        "functions" => limits.functions = number,
        "globals" => limits.globals = number,
        "cells" => limits.cells = number,
        "tables" => {
            limits.classes = number;
            limits.generics = number;
            limits.instances = number;
        }
        _ => {}
    }
    limits
}

/// Runs a text in a session of this setting, for which the function `low` is stored and which is handed the dependents `audit`
/// and `second`, and adds what it writes to the output, and where the setting says so what they heard.
fn run_stored(
    alloc: Global,
    setting: &str,
    text: &str,
    output: &mut Vec<u8>,
) -> Result<Result<Summary, RunFault>, AllocError> {
    let relation = Relation::Within { lo: 0, hi: 15 };
    let native = Native::new(Name::fixed(&"LOW"), 1, relation, Box::new(alloc, low)?);
    let mut natives = Vec::new(alloc);
    natives.push(native)?;
    let audit: Box<dyn Dependent> = Box::new(alloc, Recorder::new(alloc))?;
    let second: Box<dyn Dependent> = Box::new(alloc, Recorder::new(alloc))?;
    let mut dependents = Vec::new(alloc);
    dependents.push((Name::fixed(&"AUDIT"), audit))?;
    dependents.push((Name::fixed(&"SECOND"), second))?;
    let mut session = Session::new(alloc, limits(setting), natives, dependents)?;
    let mut source = text.as_bytes();
    let ran = run(alloc, &mut session, &mut source, output, setting == "echo");
    if setting == "heard" {
        tell_heard(alloc, &session, output)?;
    }
    Ok(ran)
}

/// The same, where refused memory is a fault like others.
fn run_in(
    alloc: Global,
    setting: &str,
    text: &str,
    output: &mut Vec<u8>,
) -> Result<Summary, RunFault> {
    match run_stored(alloc, setting, text, output) {
        Ok(ran) => ran,
        Err(_) => Err(RunFault::Memory),
    }
}

/// Whether a run was told so, with a condition for each that is written and no refused memory.
fn is_told(ran: &Result<Summary, RunFault>, written: &[u8], output: &str) -> bool {
    let conditions = output.split("; ").count() as u64;
    match ran {
        Ok(summary) => {
            written == output.as_bytes()
                && summary.conditions.saturating_add(1) == conditions
                && summary.storages == 0
        }
        Err(_) => false,
    }
}

/// A text with a new line for each `~`.
fn with_lines(alloc: Global, text: &str) -> Result<String, AllocError> {
    text.replace(alloc, '~', "\n")
}

impl Group {
    /// A group without rows.
    pub fn new(alloc: Global) -> Group {
        Group {
            title: String::new(alloc),
            before: String::new(alloc),
            otherwise: String::new(alloc),
            rows: 0,
        }
    }

    /// Tells how many rows the group had, if it had any.
    pub fn end(&self, rt: &HostRuntime) -> io::Result<()> {
        if self.rows == 0 {
            return Ok(());
        }
        println!(rt; "{}: {}", self.title, self.rows)
    }

    /// Takes a line: one that begins a group or belongs to it, or a row, which is performed.
    pub fn take_line(&mut self, rt: &HostRuntime, line: &str) -> io::Result<()> {
        let alloc = rt.alloc();
        if let Some(title) = line.strip_prefix("== ") {
            self.end(rt)?;
            *self = Group::new(alloc);
            self.title.push_str(title)?;
        } else if let Some(text) = line.strip_prefix("before: ") {
            self.before.push_str(with_lines(alloc, text)?.as_str())?;
        } else if let Some(output) = line.strip_prefix("otherwise: ") {
            self.otherwise.push_str(output)?;
        } else if !line.is_empty() && !line.starts_with(";;") {
            self.rows = self.rows.saturating_add(1);
            self.perform(rt, line)?;
        }
        Ok(())
    }

    /// Performs a row, and tells it where it does not write what it should.
    fn perform(&self, rt: &HostRuntime, row: &str) -> io::Result<()> {
        let alloc = rt.alloc();
        let (setting, case) = row.split_once(": ").unwrap_or(("", row));
        let (text, output) = case
            .split_once(" => ")
            .unwrap_or((case, self.otherwise.as_str()));
        let text = format!(in alloc; "{}{}", self.before, with_lines(alloc, text)?)?;
        let output = with_lines(alloc, output)?;
        let mut written = Vec::new(alloc);
        let ran = run_in(alloc, setting, text.as_str(), &mut written);
        if is_told(&ran, written.as_slice(), output.as_str()) {
            return Ok(());
        }
        println!(rt; "{}: the row {row} is not so; it writes:", self.title)?;
        rt.println(str::from_utf8(written.as_slice()).unwrap_or("what is no text"))
    }
}
