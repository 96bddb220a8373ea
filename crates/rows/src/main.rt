//! Performs the rows of its input, each in a session of its own, and tells those that do not write what they should. Then it
//! performs the script at the end of its input in two sessions (`twice`).
//!
//! A line `== TITLE` begins a group of rows. In a group, `before: TEXT` is a text that stands before each of its rows, and
//! `otherwise: OUTPUT` is what those rows write that do not say it. A row is `SETTING: TEXT => OUTPUT`, where SETTING and
//! OUTPUT may be left out, and `~` is a new line in all of them. SETTING is `echo`, or a limit and its number (`rows`). A line
//! that begins with `;;` is a comment.
//! A line `twice N` ends the rows. The lines after it are the script, before which the program allocates N times.
#![tactic(auto)]

mod heard;
mod rows;
mod twice;

use rows::Group;
use std::alloc::AllocError;
use std::io;
use twice::perform_twice;

/// What was read of the input.
#[derive(Drop)]
struct Reading {
    group: Group,
    /// How often the program allocates before the script, once its line was read.
    times: Option<u64>,
    script: String,
}

/// A line, and the end of it, after this text.
fn push_line(text: &mut String, line: &str) -> Result<(), AllocError> {
    text.push_str(line)?;
    text.push('\n')
}

/// Takes a line of the script, or of the rows.
fn take_line(rt: &HostRuntime, reading: &mut Reading, line: &str) -> io::Result<()> {
    if reading.times.is_some() {
        push_line(&mut reading.script, line)?;
        return Ok(());
    }
    if let Some(times) = line.strip_prefix("twice ") {
        reading.times = Some(times.parse().unwrap_or(0));
        return reading.group.end(rt);
    }
    reading.group.take_line(rt, line)
}

fn main(rt: HostRuntime) -> io::Result<()> {
    let alloc = rt.alloc();
    let mut reading = Reading {
        group: Group::new(alloc),
        times: None,
        script: String::new(alloc),
    };
    for line in rt.lines(alloc) {
        let line = line?;
        take_line(&rt, &mut reading, line.as_str())?;
    }
    perform_twice(&rt, reading.script.as_str(), reading.times.unwrap_or(0))
}
