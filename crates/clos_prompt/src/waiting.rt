//! What a prompt waits with between two lines.
ghost use Rattle.std.specs.Prelude.{◌≡◌, ◌≤◌, ◌++◌, length, IfOk};
ghost use Rattle.clos_prompt.specs.Waiting.{at_first, cleared, exit_status, farewell, given_up, is_idle, left_open, passed, prompt_of, takes_command};
ghost use Rattle.clos_prompt.specs.WaitingView.{waiting_of};

use crate::command::is_command;
use clos_commentary::{
    Place, STATUS_CONDITION, STATUS_DONE, STATUS_FAULT, Summary, fault_line, is_told,
};
use lisp_tokens::ReadFault;
use std::alloc::{AllocError, Global};

/// What a prompt waits with.
#[derive(Drop)]
pub(crate) struct Prompt {
    /// The bytes of what is open, from where it begins.
    pub(crate) pending: Vec<u8>,
    /// Where they begin, or else the next line does.
    pub(crate) place: Place,
    /// Whether a condition or storage line was written.
    pub(crate) told: bool,
    /// Whether some of the input could not be read.
    pub(crate) unread: bool,
}

impl Prompt {
    /// One that waits for the first line.
    pub(crate) fn new(alloc: Global) -> Prompt
        ensures { waiting_of result ≡ at_first }
    {
        Prompt {
            pending: Vec::new(alloc),
            place: Place::first(),
            told: false,
            unread: false,
        }
    }

    /// Whether nothing is open.
    fn is_idle(&self) -> bool
        ensures { result ≡ is_idle (waiting_of self.now) }
    {
        self.pending.is_empty()
    }

    /// What it asks by.
    pub(crate) fn text(&self) -> &'static [u8]
        ensures { result.now ≡ prompt_of (waiting_of self.now) }
    {
        if self.is_idle() { b"clos> " } else { b"....> " }
    }

    /// Whether this line is a command to it.
    pub(crate) fn takes_command(&self, line: &[u8]) -> bool
        ensures { result ≡ takes_command (waiting_of self.now) line.now }
    {
        if self.is_idle() {
            is_command(line)
        } else {
            false
        }
    }

    /// What is open, and this line.
    pub(crate) fn text_with(&self, alloc: Global, line: &[u8]) -> Result<Vec<u8>, AllocError>
        ensures { IfOk result (λ r. r.items ≡ (waiting_of self.now).pending ++ line.now) }
    {
        let mut text = Vec::from_slice(alloc, self.pending.as_slice())?;
        text.extend_from_slice(line)?;
        Ok(text)
    }

    /// How it waits after a command.
    pub(crate) fn passed(&self, alloc: Global, line: &[u8]) -> Prompt
        ensures { waiting_of result ≡ passed (waiting_of self.now) line.now }
    {
        Prompt {
            pending: Vec::new(alloc),
            place: self.place.after(line),
            told: self.told,
            unread: self.unread,
        }
    }

    /// How it waits after a text of which all forms were performed.
    pub(crate) fn cleared(&self, alloc: Global, text: &[u8], summary: Summary) -> Prompt
        ensures { waiting_of result ≡ cleared (waiting_of self.now) text.now summary }
    {
        Prompt {
            pending: Vec::new(alloc),
            place: self.place.after(text),
            told: self.told || is_told(summary),
            unread: self.unread,
        }
    }

    /// How it waits after a text that is open from this byte on.
    pub(crate) fn left_open(
        &self,
        alloc: Global,
        text: &[u8],
        summary: Summary,
        begin: usize,
    ) -> Result<Prompt, AllocError>
        requires { begin ≤ length text.now }
        ensures { IfOk result (λ r. waiting_of r ≡ left_open (waiting_of self.now) text.now summary begin) }
    {
        let pending = Vec::from_slice(alloc, &text[begin..])?;
        Ok(Prompt {
            pending,
            place: self.place.after(&text[..begin]),
            told: self.told || is_told(summary),
            unread: self.unread,
        })
    }

    /// How it waits after a text that can't be read.
    pub(crate) fn given_up(&self, alloc: Global, text: &[u8], summary: Summary) -> Prompt
        ensures { waiting_of result ≡ given_up (waiting_of self.now) text.now summary }
    {
        Prompt {
            pending: Vec::new(alloc),
            place: self.place.after(text),
            told: self.told || is_told(summary),
            unread: true,
        }
    }

    /// What it writes at the end of the input.
    pub(crate) fn farewell(&self, alloc: Global) -> Result<Vec<u8>, AllocError>
        ensures { IfOk result (λ r. r.items ≡ farewell (waiting_of self.now)) }
    {
        let mut text = Vec::new(alloc);
        text.push(b'\n')?;
        if !self.is_idle() {
            let line = fault_line(alloc, &ReadFault::EndInside(0), self.place)?;
            text.extend_from_slice(line.as_slice())?;
        }
        Ok(text)
    }

    /// The exit status where the input ends.
    pub(crate) fn status(&self) -> u8
        ensures { result ≡ exit_status (waiting_of self.now) }
    {
        if self.unread || !self.is_idle() {
            STATUS_FAULT
        } else if self.told {
            STATUS_CONDITION
        } else {
            STATUS_DONE
        }
    }
}
