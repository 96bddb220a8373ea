//! The names that are nearest to one that means nothing.
use clos_look::Page;
use std::alloc::Global;
use strsim::osa_distance;

/// Longer names than this, in bytes, are near to none.
const MAX_LEN: usize = 64;

/// How many names are told at most.
const MAX_NAMES: usize = 4;

/// The names that are nearest to one, of those that were offered. Once memory runs out no more is taken, and whoever asks fails.
#[derive(Drop)]
pub struct Nearest<'a> {
    alloc: Global,
    name: &'a str,
    distance: usize,
    found: Vec<&'a str>,
    failed: bool,
}

impl<'a> Nearest<'a> {
    /// None yet. Names are near if one edit for each four characters, rounded, leads from one to the other.
    pub fn new(alloc: Global, name: &'a str) -> Nearest<'a> {
        Nearest {
            alloc,
            name,
            distance: name.len().saturating_add(2) / 4,
            found: Vec::new(alloc),
            failed: false,
        }
    }

    /// Takes a name that is so far away, if it is no further away than those before it.
    fn take(&mut self, other: &'a str, distance: usize) {
        if distance > self.distance || distance == 0 {
            return;
        }
        if distance < self.distance {
            self.found.clear();
            self.distance = distance;
        }
        if self.found.len() < MAX_NAMES {
            self.failed = self.found.push(other).is_err();
        }
    }

    /// Takes this name, if it is no further away than those before it.
    pub fn offer(&mut self, other: &'a str) {
        if self.failed || self.name.len() > MAX_LEN || other.len() > MAX_LEN {
            return;
        }
        match osa_distance(self.alloc, self.name, other) {
            Ok(distance) => self.take(other, distance),
            Err(_) => self.failed = true,
        }
    }

    /// Asks whether one of them was meant.
    pub fn ask(&self, page: &mut Page) {
        self.ask_after(page, "");
    }

    /// The same of names that this stands before.
    pub fn ask_after(&self, page: &mut Page, before: &str) {
        if self.failed {
            page.fail();
        }
        if self.found.is_empty() {
            return;
        }
        let mut word = "; is it ";
        for other in self.found.iter() {
            page.text(word);
            page.text(before);
            page.text(other);
            word = " or ";
        }
        page.text("?");
    }
}
