//! Of classes, or of generic functions, by their numbers, the places of their dependents.
ghost use Rattle.std.specs.Prelude.{◌≡◌, ◌<◌, ◌==◌, ℕ, [], OnErr, OnOk, length, if◌then◌else◌};
ghost use Rattle.clos_watch.specs.Rows.{Once};
ghost use Rattle.clos_watch.specs.Watching.{row_at, with_place, without_place};

use indexmap::IndexSet;
use std::alloc::{AllocError, Global};
use std::marker::Model;

/// Rows of places, each once in a row.
#[derive(Drop)]
pub struct Rows {
    rows: Vec<IndexSet<usize>>,
}

impl Model for Rows {
    ghost use Rattle.std.specs.Prelude.{ℕ, List, map};
    ghost use Rattle.std.specs.Coded.{coded_list, coded_ℕ};

    ghost Value = { List (List ℕ) };

    ghost coded = { coded_list (coded_list coded_ℕ) };

    ghost view = { λ a. map (λ s. s.keys) a.rows.items };
}

impl Rows {
    /// No rows.
    pub fn new(alloc: Global) -> Rows
        ensures { result ≡ [] }
    {
        Rows {
            rows: Vec::new(alloc),
        }
    }

    /// The places in a row.
    pub fn of(&self, number: u64) -> &[usize]
        ensures places { result.now ≡ row_at self.now number }
        ensures once { Once result.now }
    {
        match self.rows.get(number as usize) {
            Some(row) => row.as_slice(),
            None => &[],
        }
    }

    /// Has rows up to this one.
    fn reach(&mut self, alloc: Global, number: u64) -> Result<(), AllocError>
        ensures same { (n : ℕ) → row_at self.new n ≡ row_at self.old n }
        ensures reached { OnOk result (number < length self.new) }
    {
        while self.rows.len() as u64 <= number {
            self.rows.push(IndexSet::new(alloc))?;
        }
        Ok(())
    }

    /// Adds a place to a row, as the last, unless it is there.
    pub fn add(&mut self, alloc: Global, number: u64, place: usize) -> Result<(), AllocError>
        ensures ok { OnOk result ((n : ℕ) → row_at self.new n ≡ (if number == n then with_place (row_at self.old n) place else row_at self.old n)) }
        ensures err { OnErr result ((n : ℕ) → row_at self.new n ≡ row_at self.old n) }
    {
        self.reach(alloc, number)?;
        self.rows[number as usize].insert(place)?;
        Ok(())
    }

    /// Takes a place out of a row.
    pub fn remove(&mut self, number: u64, place: usize)
        ensures { (n : ℕ) → row_at self.new n ≡ (if number == n then without_place (row_at self.old n) place else row_at self.old n) }
    {
        if number < self.rows.len() as u64 {
            self.rows[number as usize].shift_remove(&place);
        }
    }
}
