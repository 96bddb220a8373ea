//! Classes that are noted in rows: below each class, or below each name.
ghost use Rattle.std.specs.Prelude.{◌≡◌, ◌<◌, ℕ, [], true, OnOk, length};
ghost use Rattle.clos_precedence.specs.Precedence.{has};
ghost use Rattle.clos_precedence.specs.PrecedenceView.{numbers};
ghost use Rattle.clos_hierarchy.specs.inner.Below.{Grows, below_at};

use indexmap::IndexSet;
use lisp_data::ClassId;
use std::alloc::{AllocError, Global};
use std::marker::Model;

/// Rows of numbers of classes, each once. What was noted stays.
#[derive(Drop)]
pub struct Below {
    rows: Vec<IndexSet<u64>>,
}

impl Model for Below {
    ghost use Rattle.std.specs.Prelude.{ℕ, List, map};
    ghost use Rattle.std.specs.Coded.{coded_list, coded_ℕ};

    ghost Value = { List (List ℕ) };

    ghost coded = { coded_list (coded_list coded_ℕ) };

    ghost view = { λ a. map (λ s. s.keys) a.rows.items };
}

impl Below {
    /// No rows.
    pub fn new(alloc: Global) -> Below
        ensures { result ≡ [] }
    {
        Below {
            rows: Vec::new(alloc),
        }
    }

    /// The classes that are noted in a row.
    pub fn of(&self, row: u64) -> &[u64]
        ensures { result.now ≡ below_at self.now row }
    {
        match self.rows.get(row as usize) {
            Some(row) => row.as_slice(),
            None => &[],
        }
    }

    /// Has rows up to this one.
    fn reach(&mut self, alloc: Global, row: u64) -> Result<(), AllocError>
        ensures grows { Grows self.old self.new }
        ensures reached { OnOk result (row < length self.new) }
    {
        while self.rows.len() as u64 <= row {
            self.rows.push(IndexSet::new(alloc))?;
        }
        Ok(())
    }

    /// Notes a class in a row.
    pub fn note(&mut self, alloc: Global, row: u64, class: ClassId) -> Result<(), AllocError>
        ensures grows { Grows self.old self.new }
        ensures noted { OnOk result (has (below_at self.new row) class.0 ≡ true) }
    {
        self.reach(alloc, row)?;
        self.rows[row as usize].insert(class.0)?;
        Ok(())
    }

    /// Notes a class in the rows of all these, which are in its list.
    pub fn add(&mut self, alloc: Global, class: ClassId, list: &[ClassId]) -> Result<(), AllocError>
        ensures grows { Grows self.old self.new }
        ensures added { OnOk result ((m : ℕ) → has (numbers list.now) m ≡ true → has (below_at self.new m) class.0 ≡ true) }
    {
        let mut left = list;
        while let Some((above, others)) = left.split_first() {
            self.note(alloc, above.0, class)?;
            left = others;
        }
        Ok(())
    }
}
