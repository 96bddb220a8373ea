//! The classes directly below each name: those whose definitions have it among the names of their direct superclasses.
ghost use Rattle.std.specs.Prelude.{◌≡◌, true, OnOk};
ghost use Rattle.std.specs.List.{list_any};
ghost use Rattle.lisp_data.specs.Name.{Name, same_name};
ghost use Rattle.clos_precedence.specs.Precedence.{has};
ghost use Rattle.clos_hierarchy.specs.inner.Direct.{Index, Spreads, directly_below};

use crate::below::Below;
use indexmap::IndexSet;
use lisp_data::{ClassId, Name};
use std::alloc::{AllocError, Global};
use std::marker::Model;

/// Of each name, which may be that of a class or not, the classes directly below it, or that were so once.
#[derive(Drop)]
pub struct Direct {
    names: IndexSet<Name>,
    rows: Below,
}

impl Model for Direct {
    ghost use Rattle.clos_hierarchy.specs.inner.Direct.{Index};

    ghost Value = { Index };

    ghost view = { λ a. record { names = a.names.keys; rows = a.rows } };
}

impl Direct {
    /// None of any name.
    pub fn new(alloc: Global) -> Direct {
        Direct {
            names: IndexSet::new(alloc),
            rows: Below::new(alloc),
        }
    }

    /// Those of a name.
    pub fn of(&self, name: &Name) -> &[u64]
        ensures { result.now ≡ directly_below self.now name.now }
    {
        match self.names.get_index_of(name) {
            Some(place) => self.rows.of(place as u64),
            None => &[],
        }
    }

    /// Notes a class below a name.
    fn note(&mut self, alloc: Global, name: &Name, class: ClassId) -> Result<(), AllocError>
        ensures spreads { Spreads self.old self.new }
        ensures noted { OnOk result (has (directly_below self.new name.now) class.0 ≡ true) }
    {
        let (place, _) = self.names.insert_full(name.copy()?)?;
        self.rows.note(alloc, place as u64, class)?;
        Ok(())
    }

    /// Notes a class below all these names.
    pub fn add(&mut self, alloc: Global, class: ClassId, above: &[Name]) -> Result<(), AllocError>
        ensures spreads { Spreads self.old self.new }
        ensures added { OnOk result ((x : Name) → list_any (same_name x) above.now ≡ true → has (directly_below self.new x) class.0 ≡ true) }
    {
        let mut left = above;
        while let Some((name, others)) = left.split_first() {
            self.note(alloc, name, class)?;
            left = others;
        }
        Ok(())
    }
}
