//! What comes before each class (HyperSpec 4.3.5).
ghost use Rattle.std.specs.Prelude.{◌≡◌, ◌<◌, ◌&&◌, ◌||◌, ◌==◌, ℕ, List, length, not, IfOk, OnOk};
ghost use Rattle.clos_precedence.specs.Precedence.{has, are_before_done, are_done};
ghost use Rattle.clos_precedence.specs.PrecedenceView.{numbers};
ghost use Rattle.clos_precedence.specs.OrderView.{rows_of, row_at, TellsFree};

use crate::superclasses::Superclasses;
use lisp_data::ClassId;
use std::alloc::{AllocError, Global};
use std::marker::Model;

/// Of each class, by its number, those that stand directly before it in lists of a class and its direct superclasses.
#[derive(Drop)]
pub struct Predecessors {
    rows: Vec<Vec<ClassId>>,
}

impl Model for Predecessors {
    ghost use Rattle.std.specs.Prelude.{ℕ, List};
    ghost use Rattle.clos_precedence.specs.OrderView.{rows_of};

    ghost Value = { List (List ℕ) };

    ghost view = { λ a. rows_of a.rows.items };
}

/// Adds empty rows until this class has one.
#[tactic(auto, using(crate::proofs::Marking::empty_row))]
fn grow(alloc: Global, rows: &mut Vec<Vec<ClassId>>, class: ClassId) -> Result<(), AllocError>
    ensures rows { OnOk result ((x : ℕ) → row_at (rows_of rows.new.items) x ≡ row_at (rows_of rows.old.items) x) }
    ensures place { OnOk result (class.0 < length rows.new.items) }
{
    let place = class.0 as usize;
    while rows.len() <= place {
        rows.push(Vec::new(alloc))?;
    }
    Ok(())
}

impl Predecessors {
    /// Those of this class.
    pub fn of(&self, class: ClassId) -> &[ClassId]
        ensures { numbers result.now ≡ row_at self.now class.0 }
    {
        match self.rows.get(class.0 as usize) {
            Some(row) => row.as_slice(),
            None => &[],
        }
    }

    /// Adds one that stands directly before a class.
    #[tactic(auto, using(crate::proofs::Marking::row_added))]
    fn add(&mut self, alloc: Global, class: ClassId, before: ClassId) -> Result<(), AllocError>
        ensures { OnOk result ((done : List ℕ) (x : ℕ) → are_done done (row_at self.new x) ≡ ((not (class.0 == x) || has done before.0) && are_done done (row_at self.old x))) }
    {
        grow(alloc, &mut self.rows, class)?;
        self.rows[class.0 as usize].push(before)?;
        Ok(())
    }

    /// Adds what stands before what in the list of a class and its direct superclasses.
    #[tactic(auto, using(crate::proofs::Marking::moved_first))]
    fn add_list(
        &mut self,
        alloc: Global,
        below: ClassId,
        superclasses: &[ClassId],
    ) -> Result<(), AllocError>
        ensures { OnOk result ((done : List ℕ) (x : ℕ) → are_done done (row_at self.new x) ≡ (are_before_done done x below.0 (numbers superclasses.now) && are_done done (row_at self.old x))) }
    {
        let mut before = below;
        let mut left = superclasses;
        while let Some((superclass, others)) = left.split_first() {
            self.add(alloc, *superclass, before)?;
            before = *superclass;
            left = others;
        }
        Ok(())
    }

    /// What stands before what by the classes of a family.
    #[tactic(auto, using(crate::proofs::Marking::moved_first, crate::proofs::Marking::and_true))]
    pub fn by<S: Superclasses>(
        alloc: Global,
        superclasses: &S,
        family: &[ClassId],
    ) -> Result<Predecessors, AllocError>
        ensures { IfOk result (λ r. TellsFree (S.above superclasses.now) (numbers family.now) r) }
    {
        let mut before = Predecessors {
            rows: Vec::new(alloc),
        };
        let mut left = family;
        while let Some((member, others)) = left.split_first() {
            before.add_list(alloc, *member, superclasses.of(*member))?;
            left = others;
        }
        Ok(before)
    }
}
