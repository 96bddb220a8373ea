//! What is kept of all classes of a table.
ghost use Rattle.std.specs.Prelude.{◌≡◌, ◌<◌, ℕ, [], None, IfErr, IfOk, OnErr, OnOk, length, map, false, true};
ghost use Rattle.clos_precedence.specs.Precedence.{has};
ghost use Rattle.clos_precedence.specs.PrecedenceView.{numbers};
ghost use Rattle.clos_hierarchy.specs.Classes.{Classes, list_in, listing};
ghost use Rattle.clos_hierarchy.specs.Table.{changed, misplaced};
ghost use Rattle.clos_hierarchy.specs.TableView.{Refuses};
ghost use Rattle.clos_hierarchy.specs.inner.Exchange.{IsPlace};
ghost use Rattle.clos_hierarchy.specs.inner.Kept.{Changes};
ghost use Rattle.clos_hierarchy.specs.inner.Told.{Tells};

use crate::below::Below;
use crate::definitions::Definitions;
use crate::direct::Direct;
use crate::fault::ClassFault;
use crate::kept::Kept;
use crate::place::{Replaced, place, put_back};
use crate::preview::Preview;
use crate::settle::settle;
use lisp_data::{ClassId, Name};
use std::alloc::Global;
use std::marker::Model;

/// What is kept of each class, and what tells quickly which classes a definition touches: the classes directly below each name, for
/// those that have no list yet, and of each class those that have it in their lists. A definition costs what it touches, not what
/// the table holds.
#[derive(Drop)]
pub struct Lists {
    kept: Vec<Kept>,
    direct: Direct,
    below: Below,
}

impl Model for Lists {
    ghost use Rattle.clos_hierarchy.specs.inner.Told.{Told, told};
    ghost use Rattle.clos_hierarchy.specs.inner.Touched.{AreNoted};

    ghost Value = { Told };

    ghost view = { λ a. told a.kept.items a.direct };

    ghost invariant = { λ a. AreNoted a.below a.kept.items };
}

impl Lists {
    /// Of no class.
    pub fn new(alloc: Global) -> Lists
        ensures { result.kept ≡ [] }
    {
        Lists {
            kept: Vec::new(alloc),
            direct: Direct::new(alloc),
            below: Below::new(alloc),
        }
    }

    /// What is kept of each class, by its number.
    pub fn as_slice(&self) -> &[Kept]
        ensures { result.now ≡ self.now.kept }
    {
        self.kept.as_slice()
    }

    /// Keeps what there is to say of all classes after this one was defined, unless it is misplaced, and answers those
    /// whose lists changed.
    pub fn place(
        &mut self,
        alloc: Global,
        definitions: &Definitions,
        class: ClassId,
        name: &Name,
        whole: bool,
    ) -> Result<Vec<ClassId>, ClassFault>
        requires { IsPlace class.0 (length self.old.kept) (length definitions.now.names) }
        ensures tells { OnOk result ((cs : Classes) → Tells cs self.old → Changes cs definitions.now class.0 → Tells definitions.now self.new) }
        ensures well { OnOk result ((cs : Classes) → Tells cs self.old → Changes cs definitions.now class.0 → misplaced definitions.now class.0 name.now whole ≡ None) }
        ensures changed { IfOk result (λ r. (cs : Classes) → Tells cs self.old → Changes cs definitions.now class.0 → numbers r.items ≡ changed cs definitions.now) }
        ensures err { OnErr result ((cs : Classes) → Tells cs self.old → Tells cs self.new) }
        ensures fault { IfErr result (λ e. (cs : Classes) → Tells cs self.old → Changes cs definitions.now class.0 → Refuses e (misplaced definitions.now class.0 name.now whole)) }
    {
        self.direct.add(alloc, class, definitions.above(class))?;
        let len = self.kept.len();
        let replaced = place(
            alloc,
            definitions,
            &mut self.kept,
            &self.direct,
            &self.below,
            class,
            name,
            whole,
        )?;
        match settle(
            alloc,
            &mut self.below,
            replaced.places.as_slice(),
            replaced.olds.as_slice(),
            self.kept.as_slice(),
        ) {
            Ok(changed) => Ok(changed),
            Err(_) => {
                put_back(&mut self.kept, replaced, len);
                Err(ClassFault::Memory)
            }
        }
    }

    /// What there would be to say of the classes that this definition touches, unless it is misplaced.
    pub fn preview(
        &mut self,
        alloc: Global,
        definitions: &Definitions,
        class: ClassId,
        name: &Name,
        whole: bool,
    ) -> Result<Preview, ClassFault>
        requires { IsPlace class.0 (length self.old.kept) (length definitions.now.names) }
        ensures class { IfOk result (λ r. r.class ≡ class.0) }
        ensures own { IfOk result (λ r. has r.touched class.0 ≡ true) }
        ensures lists { IfOk result (λ r. (cs : Classes) → Tells cs self.old → Changes cs definitions.now class.0 → r.listings ≡ map (λ n. listing definitions.now n) r.touched) }
        ensures within { IfOk result (λ r. (cs : Classes) → Tells cs self.old → Changes cs definitions.now class.0 → (n : ℕ) → has r.touched n ≡ true → n < length definitions.now.names) }
        ensures others { IfOk result (λ r. (cs : Classes) → Tells cs self.old → Changes cs definitions.now class.0 → (n : ℕ) → has r.touched n ≡ false → listing definitions.now n ≡ listing cs n) }
        ensures free { IfOk result (λ r. (cs : Classes) → Tells cs self.old → (n : ℕ) → has r.touched n ≡ false → has (list_in (listing cs n)) r.class ≡ false) }
        ensures well { OnOk result ((cs : Classes) → Tells cs self.old → Changes cs definitions.now class.0 → misplaced definitions.now class.0 name.now whole ≡ None) }
        ensures fault { IfErr result (λ e. (cs : Classes) → Tells cs self.old → Changes cs definitions.now class.0 → Refuses e (misplaced definitions.now class.0 name.now whole)) }
        ensures same { self.new ≡ self.old }
    {
        let len = self.kept.len();
        let replaced = place(
            alloc,
            definitions,
            &mut self.kept,
            &self.direct,
            &self.below,
            class,
            name,
            whole,
        )?;
        let Replaced { places, olds } = put_back(&mut self.kept, replaced, len);
        Ok(Preview {
            class,
            touched: places,
            kept: olds,
        })
    }
}
