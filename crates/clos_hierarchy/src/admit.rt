//! One more class among the others.
ghost use Rattle.std.specs.Prelude.{◌≡◌, ◌<◌, ℕ, ◌||◌, not, None, IfOk, IfErr, OnOk, OnErr, false, length, map, true};
ghost use Rattle.clos_hierarchy.specs.Classes.{number_of, with_class, is_lacking, list_in, listing};
ghost use Rattle.clos_hierarchy.specs.inner.Kept.{IsConsistent};
ghost use Rattle.clos_hierarchy.specs.inner.Told.{Tells};
ghost use Rattle.clos_precedence.specs.Precedence.{has};
ghost use Rattle.clos_precedence.specs.PrecedenceView.{numbers};
ghost use Rattle.clos_hierarchy.specs.inner.KeptView.{listing_at};
ghost use Rattle.clos_hierarchy.specs.Table.{misplaced, changed};
ghost use Rattle.clos_hierarchy.specs.TableView.{Refuses};

use crate::definitions::Definitions;
use crate::fault::ClassFault;
use crate::find::is_lacking;
use crate::kept::Kept;
use crate::lists::Lists;
use crate::preview::Preview;
use lisp_data::{ClassId, Name};
use std::alloc::Global;

/// Whether a class has to be complete: where it has shared slots, or was complete before.
fn must_be_complete(kept: &[Kept], class: ClassId, has_shared_slots: bool) -> bool
    ensures { result ≡ (has_shared_slots || not (is_lacking (listing_at kept.now class.0))) }
{
    has_shared_slots || !is_lacking(kept, class)
}

/// A class that was defined, and the classes whose class precedence lists differ from before, or arose.
#[derive(Drop)]
pub struct Changed {
    pub class: ClassId,
    pub lists: Vec<ClassId>,
}

/// Defines a class, and keeps what there is to say of all then, unless it is misplaced.
pub fn admit(
    alloc: Global,
    definitions: &mut Definitions,
    lists: &mut Lists,
    name: &Name,
    above: Vec<Name>,
    has_shared_slots: bool,
) -> Result<Changed, ClassFault>
    requires { length lists.old.kept ≡ length definitions.old.names }
    ensures ok { OnOk result (definitions.new ≡ with_class definitions.old name.now above.items) }
    ensures class { IfOk result (λ r. r.class.0 ≡ number_of definitions.old name.now) }
    ensures tells { OnOk result (Tells definitions.old lists.old → Tells definitions.new lists.new) }
    ensures well { OnOk result (Tells definitions.old lists.old → misplaced definitions.new (number_of definitions.old name.now) name.now (has_shared_slots || not (is_lacking (listing definitions.old (number_of definitions.old name.now)))) ≡ None) }
    ensures consistent { OnOk result (Tells definitions.old lists.old → IsConsistent definitions.old → IsConsistent definitions.new) }
    ensures changed { IfOk result (λ r. Tells definitions.old lists.old → numbers r.lists.items ≡ changed definitions.old definitions.new) }
    ensures err { OnErr result (definitions.new ≡ definitions.old) }
    ensures same { OnErr result (Tells definitions.old lists.old → Tells definitions.old lists.new) }
    ensures fault { IfErr result (λ e. Tells definitions.old lists.old → Refuses e (misplaced (with_class definitions.old name.now above.items) (number_of definitions.old name.now) name.now (has_shared_slots || not (is_lacking (listing definitions.old (number_of definitions.old name.now)))))) }
{
    let _rows = definitions.len();
    let put = definitions.put(name.copy()?, above)?;
    let whole = must_be_complete(lists.as_slice(), put.class, has_shared_slots);
    match lists.place(alloc, definitions, put.class, name, whole) {
        Ok(changed) => Ok(Changed {
            class: put.class,
            lists: changed,
        }),
        Err(fault) => {
            definitions.take_back(put);
            Err(fault)
        }
    }
}

/// What there would be to say of all classes, if this one were defined among the others, which stay as they were.
pub fn check_place(
    alloc: Global,
    definitions: &mut Definitions,
    lists: &mut Lists,
    name: &Name,
    above: Vec<Name>,
    has_shared_slots: bool,
) -> Result<Preview, ClassFault>
    requires { length lists.old.kept ≡ length definitions.old.names }
    ensures ok { OnOk result (Tells definitions.old lists.old → misplaced (with_class definitions.old name.now above.items) (number_of definitions.old name.now) name.now (has_shared_slots || not (is_lacking (listing definitions.old (number_of definitions.old name.now)))) ≡ None) }
    ensures class { IfOk result (λ r. r.class ≡ number_of definitions.old name.now) }
    ensures own { IfOk result (λ r. has r.touched r.class ≡ true) }
    ensures lists { IfOk result (λ r. Tells definitions.old lists.old → r.listings ≡ map (λ n. listing (with_class definitions.old name.now above.items) n) r.touched) }
    ensures within { IfOk result (λ r. Tells definitions.old lists.old → (n : ℕ) → has r.touched n ≡ true → n < length (with_class definitions.old name.now above.items).names) }
    ensures others { IfOk result (λ r. Tells definitions.old lists.old → (n : ℕ) → has r.touched n ≡ false → listing (with_class definitions.old name.now above.items) n ≡ listing definitions.old n) }
    ensures free { IfOk result (λ r. Tells definitions.old lists.old → (n : ℕ) → has r.touched n ≡ false → has (list_in (listing definitions.old n)) r.class ≡ false) }
    ensures fault { IfErr result (λ e. Tells definitions.old lists.old → Refuses e (misplaced (with_class definitions.old name.now above.items) (number_of definitions.old name.now) name.now (has_shared_slots || not (is_lacking (listing definitions.old (number_of definitions.old name.now)))))) }
    ensures same { definitions.new ≡ definitions.old }
    ensures kept { lists.new ≡ lists.old }
{
    let _rows = definitions.len();
    let put = definitions.put(name.copy()?, above)?;
    let whole = must_be_complete(lists.as_slice(), put.class, has_shared_slots);
    let found = lists.preview(alloc, definitions, put.class, name, whole);
    definitions.take_back(put);
    found
}
