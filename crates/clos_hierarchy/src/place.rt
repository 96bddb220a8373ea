//! What a definition of a class makes of what is kept of the classes that it touches, or what is wrong with it.
ghost use Rattle.std.specs.Prelude.{◌≡◌, ◌&&◌, ℕ, List, None, IfErr, IfOk, OnErr, OnOk, length, map};
ghost use Rattle.clos_precedence.specs.PrecedenceView.{numbers};
ghost use Rattle.clos_hierarchy.specs.Classes.{Classes, is_broken, is_circular, is_lacking};
ghost use Rattle.clos_hierarchy.specs.Table.{misplaced, out_of_order};
ghost use Rattle.clos_hierarchy.specs.TableView.{Refuses};
ghost use Rattle.clos_hierarchy.specs.declared.kept.Kept.{Kept};
ghost use Rattle.clos_hierarchy.specs.inner.Exchange.{IsPlace, Replaces, reached, taken_out};
ghost use Rattle.clos_hierarchy.specs.inner.Kept.{Changes, Knows, Progress};
ghost use Rattle.clos_hierarchy.specs.inner.KeptView.{kept_at};
ghost use Rattle.clos_hierarchy.specs.inner.Told.{Tells, told};
ghost use Rattle.clos_hierarchy.specs.inner.Touched.{AreNoted, AreWithin, Ascends, Closes, NoneElse, OthersStay};

use crate::among::find_broken;
use crate::anew::find_anew;
use crate::below::Below;
use crate::cycle::is_circular;
use crate::definitions::Definitions;
use crate::direct::Direct;
use crate::exchange::exchange;
use crate::fault::ClassFault;
use crate::find::{is_broken, is_lacking};
use crate::kept::Kept;
use crate::touched::touched;
use lisp_data::{ClassId, Name};
use std::alloc::{AllocError, Global};

/// What is wrong with the lists after this class was defined, which has to be complete if `whole`, where those of the
/// classes at these places were found anew.
fn check(
    definitions: &Definitions,
    kept: &[Kept],
    places: &[ClassId],
    class: ClassId,
    name: &Name,
    whole: bool,
) -> Result<(), ClassFault>
    requires { Ascends (numbers places.now) }
    ensures ok { OnOk result (Knows definitions.now kept.now → NoneElse (numbers places.now) kept.now → out_of_order definitions.now class.0 name.now whole ≡ None) }
    ensures fault { IfErr result (λ e. Knows definitions.now kept.now → NoneElse (numbers places.now) kept.now → Refuses e (out_of_order definitions.now class.0 name.now whole)) }
{
    if whole && is_lacking(kept, class) {
        return Err(ClassFault::IncompleteClass);
    }
    if is_broken(kept, class) {
        return Err(ClassFault::InconsistentPrecedence(name.copy()?));
    }
    find_broken(definitions, kept, places)
}

/// Finds anew what there is to say of these classes, and answers what was kept of them, unless something is wrong then.
fn find_well(
    alloc: Global,
    definitions: &Definitions,
    kept: &mut Vec<Kept>,
    places: &[ClassId],
    class: ClassId,
    name: &Name,
    whole: bool,
) -> Result<Vec<Kept>, ClassFault>
    requires within { AreWithin (numbers places.now) kept.old.items }
    requires ordered { Ascends (numbers places.now) }
    ensures taken { IfOk result (λ r. r.items ≡ map (kept_at kept.old.items) (numbers places.now)) }
    ensures others { OnOk result (OthersStay (numbers places.now) kept.old.items kept.new.items) }
    ensures knows { OnOk result (Progress definitions.now (taken_out (numbers places.now) kept.old.items) → Closes definitions.now (numbers places.now) (taken_out (numbers places.now) kept.old.items) → Knows definitions.now kept.new.items) }
    ensures well { OnOk result (Progress definitions.now (taken_out (numbers places.now) kept.old.items) → Closes definitions.now (numbers places.now) (taken_out (numbers places.now) kept.old.items) → NoneElse (numbers places.now) kept.old.items → out_of_order definitions.now class.0 name.now whole ≡ None) }
    ensures err { OnErr result (kept.new.items ≡ kept.old.items) }
    ensures fault { IfErr result (λ e. Progress definitions.now (taken_out (numbers places.now) kept.old.items) → Closes definitions.now (numbers places.now) (taken_out (numbers places.now) kept.old.items) → NoneElse (numbers places.now) kept.old.items → Refuses e (out_of_order definitions.now class.0 name.now whole)) }
{
    let mut olds = find_anew(alloc, definitions, kept, places)?;
    match check(definitions, kept.as_slice(), places, class, name, whole) {
        Ok(()) => Ok(olds),
        Err(fault) => {
            exchange(kept, places, &mut olds);
            Err(fault)
        }
    }
}

/// Has a place for each of so many classes: of one that is new nothing is said.
fn reach(kept: &mut Vec<Kept>, len: usize) -> Result<(), AllocError>
    ensures ok { OnOk result (kept.new.items ≡ reached kept.old.items len) }
    ensures err { OnErr result (kept.new.items ≡ kept.old.items) }
{
    if kept.len() < len {
        kept.push(Kept::Lacking)?;
    }
    Ok(())
}

/// The classes of which something else is kept, and what was kept of them.
#[derive(Drop)]
pub struct Replaced {
    pub places: Vec<ClassId>,
    pub olds: Vec<Kept>,
}

/// Places a class that was just defined: finds anew what there is to say of the classes that it touches, unless it is
/// misplaced.
pub fn place(
    alloc: Global,
    definitions: &Definitions,
    kept: &mut Vec<Kept>,
    direct: &Direct,
    below: &Below,
    class: ClassId,
    name: &Name,
    whole: bool,
) -> Result<Replaced, ClassFault>
    requires class { IsPlace class.0 (length kept.old.items) (length definitions.now.names) }
    requires noted { AreNoted below.now kept.old.items }
    ensures replaced { IfOk result (λ r. Replaces (numbers r.places.items) class.0 r.olds.items kept.old.items kept.new.items) }
    ensures knows { OnOk result ((cs : Classes) → Tells cs (told kept.old.items direct.now) → Changes cs definitions.now class.0 → Knows definitions.now kept.new.items) }
    ensures well { OnOk result ((cs : Classes) → Tells cs (told kept.old.items direct.now) → Changes cs definitions.now class.0 → misplaced definitions.now class.0 name.now whole ≡ None) }
    ensures err { OnErr result (kept.new.items ≡ kept.old.items) }
    ensures fault { IfErr result (λ e. (cs : Classes) → Tells cs (told kept.old.items direct.now) → Changes cs definitions.now class.0 → Refuses e (misplaced definitions.now class.0 name.now whole)) }
{
    if is_circular(alloc, definitions, class)? {
        return Err(ClassFault::SuperclassCycle);
    }
    let places = touched(alloc, definitions, kept.as_slice(), direct, below, class)?;
    let len = kept.len();
    reach(kept, definitions.len())?;
    match find_well(
        alloc,
        definitions,
        kept,
        places.as_slice(),
        class,
        name,
        whole,
    ) {
        Ok(olds) => Ok(Replaced { places, olds }),
        Err(fault) => {
            kept.truncate(len);
            Err(fault)
        }
    }
}

/// Puts back what was kept of so many classes, and answers what was found in its place.
pub fn put_back(kept: &mut Vec<Kept>, replaced: Replaced, len: usize) -> Replaced
    requires within { AreWithin (numbers replaced.places.items) kept.old.items }
    requires each { length replaced.olds.items ≡ length replaced.places.items }
    requires ordered { Ascends (numbers replaced.places.items) }
    ensures back { (c : ℕ) (ks : List Kept) → Replaces (numbers replaced.places.items) c replaced.olds.items ks kept.old.items → length ks ≡ len → kept.new.items ≡ ks }
    ensures places { result.places.items ≡ replaced.places.items }
    ensures found { result.olds.items ≡ map (kept_at kept.old.items) (numbers replaced.places.items) }
{
    let Replaced { places, mut olds } = replaced;
    exchange(kept, places.as_slice(), &mut olds);
    kept.truncate(len);
    Replaced { places, olds }
}
