//! What a definition of a class needs, and what it makes of the classes, before it takes effect.
ghost use Rattle.std.specs.Prelude.{◌≡◌, ◌≤◌, ℕ, None, true, IfOk, IfErr, OnOk, length, map};
ghost use Rattle.lisp_data.specs.declared.ids.CellId.{CellId};
ghost use Rattle.clos_hierarchy.specs.Classes.{listing};
ghost use Rattle.clos_precedence.specs.Precedence.{has};
ghost use Rattle.clos_precedence.specs.PrecedenceView.{numbers};
ghost use Rattle.clos_hierarchy.specs.TableView.{Refuses};
ghost use Rattle.clos_class.specs.inner.Keeping.{TellsEach, Touches, lists_of};
ghost use Rattle.clos_class.specs.Slots.{initform};
ghost use Rattle.clos_class.specs.SlotsView.{defaults, direct_slots, slots_in};
ghost use Rattle.clos_class.specs.Table.{cells_from, cells_to_make, classes_with, list_with, number, refusal, said_from, with_row};

use crate::cells::Cells;
use crate::definition::{has_shared_slots, is_unambiguous};
use crate::direct::ClassSlots;
use crate::effective::Effective;
use crate::initforms::{copy_initform, initforms};
use crate::keep::keep_then;
use crate::names::{NameSet, copy_names};
use crate::rows::Rows;
use clos_defclass::ClassDefinition;
use clos_forms::{Form, Sequence};
use clos_hierarchy::{ClassFault, Hierarchy, Preview};
use lisp_data::{CellId, ClassId, Name};
use std::alloc::{AllocError, Global};
use std::rc::Rc;

/// A shared slot that needs a cell, and the form of its first value.
#[derive(Drop)]
pub struct NewCell {
    pub slot: Name,
    pub initform: Option<Form>,
}

/// The class that would be defined, and the slots that need new cells, in layout order.
#[derive(Drop)]
pub struct Reserved {
    pub class: ClassId,
    pub cells: Sequence<NewCell>,
}

/// The fault that a definition meets, or what there would be to say after it of the classes that it touches.
pub fn check(
    alloc: Global,
    table: &mut Hierarchy,
    definition: &ClassDefinition,
) -> Result<Preview, ClassFault>
    ensures ok { OnOk result (refusal table.old definition.now ≡ None) }
    ensures class { IfOk result (λ r. r.class ≡ number table.old definition.now) }
    ensures own { IfOk result (λ r. has r.touched r.class ≡ true) }
    ensures lists { IfOk result (λ r. r.listings ≡ map (λ n. listing (classes_with table.old definition.now) n) r.touched) }
    ensures touches { IfOk result (λ r. Touches table.old.classes (classes_with table.old definition.now) r.class r.touched) }
    ensures fault { IfErr result (λ e. Refuses e (refusal table.old definition.now)) }
    ensures same { table.new ≡ table.old }
{
    if !is_unambiguous(alloc, definition)? {
        return Err(ClassFault::ProgramError);
    }
    let superclasses = copy_names(alloc, definition.superclasses.as_slice())?;
    table.check(
        alloc,
        &definition.name,
        superclasses.into_items(),
        has_shared_slots(definition.slots.as_slice()),
    )
}

/// Slots with their initforms, for a class with this class precedence list.
fn with_initforms(
    alloc: Global,
    classes: &Rows<'_>,
    list: &[ClassId],
    slots: &[Name],
) -> Result<Sequence<NewCell>, AllocError>
    ensures { IfOk result (λ r. r ≡ map (λ n. record { slot = n; initform = initform (slots_in classes.now) (numbers list.now) n }) slots.now) }
{
    let initforms = initforms(alloc, classes, list)?;
    let mut cells = Sequence::new(alloc);
    let mut left = slots;
    while let Some((name, others)) = left.split_first() {
        cells.push(NewCell {
            slot: name.copy()?,
            initform: copy_initform(&initforms, name)?,
        })?;
        left = others;
    }
    Ok(cells)
}

/// The slots that need new cells where a class is defined, which has this class precedence list then.
pub fn cells_to_make(
    alloc: Global,
    rows: &[ClassSlots],
    class: ClassId,
    list: &[ClassId],
    definition: &ClassDefinition,
) -> Result<Sequence<NewCell>, AllocError>
    requires { class.0 ≤ length rows.now }
    ensures { IfOk result (λ r. r ≡ cells_to_make rows.now class.0 (numbers list.now) definition.now) }
{
    let cells = Cells::find(alloc, rows, class, list, definition)?;
    let said = cells.said(alloc, definition, &[])?;
    let classes = Rows::with(rows, class, &said);
    let found = with_initforms(alloc, &classes, list, cells.new.as_slice())?;
    Ok(found)
}

/// So many cells, numbered from this one on. There is no memory for more cells than there are numbers.
fn cells_from(alloc: Global, first: CellId, count: usize) -> Result<Vec<CellId>, AllocError>
    ensures { IfOk result (λ r. r.items ≡ cells_from first.0 count) }
{
    let mut cells = Vec::new(alloc);
    for place in 0..count {
        let Some(number) = first.0.checked_add(place as u64) else {
            return Err(AllocError);
        };
        cells.push(CellId(number))?;
    }
    Ok(cells)
}

/// What a definition says of slots, where the new cells are numbered from this one on.
fn find_said(
    alloc: Global,
    rows: &[ClassSlots],
    class: ClassId,
    list: &[ClassId],
    definition: &ClassDefinition,
    first: CellId,
) -> Result<ClassSlots, AllocError>
    requires { class.0 ≤ length rows.now }
    ensures { IfOk result (λ r. r ≡ said_from rows.now class.0 (numbers list.now) definition.now first.0) }
{
    let found = Cells::find(alloc, rows, class, list, definition)?;
    let cells = cells_from(alloc, first, found.new.len())?;
    let said = found.said(alloc, definition, &cells)?;
    Ok(said)
}

/// What stands in the table of classes once one is defined: what it says of slots, and what is kept of the classes that it
/// touches.
#[derive(Drop)]
pub struct Prepared {
    pub preview: Preview,
    pub said: ClassSlots,
    pub kept: Vec<Option<Rc<Effective>>>,
}

/// What stands in the table once a class is defined, whose new cells are numbered from this one on, or the fault that its
/// definition meets.
pub fn prepare(
    alloc: Global,
    table: &mut Hierarchy,
    rows: &[ClassSlots],
    definition: &ClassDefinition,
    first: CellId,
) -> Result<Prepared, ClassFault>
    requires { length rows.now ≡ length table.old.classes.names }
    ensures ok { OnOk result (refusal table.old definition.now ≡ None) }
    ensures class { IfOk result (λ r. r.preview.class ≡ number table.old definition.now) }
    ensures said { IfOk result (λ r. r.said ≡ said_from rows.now (number table.old definition.now) (list_with table.old definition.now) definition.now first.0) }
    ensures touches { IfOk result (λ r. Touches table.old.classes (classes_with table.old definition.now) r.preview.class r.preview.touched) }
    ensures kept { IfOk result (λ r. TellsEach (direct_slots (with_row rows.now r.preview.class r.said)) (defaults (with_row rows.now r.preview.class r.said)) (lists_of (classes_with table.old definition.now)) r.preview.touched r.kept.items) }
    ensures fault { IfErr result (λ e. Refuses e (refusal table.old definition.now)) }
    ensures same { table.new ≡ table.old }
{
    let preview = check(alloc, table, definition)?;
    let said = find_said(
        alloc,
        rows,
        preview.class(),
        preview.list(),
        definition,
        first,
    )?;
    let kept = keep_then(alloc, rows, &preview, &said)?;
    Ok(Prepared {
        preview,
        said,
        kept,
    })
}
