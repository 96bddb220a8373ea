//! What is kept of all classes: what each has by its class precedence list.
ghost use Rattle.std.specs.Prelude.{◌≡◌, ◌<◌, ◌≤◌, ℕ, true, IfOk, length, option_copied, vec_capacity, vec_len};
ghost use Rattle.clos_precedence.specs.Precedence.{has};
ghost use Rattle.clos_precedence.specs.PrecedenceView.{numbers};
ghost use Rattle.clos_class.specs.inner.Keeping.{Tells, kept_at, len_with, list_then, lists_of, put_each, with_place};
ghost use Rattle.clos_class.specs.SlotsView.{defaults, direct_slots};
ghost use Rattle.clos_class.specs.Table.{with_row};

use crate::direct::ClassSlots;
use crate::effective::{Effective, find_effective};
use crate::rows::Rows;
use clos_hierarchy::{Hierarchy, Preview};
use lisp_data::ClassId;
use std::alloc::{AllocError, Global};
use std::rc::Rc;

/// What is kept of the class at this place.
pub fn kept_at(kept: &[Option<Rc<Effective>>], place: usize) -> Option<&Rc<Effective>>
    ensures { option_copied result ≡ kept_at kept.now place }
{
    match kept.get(place) {
        None => None,
        Some(kept) => kept.as_ref(),
    }
}

/// What is to be kept of the classes that a definition touches, which says this of slots.
pub fn keep_then(
    alloc: Global,
    rows: &[ClassSlots],
    preview: &Preview,
    said: &ClassSlots,
) -> Result<Vec<Option<Rc<Effective>>>, AllocError>
    requires { preview.now.class ≤ length rows.now }
    ensures each { IfOk result (λ r. (n : ℕ) → n < length preview.now.touched → Tells (direct_slots (with_row rows.now preview.now.class said.now)) (defaults (with_row rows.now preview.now.class said.now)) (list_then preview.now n) (kept_at r.items n)) }
    ensures len { IfOk result (λ r. length r.items ≡ length preview.now.touched) }
{
    let classes = Rows::with(rows, preview.class(), said);
    let mut then = Vec::new(alloc);
    let mut place = 0;
    while place < preview.touched().len() {
        then.push(find_effective(alloc, &classes, preview.list_at(place))?)?;
        place += 1;
    }
    Ok(then)
}

/// Has a place for this class, which is the last where it is new.
fn reach(kept: &mut Vec<Option<Rc<Effective>>>, class: ClassId)
    requires { vec_len kept.old < vec_capacity kept.old }
    ensures { kept.new.items ≡ with_place kept.old.items class.0 }
{
    if class.0 < kept.len() as u64 {
        return;
    }
    let Ok(()) = kept.push(None) else {
        unreachable!()
    };
}

/// Keeps these in the places of classes.
fn put_each(
    kept: &mut Vec<Option<Rc<Effective>>>,
    places: &[ClassId],
    found: Vec<Option<Rc<Effective>>>,
)
    requires within { (n : ℕ) → has (numbers places.now) n ≡ true → n < length kept.old.items }
    requires each { length found.items ≡ length places.now }
    ensures { kept.new.items ≡ put_each (numbers places.now) found.items kept.old.items }
{
    let mut found = found;
    let mut left = places;
    while let Some((class, others)) = left.split_last() {
        let Some(last) = found.pop() else {
            unreachable!()
        };
        kept[class.0 as usize] = last;
        left = others;
    }
}

/// Keeps what the classes have that a definition of this one touches.
pub fn keep(
    kept: &mut Vec<Option<Rc<Effective>>>,
    class: ClassId,
    touched: &[ClassId],
    found: Vec<Option<Rc<Effective>>>,
)
    requires room { vec_len kept.old < vec_capacity kept.old }
    requires within { (n : ℕ) → has (numbers touched.now) n ≡ true → n < len_with (length kept.old.items) class.0 }
    requires each { length found.items ≡ length touched.now }
    ensures { kept.new.items ≡ put_each (numbers touched.now) found.items (with_place kept.old.items class.0) }
{
    reach(kept, class);
    put_each(kept, touched, found);
}

/// What is kept of all classes from the start.
pub fn keep_first(
    alloc: Global,
    table: &Hierarchy,
    rows: &[ClassSlots],
) -> Result<Vec<Option<Rc<Effective>>>, AllocError>
    ensures each { IfOk result (λ r. (n : ℕ) → n < length rows.now → Tells (direct_slots rows.now) (defaults rows.now) (lists_of table.now.classes n) (kept_at r.items n)) }
    ensures len { IfOk result (λ r. length r.items ≡ length rows.now) }
{
    let classes = Rows::kept(rows);
    let mut first = Vec::new(alloc);
    let mut place = 0;
    while place < rows.len() {
        let list = table.precedence_or_none(ClassId(place as u64));
        first.push(find_effective(alloc, &classes, list)?)?;
        place += 1;
    }
    Ok(first)
}
