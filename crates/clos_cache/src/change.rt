//! What a change of definitions concerns.
ghost use Rattle.std.specs.Prelude.{◌≡◌, true, nat_eq};
ghost use Rattle.std.specs.List.{list_any};
ghost use Rattle.clos_cache.specs.Cache.{Drops, concerns, has_class};
ghost use Rattle.clos_cache.specs.CacheView.{Indexes, kept_in, kept_of};
ghost use Rattle.clos_cache.specs.ChangeView.{ConcernedAt, change_of, concerned_at, numbers_of};
ghost use Rattle.clos_cache.specs.KeyView.{arguments_in};

use crate::cache::Entry;
use crate::key::{Argument, Key};
use indexmap::IndexMap;
use lisp_data::{ClassId, GenericId, Name};
use slab::Slab;

/// A change of definitions, as far as it concerns what is kept.
#[derive(Clone, Copy)]
pub enum Change<'a> {
    /// A generic function or its methods.
    Generic(GenericId),
    /// The method combination of this name.
    Combination(&'a Name),
    /// The precedence lists of these classes.
    Classes(&'a [ClassId]),
}

fn is_among(class: ClassId, classes: &[ClassId]) -> bool
    ensures { result ≡ list_any (nat_eq class.0) (numbers_of classes.now) }
{
    let mut left = classes;
    while let Some((first, others)) = left.split_first() {
        if class.0 == first.0 {
            return true;
        }
        left = others;
    }
    false
}

/// Whether one of the arguments is of one of these classes.
fn has_class(arguments: &[Argument], classes: &[ClassId]) -> bool
    ensures { result ≡ has_class (numbers_of classes.now) (arguments_in arguments.now) }
{
    let mut left = arguments;
    while let Some((first, others)) = left.split_first() {
        if is_among(first.class, classes) {
            return true;
        }
        left = others;
    }
    false
}

/// Whether a change concerns what is kept under a key.
fn concerns<T>(change: &Change<'_>, key: &Key, entry: &Entry<T>) -> bool
    ensures { result ≡ concerns (change_of change.now) key.now (kept_of entry.now) }
{
    match change {
        Change::Generic(generic) => key.generic().0 == generic.0,
        Change::Combination(name) => name.is(&entry.combination),
        Change::Classes(classes) => has_class(key.arguments(), classes),
    }
}

/// Whether a change concerns what the index has at a place of its own.
fn is_concerned_at<T>(
    entries: &Slab<Entry<T>>,
    index: &IndexMap<Key, usize>,
    at: usize,
    change: &Change<'_>,
) -> bool
    ensures test { result ≡ concerned_at (change_of change.now) index.now.entries entries.now at }
    ensures found { result ≡ true → ConcernedAt (change_of change.now) index.now.entries entries.now at }
{
    match index.get_index(at) {
        None => false,
        Some((key, place)) => match entries.get(*place) {
            None => false,
            Some(entry) => concerns(change, key, entry),
        },
    }
}

/// Drops what a change concerns, and nothing else. It takes no memory.
pub(crate) fn drop_concerned<T: Drop>(
    entries: &mut Slab<Entry<T>>,
    index: &mut IndexMap<Key, usize>,
    change: &Change<'_>,
)
    requires { Indexes index.old.entries entries.old }
    ensures fits { Indexes index.new.entries entries.new }
    ensures drops { Drops (change_of change.now) (kept_in index.old.entries entries.old) (kept_in index.new.entries entries.new) }
{
    let mut left = index.len();
    while left > 0 {
        left -= 1;
        if is_concerned_at(entries, index, left, change) {
            if let Some((key, place)) = index.swap_remove_index(left) {
                drop(key);
                entries.try_remove(place);
            }
        }
    }
}
