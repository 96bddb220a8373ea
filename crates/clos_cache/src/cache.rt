//! Outcomes that are kept, by their keys.
ghost use Rattle.std.specs.Prelude.{◌≡◌, ◌<◌, [], cond, None, Some, IsOk, IsSome, OnErr, OnOk, option_copied, option_map, slice_get};
ghost use Rattle.std.specs.Map.{lookup};
ghost use Rattle.slab.specs.Slab.{Updates, get, slab_len};
ghost use Rattle.indexmap.specs.IndexMap.{insert_entry, spare};
ghost use Rattle.clos_cache.specs.Key.{same_key};
ghost use Rattle.clos_cache.specs.CacheView.{Indexes, kept_in, kept_of};
ghost use Rattle.clos_cache.specs.Cache.{Drops, Keeps, found, of_classes, of_combination, of_generic};
ghost use Rattle.clos_cache.specs.ChangeView.{numbers_of};

use crate::change::{Change, drop_concerned};
use crate::key::Key;
use indexmap::IndexMap;
use lisp_data::{ClassId, GenericId, Name};
use slab::Slab;
use std::alloc::{AllocError, Global};
use std::marker::Model;
use std::rc::Rc;

/// An outcome with the name of the method combination under which it was built.
#[derive(Drop)]
pub struct Entry<T> {
    pub combination: Name,
    pub outcome: Rc<T>,
}

/// Outcomes by their keys. Contracts see the keys with what is kept under them.
#[derive(Drop)]
pub struct Cache<T> {
    entries: Slab<Entry<T>>,
    index: IndexMap<Key, usize>,
}

impl<T> Model for Cache<T> {
    ghost use Rattle.std.specs.Prelude.{List};
    ghost use Rattle.clos_cache.specs.Cache.{Kept};
    ghost use Rattle.clos_cache.specs.Key as keys;
    ghost use Rattle.clos_cache.specs.inner.CacheCode.{cache_code};

    ghost Value = { List (keys.Key × Kept T) };

    ghost coded = { cache_code T.code };

    ghost use Rattle.clos_cache.specs.CacheView.{Indexes, kept_in};

    ghost view = { λ a. kept_in a.index.entries a.entries };

    ghost invariant = { λ a. Indexes a.index.entries a.entries };
}

impl<T> Cache<T> {
    /// Nothing is kept yet.
    pub fn new(alloc: Global) -> Cache<T>
        ensures { result ≡ [] }
    {
        Cache {
            entries: Slab::new(alloc),
            index: IndexMap::new(alloc),
        }
    }

    /// The outcome that is kept under this key, if there is one.
    #[tactic(auto, using(crate::proofs::Finding::found_in))]
    pub fn find(&self, key: &Key) -> Option<&Rc<T>>
        ensures { option_map (λ o. o.now.value) result ≡ option_map (λ k. k.outcome) (found self.now key.now) }
    {
        match self.index.get(key) {
            None => None,
            Some(place) => match self.entries.get(*place) {
                None => None,
                Some(entry) => Some(&entry.outcome),
            },
        }
    }

    /// The key at a place of all that are kept, which stand in no order that means anything.
    #[tactic(auto, using(crate::proofs::Finding::key_at))]
    pub fn key(&self, place: usize) -> Option<&Key>
        ensures { option_copied result ≡ option_map (λ k. k.0) (slice_get self.now place) }
    {
        match self.index.get_index(place) {
            Some((key, _)) => Some(key),
            None => None,
        }
    }

    /// Keeps an outcome under this key, in place of an older one, with the name of the method combination under which it was
    /// built. In place of an older one takes no memory.
    #[tactic(auto, using(crate::proofs::Finding::found_in, crate::proofs::Keeping::replaced_there, crate::proofs::Keeping::replaced))]
    pub fn keep(&mut self, key: Key, combination: Name, outcome: Rc<T>) -> Result<(), AllocError>
    where
        T: Drop,
        ensures ok { OnOk result (Keeps key (record { combination = combination; outcome = outcome.value }) self.old self.new) }
        ensures err { OnErr result (self.new ≡ self.old) }
        ensures free { IsSome (found self.old key) → IsOk result }
    {
        let entry = Entry {
            combination,
            outcome,
        };
        match self.index.get(&key).copied() {
            Some(place) => {
                replace(&mut self.entries, place, entry);
                Ok(())
            }
            None => insert(&mut self.entries, &mut self.index, key, entry),
        }
    }

    /// Drops all that is kept. It takes no memory.
    pub fn clear(&mut self)
    where
        T: Drop,
        ensures { self.new ≡ [] }
    {
        self.index.clear();
        self.entries.clear();
    }

    /// Drops what is kept for calls of this generic function, and nothing else.
    pub fn drop_generic(&mut self, generic: GenericId)
    where
        T: Drop,
        ensures { Drops (of_generic generic.0) self.old self.new }
    {
        drop_concerned(
            &mut self.entries,
            &mut self.index,
            &Change::Generic(generic),
        );
    }

    /// Drops what was built under the method combination of this name, and nothing else.
    pub fn drop_combination(&mut self, name: &Name)
    where
        T: Drop,
        ensures { Drops (of_combination name.now) self.old self.new }
    {
        drop_concerned(
            &mut self.entries,
            &mut self.index,
            &Change::Combination(name),
        );
    }

    /// Drops what is kept for arguments of these classes, and nothing else.
    pub fn drop_classes(&mut self, classes: &[ClassId])
    where
        T: Drop,
        ensures { Drops (of_classes (numbers_of classes.now)) self.old self.new }
    {
        drop_concerned(
            &mut self.entries,
            &mut self.index,
            &Change::Classes(classes),
        );
    }
}

/// Puts an entry in the place of another. It takes no memory.
fn replace<T: Drop>(entries: &mut Slab<Entry<T>>, place: usize, entry: Entry<T>)
    requires { IsSome (get entries.old place) }
    ensures updates { Updates entries.old entries.new place (Some entry) }
    ensures len { slab_len entries.new ≡ slab_len entries.old }
{
    entries.try_remove(place);
    entries.insert_reserved(entry);
}

/// Adds an entry under a key that has none.
fn insert<T: Drop>(
    entries: &mut Slab<Entry<T>>,
    index: &mut IndexMap<Key, usize>,
    key: Key,
    entry: Entry<T>,
) -> Result<(), AllocError>
    requires fits { Indexes index.old.entries entries.old }
    requires new { lookup (same_key key) index.old.entries ≡ None }
    ensures fits { Indexes index.new.entries entries.new }
    ensures ok { OnOk result (Keeps key (kept_of entry) (kept_in index.old.entries entries.old) (kept_in index.new.entries entries.new)) }
    ensures err { OnErr result (kept_in index.new.entries entries.new ≡ kept_in index.old.entries entries.old) }
{
    index.reserve(1)?;
    entries.reserve(1)?;
    let place = entries.insert_reserved(entry);
    add_key(index, key, place);
    Ok(())
}

/// Adds a key, for which there is room.
fn add_key(index: &mut IndexMap<Key, usize>, key: Key, place: usize)
    requires { 0 < spare index.old }
    ensures entries { index.new.entries ≡ insert_entry same_key index.old.entries key place }
    ensures found { (other : _) → lookup (same_key other) index.new.entries ≡ cond (same_key key other) (Some place) (lookup (same_key other) index.old.entries) }
{
    let _ = index.insert(key, place);
}
