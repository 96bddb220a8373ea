//! A list with places that are reserved in it.
ghost use Rattle.std.specs.Prelude.{◌≡◌, ◌<◌, ◌≤◌, ◌∷◌, ◌++◌, suc, [], OnOk, length};

use std::alloc::{AllocError, Global};
use std::marker::Model;

/// A list, and how many more there is room for.
#[derive(Drop)]
pub struct Reserved<T> {
    items: Vec<T>,
    room: usize,
}

impl<T> Model for Reserved<T> {
    ghost use Rattle.std.specs.Prelude.{◌≤◌, ◌+◌, vec_len, vec_capacity};
    ghost use Rattle.clos_watch.specs.Reserved.{Places};

    ghost Value = { Places T };

    ghost view = { λ a. record { items = a.items.items; room = a.room } };

    ghost invariant = { λ a. vec_len a.items + a.room ≤ vec_capacity a.items };
}

impl<T: Drop> Reserved<T> {
    /// An empty list without room.
    pub fn new(alloc: Global) -> Reserved<T>
        ensures { (result.items ≡ []) × (result.room ≡ 0) }
    {
        Reserved {
            items: Vec::new(alloc),
            room: 0,
        }
    }

    /// Has room for so many more.
    pub fn prepare(&mut self, count: usize) -> Result<(), AllocError>
        ensures ok { OnOk result (count ≤ self.new.room) }
        ensures items { self.new.items ≡ self.old.items }
        ensures room { self.old.room ≤ self.new.room }
    {
        if count <= self.room {
            return Ok(());
        }
        self.items.reserve(count)?;
        self.room = count;
        Ok(())
    }

    /// Adds one, for which there is room.
    pub fn push(&mut self, item: T)
        requires { 0 < self.old.room }
        ensures items { self.new.items ≡ self.old.items ++ item ∷ [] }
        ensures room { suc self.new.room ≡ self.old.room }
    {
        self.room -= 1;
        let _ = self.items.push(item);
    }

    /// How many stand in it.
    pub fn len(&self) -> usize
        ensures { result ≡ length self.now.items }
    {
        self.items.len()
    }

    /// What stands in it.
    pub fn as_slice(&self) -> &[T]
        ensures { result.now ≡ self.now.items }
    {
        self.items.as_slice()
    }
}
