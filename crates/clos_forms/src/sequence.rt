//! Things in order.
ghost use Rattle.std.specs.Prelude.{◌≡◌, ◌++◌, ◌∷◌, [], OnOk, length};
ghost use Rattle.clos_forms.specs.Fault.{Gives};
ghost use Rattle.clos_forms.specs.Sequence.{single, the_one};

use crate::fault::SyntaxFault;
use std::alloc::{AllocError, Global};
use std::marker::Model;

/// Things in order. Contracts see the list.
#[derive(Drop)]
pub struct Sequence<T> {
    items: Vec<T>,
}

impl<T> Model for Sequence<T> {
    ghost use Rattle.std.specs.Prelude.{List};
    ghost use Rattle.std.specs.Coded.{coded_list};

    ghost Value = { List T };

    ghost coded = { coded_list T.code };

    ghost view = { λ a. a.items.items };
}

impl<T> Sequence<T> {
    /// None yet.
    pub fn new(alloc: Global) -> Sequence<T>
        ensures { result ≡ [] }
    {
        Sequence {
            items: Vec::new(alloc),
        }
    }

    /// Adds one at the end.
    pub fn push(&mut self, item: T) -> Result<(), AllocError>
    where
        T: Drop,
        ensures { OnOk result (self.new ≡ self.old ++ item ∷ []) }
    {
        self.items.push(item)?;
        Ok(())
    }

    /// Moves these to the end.
    pub fn append(&mut self, more: Sequence<T>) -> Result<(), AllocError>
    where
        T: Drop,
        ensures { OnOk result (self.new ≡ self.old ++ more) }
    {
        let Sequence { mut items } = more;
        self.items.append(&mut items)
    }

    /// The only one, where there is one; several are a fault.
    pub fn into_single(self) -> Result<Option<T>, SyntaxFault>
    where
        T: Drop,
        ensures { Gives (λ x. x) result (single self) }
    {
        let Sequence { mut items } = self;
        match items.pop() {
            None => Ok(None),
            Some(last) => match items.pop() {
                None => Ok(Some(last)),
                Some(_) => Err(SyntaxFault::Program),
            },
        }
    }

    /// The one thing; none and several are a fault.
    pub fn into_one(self) -> Result<T, SyntaxFault>
    where
        T: Drop,
        ensures { Gives (λ x. x) result (the_one self) }
    {
        match self.into_single() {
            Err(fault) => Err(fault),
            Ok(None) => Err(SyntaxFault::Program),
            Ok(Some(item)) => Ok(item),
        }
    }

    /// All of them, as a vector.
    pub fn into_items(self) -> Vec<T>
    where
        T: Drop,
        ensures { result.items ≡ self }
    {
        let Sequence { items } = self;
        items
    }

    /// Their number.
    pub fn len(&self) -> usize
        ensures { result ≡ length self.now }
    {
        self.items.len()
    }

    /// All of them.
    pub fn as_slice(&self) -> &[T]
        ensures { result.now ≡ self.now }
    {
        self.items.as_slice()
    }
}
