//! The values that forms give.
ghost use Rattle.std.specs.Prelude.{◌≡◌, ◌≤◌, IfOk, MatchOption, MatchResult};
ghost use Rattle.lisp_data.specs.Limits.{OnLimit, most_elements, most_nesting};
ghost use Rattle.lisp_data.specs.Value.{Vals, nil, cons, length_of, nesting_of, nesting_in, IsWithinLimits};
ghost use Rattle.lisp_data.specs.ValueView.{value_of, items_of};

use crate::ids::{ClassId, GenericId, InstanceId, MethodId};
use crate::limits::{ListFault, MAX_ELEMENTS, MAX_NESTING};
use crate::name::Name;
use crate::text::Text;
use std::alloc::{AllocError, Global};
use std::marker::Model;
use std::rc::Rc;

/// A value of the language (HyperSpec 4.2). NIL is the empty list.
#[cycle(value)]
pub enum Value {
    Int(i64),
    Sym(Name),
    Str(Text),
    List(Items),
    Class(ClassId),
    Generic(GenericId),
    Method(MethodId),
    Instance(InstanceId),
}

impl Value {
    /// The same value, in a few steps whatever its size.
    pub fn copy(&self) -> Result<Value, AllocError>
        ensures { IfOk result (λ r. value_of r ≡ value_of self.now) }
    {
        match self {
            Value::Int(number) => Ok(Value::Int(*number)),
            Value::Sym(name) => Ok(Value::Sym(name.copy()?)),
            Value::Str(text) => Ok(Value::Str(text.copy()?)),
            Value::List(items) => Ok(Value::List(items.copy()?)),
            Value::Class(id) => Ok(Value::Class(*id)),
            Value::Generic(id) => Ok(Value::Generic(*id)),
            Value::Method(id) => Ok(Value::Method(*id)),
            Value::Instance(id) => Ok(Value::Instance(*id)),
        }
    }

    /// How deep lists nest in it: an atom nests none.
    pub fn nesting(&self) -> u64
        ensures value { result ≡ nesting_of (value_of self.now) }
        ensures most { result ≤ most_nesting }
    {
        match self {
            Value::List(items) => items.nesting(),
            _ => 0,
        }
    }
}

/// The elements of a list, at most `MAX_ELEMENTS`, nested at most `MAX_NESTING` deep. It shares its tails with other
/// lists, and knows its length and nesting. Contracts see the list.
#[cycle(value)]
pub struct Items {
    first: Link,
}

#[cycle(value)]
#[derive(Drop)]
enum Link {
    End,
    More(Rc<Pair>),
}

#[cycle(value)]
#[derive(Drop)]
struct Pair {
    head: Value,
    tail: Items,
    /// Of the list that begins here, like the nesting.
    length: u32,
    nesting: u16,
}

impl Model for Items {
    ghost use Rattle.lisp_data.specs.Value.{Vals, size_of_values, IsWithinLimits};
    ghost use Rattle.lisp_data.specs.inner.ValueCode.{values_code};

    ghost Value = { Vals };

    ghost coded = { values_code };

    ghost use Rattle.lisp_data.specs.ValueView.{items_of, KnowsItself};

    ghost view = { λ a. items_of a.first };

    ghost invariant = { λ a. KnowsItself a.first × IsWithinLimits (items_of a.first) };

    ghost size = { size_of_values };
}

impl Items {
    /// The empty list.
    pub fn new() -> Items
        ensures { result ≡ nil }
    {
        Items { first: Link::End }
    }

    /// The number of elements.
    pub fn len(&self) -> u64
        ensures value { result ≡ length_of self.now }
        ensures most { result ≤ most_elements }
    {
        match &self.first {
            Link::End => 0,
            Link::More(pair) => u64::from(pair.length),
        }
    }

    /// How deep lists nest in it, itself included: the empty list nests none.
    pub fn nesting(&self) -> u64
        ensures value { result ≡ nesting_in self.now }
        ensures most { result ≤ most_nesting }
    {
        match &self.first {
            Link::End => 0,
            Link::More(pair) => u64::from(pair.nesting),
        }
    }

    /// The list with this element before the others, where it is neither too long nor too deep.
    pub fn cons(alloc: Global, head: Value, tail: Items) -> Result<Items, ListFault>
        ensures { MatchResult result
            (λ r. (r ≡ cons (value_of head) tail) × IsWithinLimits r)
            (λ e. OnLimit e (¬ (IsWithinLimits (cons (value_of head) tail)))) }
    {
        let length = tail.len() + 1;
        let nesting = tail.nesting().max(head.nesting() + 1);
        if length > MAX_ELEMENTS || nesting > MAX_NESTING {
            return Err(ListFault::Limit);
        }
        let pair = Pair {
            head,
            tail,
            length: length as u32,
            nesting: nesting as u16,
        };
        let pair = Rc::new(alloc, pair)?;
        Ok(Items {
            first: Link::More(pair),
        })
    }

    /// The first element and the others, or None of the empty list.
    pub fn split_first(&self) -> Option<(&Value, &Items)>
        ensures { MatchOption result (self.now ≡ nil) (λ p. self.now ≡ cons (value_of p.0.now) p.1.now) }
    {
        match &self.first {
            Link::End => None,
            Link::More(pair) => Some((&pair.head, &pair.tail)),
        }
    }

    /// The same list, in a few steps whatever its length.
    pub fn copy(&self) -> Result<Items, AllocError>
        ensures { IfOk result (λ r. r ≡ self.now) }
    {
        match &self.first {
            Link::End => Ok(Items::new()),
            Link::More(pair) => Ok(Items {
                first: Link::More(pair.clone()?),
            }),
        }
    }

    fn into_first(self) -> Link
        ensures { items_of result ≡ self }
    {
        let Items { first } = self;
        first
    }
}

// Dropping a value is a call, so that what drops one does not ask of what kind it is.
impl Drop for Value {
    #[cycle(value)]
    fn drop(self) {
        match self {
            Value::Sym(name) => drop(name),
            Value::Str(text) => drop(text),
            Value::List(items) => drop(items),
            Value::Int(_) => {}
            Value::Class(_) => {}
            Value::Generic(_) => {}
            Value::Method(_) => {}
            Value::Instance(_) => {}
        }
    }
}

impl Drop for Items {
    #[cycle(value)]
    fn drop(self) {
        let Items { first } = self;
        let mut link = first;
        loop {
            match link {
                Link::End => return,
                Link::More(pair) => match Rc::into_inner(pair) {
                    None => return,
                    Some(
                        Pair {
                            head,
                            tail,
                            length: _,
                            nesting: _,
                        },
                    ) => {
                        drop(head);
                        link = tail.into_first();
                    }
                },
            }
        }
    }
}
