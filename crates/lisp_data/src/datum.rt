//! The data that a reader makes of a text.
ghost use Rattle.std.specs.Prelude.{◌≡◌, ◌≤◌, ◌<◌, ◌+◌, IfOk, MatchOption, MatchResult};
ghost use Rattle.lisp_data.specs.Limits.{OnLimit, most_nesting};
ghost use Rattle.lisp_data.specs.Datum.{Dats, nil, cons, length_of, nesting_of, nesting_in, nesting_of_dot};
ghost use Rattle.lisp_data.specs.DatumView.{datum_of, data_of};

use crate::ids::MethodId;
use crate::limits::{ListFault, MAX_NESTING};
use crate::name::Name;
use crate::text::Text;
use std::alloc::{AllocError, Global};
use std::marker::Model;
use std::rc::Rc;

/// A datum (HyperSpec 2). The empty list is the symbol NIL.
#[cycle(datum)]
#[derive(Drop)]
pub enum Datum {
    Int(i64),
    Sym(Name),
    Str(Text),
    List(Data),
    Dotted(Dot),
    Method(MethodId),
}

impl Datum {
    /// The same datum, in a few steps whatever its size.
    pub fn copy(&self) -> Result<Datum, AllocError>
        ensures { IfOk result (λ r. datum_of r ≡ datum_of self.now) }
    {
        match self {
            Datum::Int(number) => Ok(Datum::Int(*number)),
            Datum::Sym(name) => Ok(Datum::Sym(name.copy()?)),
            Datum::Str(text) => Ok(Datum::Str(text.copy()?)),
            Datum::List(items) => Ok(Datum::List(items.copy()?)),
            Datum::Dotted(dot) => Ok(Datum::Dotted(dot.copy()?)),
            Datum::Method(id) => Ok(Datum::Method(*id)),
        }
    }

    /// How deep lists nest in it: an atom nests none.
    pub fn nesting(&self) -> u64
        ensures value { result ≡ nesting_of (datum_of self.now) }
        ensures most { result ≤ most_nesting }
    {
        match self {
            Datum::List(items) => items.nesting(),
            Datum::Dotted(dot) => dot.nesting(),
            _ => 0,
        }
    }
}

/// The elements of a list, nested at most `MAX_NESTING` deep. It shares its tails with other lists, and knows its
/// length and nesting. Contracts see the list.
#[cycle(datum)]
pub struct Data {
    first: Link,
    length: u64,
    nesting: u16,
}

/// The elements of a list before its dot, and what stands after it, nested at most `MAX_NESTING` deep. Contracts see both.
#[cycle(datum)]
#[derive(Drop)]
pub struct Dot {
    front: Data,
    last: Rc<Datum>,
    depth: u16,
}

#[cycle(datum)]
#[derive(Drop)]
enum Link {
    End,
    More(Rc<Pair>),
}

#[cycle(datum)]
#[derive(Drop)]
struct Pair {
    head: Datum,
    tail: Data,
}

impl Model for Data {
    ghost use Rattle.std.specs.Prelude.{◌≡◌, ◌≤◌};
    ghost use Rattle.lisp_data.specs.Datum.{Dats, size_of_data, length_of, nesting_in};
    ghost use Rattle.lisp_data.specs.inner.DatumCode.{data_code};
    ghost use Rattle.lisp_data.specs.Limits.{most_nesting};

    ghost Value = { Dats };

    ghost coded = { data_code };

    ghost use Rattle.lisp_data.specs.DatumView.{data_of};

    ghost view = { λ a. data_of a.first };

    ghost invariant = { λ a. (a.length ≡ length_of (data_of a.first)) × (a.nesting ≡ nesting_in (data_of a.first))
        × (a.nesting ≤ most_nesting) };

    ghost size = { size_of_data };
}

impl Model for Dot {
    ghost use Rattle.std.specs.Prelude.{◌≡◌, ◌≤◌, ◌+◌, max};
    ghost use Rattle.lisp_data.specs.Datum.{size_of_dot, nesting_of, nesting_in};
    ghost use Rattle.lisp_data.specs.inner.DatumCode.{dot_code};
    ghost use Rattle.lisp_data.specs.Limits.{most_nesting};
    ghost use Rattle.lisp_data.specs.Datum as of;

    ghost Value = { of.Dot };

    ghost coded = { dot_code };

    ghost use Rattle.lisp_data.specs.DatumView.{datum_of};

    ghost view = { λ a. record { front = a.front; last = datum_of a.last.value } };

    ghost invariant = { λ a. (a.depth ≡ max (nesting_in a.front) (nesting_of (datum_of a.last.value) + 1))
        × (a.depth ≤ most_nesting) };

    ghost size = { size_of_dot };
}

impl Data {
    /// The empty list.
    pub fn new() -> Data
        ensures { result ≡ nil }
    {
        Data {
            first: Link::End,
            length: 0,
            nesting: 0,
        }
    }

    /// The number of elements.
    pub fn len(&self) -> u64
        ensures { result ≡ length_of self.now }
    {
        self.length
    }

    /// How deep lists nest in it, itself included: the empty list nests none.
    pub fn nesting(&self) -> u64
        ensures value { result ≡ nesting_in self.now }
        ensures most { result ≤ most_nesting }
    {
        u64::from(self.nesting)
    }

    /// The list with this element before the others, where it is not too deep.
    pub fn cons(alloc: Global, head: Datum, tail: Data) -> Result<Data, ListFault>
        ensures { MatchResult result
            (λ r. r ≡ cons (datum_of head) tail)
            (λ e. OnLimit e (most_nesting < nesting_in (cons (datum_of head) tail))) }
    {
        let nesting = tail.nesting().max(head.nesting() + 1);
        if nesting > MAX_NESTING {
            return Err(ListFault::Limit);
        }
        // No memory holds so many elements.
        let Some(length) = tail.len().checked_add(1) else {
            return Err(ListFault::Memory);
        };
        let pair = Rc::new(alloc, Pair { head, tail })?;
        Ok(Data {
            first: Link::More(pair),
            length,
            nesting: nesting as u16,
        })
    }

    /// The first element and the others, or None of the empty list.
    pub fn split_first(&self) -> Option<(&Datum, &Data)>
        ensures { MatchOption result (self.now ≡ nil) (λ p. self.now ≡ cons (datum_of p.0.now) p.1.now) }
    {
        match &self.first {
            Link::End => None,
            Link::More(pair) => Some((&pair.head, &pair.tail)),
        }
    }

    /// The same list, in a few steps whatever its length.
    pub fn copy(&self) -> Result<Data, AllocError>
        ensures { IfOk result (λ r. r ≡ self.now) }
    {
        match &self.first {
            Link::End => Ok(Data::new()),
            Link::More(pair) => Ok(Data {
                first: Link::More(pair.clone()?),
                length: self.length,
                nesting: self.nesting,
            }),
        }
    }

    fn into_first(self) -> Link
        ensures { data_of result ≡ self }
    {
        let Data {
            first,
            length: _,
            nesting: _,
        } = self;
        first
    }
}

impl Dot {
    /// The list of these elements that ends in this atom, where it is not too deep.
    pub fn new(alloc: Global, front: Data, last: Datum) -> Result<Dot, ListFault>
        ensures { MatchResult result
            (λ r. r ≡ record { front = front; last = datum_of last })
            (λ e. OnLimit e (most_nesting < nesting_of_dot (record { front = front; last = datum_of last }))) }
    {
        let nesting = front.nesting().max(last.nesting() + 1);
        if nesting > MAX_NESTING {
            return Err(ListFault::Limit);
        }
        let last = Rc::new(alloc, last)?;
        Ok(Dot {
            front,
            last,
            depth: nesting as u16,
        })
    }

    /// How deep lists nest in it, itself included.
    pub fn nesting(&self) -> u64
        ensures value { result ≡ nesting_of_dot self.now }
        ensures most { result ≤ most_nesting }
    {
        u64::from(self.depth)
    }

    /// The same elements and atom, in a few steps whatever their number.
    pub fn copy(&self) -> Result<Dot, AllocError>
        ensures { IfOk result (λ r. r ≡ self.now) }
    {
        Ok(Dot {
            front: self.front.copy()?,
            last: self.last.clone()?,
            depth: self.depth,
        })
    }

    /// The elements before the dot.
    pub fn front(&self) -> &Data
        ensures { result.now ≡ self.now.front }
    {
        &self.front
    }

    /// The atom after the dot.
    pub fn last(&self) -> &Datum
        ensures { datum_of result.now ≡ self.now.last }
    {
        &self.last
    }
}

impl Drop for Data {
    #[cycle(datum)]
    fn drop(self) {
        let Data {
            first,
            length: _,
            nesting: _,
        } = self;
        let mut link = first;
        loop {
            match link {
                Link::End => return,
                Link::More(pair) => match Rc::into_inner(pair) {
                    None => return,
                    Some(Pair { head, tail }) => {
                        drop(head);
                        link = tail.into_first();
                    }
                },
            }
        }
    }
}
