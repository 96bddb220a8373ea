//! Which element of a malformed form is malformed: each is tried in a form that has little else.
use crate::part::{Part, after_lambda_list, called_name, elements};
use clos_forms::{Context, SyntaxFault, is_the, parse_form};
use clos_names::is_definition;
use clos_top::parse_top;
use lisp_data::{Data, Datum, ListFault, Name};
use std::alloc::{AllocError, Global};

/// An element of a form: what it is, where it stands in the form, and itself.
#[derive(Drop)]
pub struct Broken {
    pub what: &'static str,
    pub path: Vec<usize>,
    pub datum: Datum,
}

/// A form that is tried.
#[derive(Drop)]
struct Trial {
    alloc: Global,
    context: Context,
    items: Vec<Datum>,
}

impl Trial {
    /// One with the first elements of a form, and then so often NIL.
    fn new(
        alloc: Global,
        context: Context,
        items: &[Datum],
        count: usize,
        nils: usize,
    ) -> Result<Trial, AllocError> {
        let mut copies = Vec::new(alloc);
        for item in items.iter().take(count) {
            copies.push(item.copy()?)?;
        }
        for _ in 0..nils {
            copies.push(Datum::Sym(Name::fixed(&"NIL")))?;
        }
        Ok(Trial {
            alloc,
            context,
            items: copies,
        })
    }

    fn with(mut self, item: Datum) -> Result<Trial, AllocError> {
        self.items.push(item)?;
        Ok(self)
    }

    /// The list of its elements.
    fn list(mut self) -> Result<Datum, AllocError> {
        let mut rest = Data::new();
        for _ in 0..self.items.len() {
            let Some(last) = self.items.pop() else {
                break;
            };
            rest = match Data::cons(self.alloc, last, rest) {
                Ok(longer) => longer,
                Err(ListFault::Limit) => Data::new(),
                Err(ListFault::Memory) => return Err(AllocError),
            };
        }
        Ok(Datum::List(rest))
    }

    /// Whether it is malformed.
    fn is_malformed(self) -> Result<bool, AllocError> {
        let alloc = self.alloc;
        let context = self.context;
        let form = self.list()?;
        let fault = match called_name(&form) {
            Some(name) if is_definition(name) => parse_top(alloc, &form).err(),
            _ => parse_form(alloc, context, &form).err(),
        };
        Ok(matches!(fault, Some(SyntaxFault::Program)))
    }
}

/// A list of one element.
fn list_of(alloc: Global, item: &Datum) -> Result<Datum, AllocError> {
    Trial::new(alloc, Context::Plain, &[], 0, 0)?
        .with(item.copy()?)?
        .list()
}

/// The first element that is malformed of the list at a place. Each is tried alone in that list, after so often NIL and what stands
/// before that in the form.
fn in_list(
    part: &Part,
    alloc: Global,
    what: &'static str,
    at: usize,
    nils: usize,
) -> Result<Option<Broken>, AllocError> {
    let items = elements(alloc, &part.form)?;
    let Some(list) = items.get(at) else {
        return Ok(None);
    };
    let first = at.saturating_sub(nils);
    for (place, item) in elements(alloc, list)?.iter().enumerate() {
        let trial = Trial::new(alloc, part.context, items.as_slice(), first, nils)?;
        if trial.with(list_of(alloc, item)?)?.is_malformed()? {
            return Ok(Some(Broken {
                what,
                path: Vec::from_slice(alloc, &[at, place])?,
                datum: item.copy()?,
            }));
        }
    }
    Ok(None)
}

/// The element at a place, where it is malformed after those before it, and with so often NIL after it.
fn at_place(
    part: &Part,
    alloc: Global,
    what: &'static str,
    at: usize,
    nils: usize,
) -> Result<Option<Broken>, AllocError> {
    let items = elements(alloc, &part.form)?;
    let Some(item) = items.get(at) else {
        return Ok(None);
    };
    let count = at.saturating_add(1);
    let trial = Trial::new(alloc, part.context, items.as_slice(), count, nils)?;
    if !trial.is_malformed()? {
        return Ok(None);
    }
    Ok(Some(Broken {
        what,
        path: Vec::from_slice(alloc, &[at])?,
        datum: item.copy()?,
    }))
}

/// The first option that is malformed, of those from a place on. Each is tried after so many first elements, and then so often NIL.
fn option(
    part: &Part,
    alloc: Global,
    from: usize,
    first: usize,
    nils: usize,
) -> Result<Option<Broken>, AllocError> {
    let items = elements(alloc, &part.form)?;
    for (place, item) in items.iter().enumerate() {
        if place >= from {
            let trial = Trial::new(alloc, part.context, items.as_slice(), first, nils)?;
            if trial.with(item.copy()?)?.is_malformed()? {
                return Ok(Some(Broken {
                    what: "the option ",
                    path: Vec::from_slice(alloc, &[place])?,
                    datum: item.copy()?,
                }));
            }
        }
    }
    Ok(None)
}

fn in_class(part: &Part, alloc: Global) -> Result<Option<Broken>, AllocError> {
    if let Some(found) = at_place(part, alloc, "the list of superclasses ", 2, 1)? {
        return Ok(Some(found));
    }
    if let Some(found) = in_list(part, alloc, "the slot ", 3, 1)? {
        return Ok(Some(found));
    }
    option(part, alloc, 4, 2, 2)
}

fn in_generic(part: &Part, alloc: Global) -> Result<Option<Broken>, AllocError> {
    if let Some(found) = at_place(part, alloc, "the lambda list ", 2, 0)? {
        return Ok(Some(found));
    }
    option(part, alloc, 3, 3, 0)
}

/// The first element of a malformed form that is malformed by itself, where that can be told.
pub fn find_broken(alloc: Global, part: &Part) -> Result<Option<Broken>, AllocError> {
    let Some(name) = called_name(&part.form) else {
        return Ok(None);
    };
    if is_the(name, "DEFCLASS") {
        return in_class(part, alloc);
    }
    if is_the(name, "DEFGENERIC") {
        return in_generic(part, alloc);
    }
    if is_the(name, "DEFUN") {
        return at_place(part, alloc, "the lambda list ", 2, 0);
    }
    if is_the(name, "DEFMETHOD") {
        let items = elements(alloc, &part.form)?;
        let after = after_lambda_list(items.as_slice(), 2);
        return at_place(part, alloc, "the lambda list ", after.saturating_sub(1), 0);
    }
    if is_the(name, "LET") || is_the(name, "LET*") {
        return in_list(part, alloc, "the binding ", 1, 0);
    }
    Ok(None)
}
