//! What arguments generic functions and methods take (HyperSpec 3.4.2, 7.6.4).
ghost use Rattle.std.specs.Prelude.{◌≡◌, [], IfOk, OnOk, ◌++◌, if◌then◌else◌, map, option_map};
ghost use Rattle.std.specs.List.{list_all, list_any};
ghost use Rattle.lisp_data.specs.Name.{same_name};
ghost use Rattle.clos_method.specs.Shape.{accepts, is_congruent, keywords_in, made_by, names_of, shape_of, takes_count, takes_more};

use clos_lambda::{Keys, LambdaList};
use lisp_data::Name;
use std::alloc::{AllocError, Global};
use std::marker::Model;
use std::rc::Rc;

/// Names that are copied by sharing them. Contracts see the list.
#[derive(Drop)]
pub struct SharedNames {
    shared: Option<Rc<Vec<Name>>>,
}

impl Model for SharedNames {
    ghost use Rattle.std.specs.Prelude.{List};
    ghost use Rattle.std.specs.Coded.{coded_list};
    ghost use Rattle.lisp_data.specs.Name.{Name};
    ghost use Rattle.lisp_data.specs.inner.NameCode.{name_code};

    ghost Value = { List Name };

    ghost coded = { coded_list name_code };

    ghost use Rattle.clos_method.specs.SharedNames.{names_in};

    ghost view = { λ a. names_in a.shared };
}

impl SharedNames {
    /// No names, which take no memory.
    pub fn none() -> SharedNames
        ensures { result ≡ [] }
    {
        SharedNames { shared: None }
    }

    /// These names.
    pub fn new(alloc: Global, names: Vec<Name>) -> Result<SharedNames, AllocError>
        ensures { IfOk result (λ r. r ≡ names.items) }
    {
        let shared = Rc::new(alloc, names)?;
        Ok(SharedNames {
            shared: Some(shared),
        })
    }

    /// The same names, in a few steps however many they are.
    pub fn copy(&self) -> Result<SharedNames, AllocError>
        ensures { IfOk result (λ r. r ≡ self.now) }
    {
        match &self.shared {
            None => Ok(SharedNames::none()),
            Some(names) => Ok(SharedNames {
                shared: Some(names.clone()?),
            }),
        }
    }

    /// The names.
    pub fn as_slice(&self) -> &[Name]
        ensures { result.now ≡ self.now }
    {
        match &self.shared {
            None => &[],
            Some(names) => names.as_slice(),
        }
    }

    /// Whether a name is among them.
    pub fn has(&self, name: &Name) -> bool
        ensures { result ≡ list_any (same_name name.now) self.now }
    {
        is_among(self.as_slice(), name)
    }
}

fn is_among(names: &[Name], name: &Name) -> bool
    ensures { result ≡ list_any (same_name name.now) names.now }
{
    names.iter().any(|other| name.is(other))
}

/// The keywords after `&key`.
#[derive(Drop)]
pub struct Keywords {
    pub names: SharedNames,
    pub allow_other_keys: bool,
}

/// What arguments a generic function or a method takes (HyperSpec 3.4.2).
#[derive(Drop)]
pub struct Shape {
    /// How many required parameters it has.
    pub required: u64,
    /// How many optional ones.
    pub optional: u64,
    /// Whether it has `&rest`.
    pub rest: bool,
    /// What follows `&key`, where it stands.
    pub keys: Option<Keywords>,
}

impl Keywords {
    /// The same keywords, in a few steps.
    pub fn copy(&self) -> Result<Keywords, AllocError>
        ensures { IfOk result (λ r. r ≡ self.now) }
    {
        Ok(Keywords {
            names: self.names.copy()?,
            allow_other_keys: self.allow_other_keys,
        })
    }

    /// Those of the keyword parameters of a lambda list.
    fn of(alloc: Global, keys: &Keys) -> Result<Keywords, AllocError>
        ensures { IfOk result (λ r. r ≡ keywords_in keys.now) }
    {
        let mut names = Vec::new(alloc);
        for entry in keys.entries.as_slice() {
            names.push(entry.keyword.copy()?)?;
        }
        Ok(Keywords {
            names: SharedNames::new(alloc, names)?,
            allow_other_keys: keys.allow_other_keys,
        })
    }
}

fn names_of(keys: &Option<Keywords>) -> &[Name]
    ensures { result.now ≡ names_of keys.now }
{
    match keys {
        None => &[],
        Some(keywords) => keywords.names.as_slice(),
    }
}

impl Shape {
    /// The shape of a lambda list.
    pub fn of(alloc: Global, list: &LambdaList) -> Result<Shape, AllocError>
        ensures { IfOk result (λ r. r ≡ shape_of list.now) }
    {
        let keys = match &list.keys {
            None => None,
            Some(keys) => Some(Keywords::of(alloc, keys)?),
        };
        Ok(Shape {
            required: list.required.len() as u64,
            optional: list.optional.len() as u64,
            rest: list.rest.is_some(),
            keys,
        })
    }

    /// The shape of the generic function that a method of this shape makes, where there is none (HyperSpec 7.6.4): with
    /// `&key` if the method has it, and no names after it.
    pub fn made_by(method: &Shape) -> Shape
        ensures { result ≡ made_by method.now }
    {
        let keys = match &method.keys {
            None => None,
            Some(_) => Some(Keywords {
                names: SharedNames::none(),
                allow_other_keys: false,
            }),
        };
        Shape {
            required: method.required,
            optional: method.optional,
            rest: method.rest,
            keys,
        }
    }

    /// The same shape, in a few steps.
    pub fn copy(&self) -> Result<Shape, AllocError>
        ensures { IfOk result (λ r. r ≡ self.now) }
    {
        let keys = match &self.keys {
            None => None,
            Some(keywords) => Some(keywords.copy()?),
        };
        Ok(Shape {
            required: self.required,
            optional: self.optional,
            rest: self.rest,
            keys,
        })
    }

    /// Whether it takes arguments after the required and the optional ones: it has `&rest` or `&key`.
    pub fn takes_more(&self) -> bool
        ensures { result ≡ takes_more self.now }
    {
        self.rest || self.keys.is_some()
    }

    /// Whether so many arguments fit.
    pub fn takes_count(&self, count: u64) -> bool
        ensures { result ≡ takes_count self.now count }
    {
        self.required <= count && (self.takes_more() || count - self.required <= self.optional)
    }

    /// Whether it accepts a keyword: by its name, by `&allow-other-keys`, or by `&rest` without `&key` (HyperSpec 7.6.4).
    pub fn accepts(&self, name: &Name) -> bool
        ensures { result ≡ accepts self.now name.now }
    {
        match &self.keys {
            None => self.rest,
            Some(keywords) => keywords.allow_other_keys || keywords.names.has(name),
        }
    }
}

fn accepts_all(method: &Shape, names: &[Name]) -> bool
    ensures { result ≡ list_all (accepts method.now) names.now }
{
    names.iter().all(|name| method.accepts(name))
}

/// Whether a method of this shape may be a method of a generic function of that shape (HyperSpec 7.6.4).
pub fn is_congruent(generic: &Shape, method: &Shape) -> bool
    ensures { result ≡ is_congruent generic.now method.now }
{
    generic.required == method.required
        && generic.optional == method.optional
        && generic.takes_more() == method.takes_more()
        && accepts_all(method, names_of(&generic.keys))
}
