//! Which keyword argument a function does not take.
use clos_look::{Page, World};
use clos_method::Shape;
use clos_names::is_the;
use lisp_data::{Datum, GenericId, Name};
use std::alloc::{AllocError, Global};

/// The keywords that a function takes, and how many arguments come before them.
#[derive(Drop)]
pub struct Taken {
    before: u64,
    allows_all: bool,
    names: Vec<Name>,
}

/// Adds the names after `&key`, if it stands, that are not there yet.
fn push_keys(names: &mut Vec<Name>, shape: &Shape) -> Result<(), AllocError> {
    let Some(keys) = &shape.keys else {
        return Ok(());
    };
    for name in keys.names.as_slice() {
        if !names.iter().any(|other| other.is(name)) {
            names.push(name.copy()?)?;
        }
    }
    Ok(())
}

/// What a generic function takes in some call (HyperSpec 7.6.5): the keywords of its own and of all its methods.
fn of_generic(alloc: Global, world: &World, id: GenericId) -> Result<Option<Taken>, AllocError> {
    let Some(function) = world.generics.function(id) else {
        return Ok(None);
    };
    let methods = function.methods();
    if !world.generics.checks_keywords(id, methods) {
        return Ok(None);
    }
    let shape = function.shape();
    let mut names = Vec::new(alloc);
    push_keys(&mut names, shape)?;
    for id in methods {
        if let Some(method) = world.generics.method(*id) {
            push_keys(&mut names, &method.shape)?;
        }
    }
    Ok(Some(Taken {
        before: shape.required.saturating_add(shape.optional),
        allows_all: world.generics.allows_all(id, methods),
        names,
    }))
}

/// What a function of a `defun` takes (HyperSpec 3.4.1.4).
fn of_function(alloc: Global, world: &World, name: &Name) -> Result<Option<Taken>, AllocError> {
    let Some(function) = world.functions.get(name) else {
        return Ok(None);
    };
    let list = &function.lambda_list;
    let Some(keys) = &list.keys else {
        return Ok(None);
    };
    let mut names = Vec::new(alloc);
    for key in keys.entries.as_slice() {
        names.push(key.keyword.copy()?)?;
    }
    let required = list.required.as_slice().len() as u64;
    Ok(Some(Taken {
        before: required.saturating_add(list.optional.as_slice().len() as u64),
        allows_all: keys.allow_other_keys,
        names,
    }))
}

/// After how many arguments a function of the language's takes initargs and their values (HyperSpec 7.1, 7.2).
fn before_initargs(name: &Name) -> Option<u64> {
    if is_the(name, "MAKE-INSTANCE") {
        return Some(1);
    }
    if is_the(name, "CHANGE-CLASS") {
        return Some(2);
    }
    None
}

/// The keywords that a function takes which is called so, if it takes some.
pub fn taken_by(alloc: Global, world: &World, name: &Name) -> Result<Option<Taken>, AllocError> {
    if let Some(before) = before_initargs(name) {
        return Ok(Some(Taken {
            before,
            allows_all: true,
            names: Vec::new(alloc),
        }));
    }
    match world.generics.named_by_symbol(name) {
        Some(id) => of_generic(alloc, world, id),
        None => of_function(alloc, world, name),
    }
}

/// The name that a keyword argument has where it is a keyword.
fn keyword(datum: &Datum) -> Option<&Name> {
    match datum {
        Datum::Sym(name) if name.is_keyword() => Some(name),
        _ => None,
    }
}

impl Taken {
    /// Whether this is a keyword that the function does not take.
    fn refuses(&self, name: &Name) -> bool {
        !self.allows_all && !self.names.iter().any(|other| other.is(name))
    }

    /// The first keyword of a call that the function does not take, where the call does not allow all.
    fn wrong_keyword<'a>(&self, arguments: &'a [Datum]) -> Option<&'a Name> {
        let mut wrong = None;
        for (place, argument) in arguments.iter().enumerate() {
            if place % 2 == 0 {
                let name = keyword(argument)?;
                if name.as_str() == "ALLOW-OTHER-KEYS" {
                    return None;
                }
                if wrong.is_none() && self.refuses(name) {
                    wrong = Some(name);
                }
            }
        }
        wrong
    }

    /// Tells the keywords.
    fn tell_names(&self, page: &mut Page, world: &World) {
        let mut word = "; it takes ";
        for name in self.names.iter() {
            page.text(word);
            page.name(world, name);
            word = " ";
        }
    }

    /// Tells which keyword of a call with these arguments the function does not take, or that they are no pairs. Answers whether it told.
    pub fn tell_wrong(
        &self,
        page: &mut Page,
        world: &World,
        name: &Name,
        arguments: &[Datum],
    ) -> bool {
        let keywords = arguments.get(self.before as usize..).unwrap_or(&[]);
        if keywords.len() % 2 == 1 {
            page.name(world, name);
            page.text(" takes pairs of a keyword and a value");
            if self.before > 0 {
                page.text(" after ");
                page.count(self.before, "argument", "arguments");
            }
            page.text(", and the last keyword has no value");
            self.tell_names(page, world);
            return true;
        }
        let Some(wrong) = self.wrong_keyword(keywords) else {
            return false;
        };
        page.name(world, name);
        page.text(" does not take ");
        page.name(world, wrong);
        self.tell_names(page, world);
        true
    }
}
