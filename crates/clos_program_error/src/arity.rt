//! How many arguments functions take.
use clos_look::{Page, World};
use clos_names::is_the;
use lisp_data::{Name, Value};
use lisp_prims::{PrimFault, Primitive, apply};
use std::alloc::{AllocError, Global};

/// No function of the language takes more required and optional arguments.
const MOST: u64 = 4;

/// How many arguments a function takes: so many at least, and at most, if there is a most.
#[derive(Clone, Copy)]
pub struct Arity {
    least: u64,
    most: Option<u64>,
}

impl Arity {
    fn new(required: u64, optional: u64, more: bool) -> Arity {
        Arity {
            least: required,
            most: if more {
                None
            } else {
                Some(required.saturating_add(optional))
            },
        }
    }

    /// Whether so many are taken.
    pub fn has(self, count: u64) -> bool {
        self.least <= count && self.most.is_none_or(|most| count <= most)
    }

    /// Tells how many.
    pub fn tell(self, page: &mut Page) {
        match self.most {
            None => {
                page.count(self.least, "argument", "arguments");
                page.text(" or more");
            }
            Some(most) => {
                if self.least < most {
                    page.number(self.least);
                    page.text(" to ");
                }
                page.count(most, "argument", "arguments");
            }
        }
    }
}

/// What a generic function takes that is called so (HyperSpec 7.6.4).
fn generic_arity(world: &World, name: &Name) -> Option<Arity> {
    let function = world
        .generics
        .function(world.generics.named_by_symbol(name)?)?;
    let shape = function.shape();
    let more = shape.rest || shape.keys.is_some();
    Some(Arity::new(shape.required, shape.optional, more))
}

/// What a function of a `defun` takes (HyperSpec 3.4.1).
fn function_arity(world: &World, name: &Name) -> Option<Arity> {
    let list = &world.functions.get(name)?.lambda_list;
    let more = list.rest.is_some() || list.keys.is_some();
    let required = list.required.as_slice().len() as u64;
    Some(Arity::new(required, list.optional.as_slice().len() as u64, more))
}

/// Whether a function of values refuses so many arguments, whatever they are.
fn refuses(alloc: Global, primitive: Primitive, count: u64) -> Result<bool, AllocError> {
    let mut arguments = Vec::new(alloc);
    for _ in 0..count {
        arguments.push(Value::Int(1))?;
    }
    match apply(primitive, alloc, arguments.as_slice()) {
        Err(PrimFault::ProgramError) => Ok(true),
        _ => Ok(false),
    }
}

/// What a function of values takes, as it answers itself.
fn primitive_arity(alloc: Global, name: &Name) -> Result<Option<Arity>, AllocError> {
    let Some(primitive) = Primitive::named(name) else {
        return Ok(None);
    };
    let mut least = None;
    let mut most = 0;
    for count in 0..=MOST {
        if !refuses(alloc, primitive, count)? {
            least = least.or(Some(count));
            most = count;
        }
    }
    Ok(least.map(|least| Arity {
        least,
        most: if most < MOST { Some(most) } else { None },
    }))
}

/// What a function of the language takes that is none of values: so many at least, and so many at most or more than any.
#[rattlefmt::skip]
const OTHERS: [(&str, u64, u64); 17] = [
    ("PRINC", 1, 1), ("PRIN1", 1, 1), ("PRINT", 1, 1), ("TERPRI", 0, 0),
    ("CLASS-OF", 1, 1), ("CLASS-NAME", 1, 1), ("CLASS-PRECEDENCE-LIST", 1, 1), ("FIND-CLASS", 1, 2),
    ("TYPEP", 2, 2), ("FIND-METHOD", 3, 4), ("MAKE-INSTANCE", 1, u64::MAX), ("CHANGE-CLASS", 2, u64::MAX),
    ("SLOT-VALUE", 2, 2), ("SLOT-BOUNDP", 2, 2), ("SLOT-MAKUNBOUND", 2, 2), ("SLOT-EXISTS-P", 2, 2),
    ("NATIVE-CALL", 1, u64::MAX),
];

fn other_arity(name: &Name) -> Option<Arity> {
    let (_, least, most) = OTHERS.iter().find(|entry| is_the(name, entry.0)).copied()?;
    Some(Arity {
        least,
        most: if most < u64::MAX { Some(most) } else { None },
    })
}

/// How many arguments a function takes that is called so.
pub fn arity_of(alloc: Global, world: &World, name: &Name) -> Result<Option<Arity>, AllocError> {
    if let Some(arity) = generic_arity(world, name) {
        return Ok(Some(arity));
    }
    if let Some(arity) = function_arity(world, name) {
        return Ok(Some(arity));
    }
    if let Some(arity) = other_arity(name) {
        return Ok(Some(arity));
    }
    primitive_arity(alloc, name)
}
