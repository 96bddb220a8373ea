//! What a session tells of its objects.
ghost use Rattle.std.specs.Prelude.{Some, None, ◌==◌, if◌then◌else◌, map, option_map, slice_get, unwrap_or};
ghost use Rattle.lisp_data.specs.Print.{by_symbol, by_setf, on_class, on_eql};
ghost use Rattle.lisp_data.specs.ValueView.{value_of};

use crate::given::{value, values};
use lisp_data::{
    ClassId, FunctionName, GenericId, InstanceId, MethodId, Name, Naming, Specializer, Value,
};
use std::alloc::Global;

/// Class 1 is P and instance 5 is of it, generic functions 1 and 2 are G and (SETF G), and all methods are of the second.
#[derive(Drop)]
pub struct Told {
    class: Name,
    generic: Name,
    methods: Vec<Described>,
}

/// A method's qualifiers, and for each specializer its object, or None for the class P.
#[derive(Drop)]
pub struct Described {
    qualifiers: Vec<Value>,
    objects: Vec<Option<Value>>,
}

impl Naming for Told {
    ghost names = { λ told. record {
      class = λ n. if n == 1 then Some told.class else None;
      generic = λ n. if n == 1 then Some (by_symbol told.generic) else (if n == 2 then Some (by_setf told.generic) else None);
      method = λ n. option_map (λ m. record {
        generic = 2;
        qualifiers = map value_of m.qualifiers.items;
        specializers = map (λ o. unwrap_or (option_map (λ v. on_eql (value_of v)) o) (on_class 1)) m.objects.items;
      }) (slice_get told.methods.items n);
      class_of = λ n. if n == 5 then Some 1 else None;
    } };

    fn class_name(&self, id: ClassId) -> Option<&Name> {
        if id.0 == 1 { Some(&self.class) } else { None }
    }

    fn generic_name(&self, id: GenericId) -> Option<FunctionName<'_>> {
        match id.0 {
            1 => Some(FunctionName::Symbol(&self.generic)),
            2 => Some(FunctionName::Setf(&self.generic)),
            _ => None,
        }
    }

    fn method_generic(&self, id: MethodId) -> Option<GenericId> {
        match self.methods.get(id.0 as usize) {
            Some(_) => Some(GenericId(2)),
            None => None,
        }
    }

    fn qualifier(&self, id: MethodId, place: usize) -> Option<&Value> {
        match self.methods.get(id.0 as usize) {
            Some(method) => method.qualifiers.get(place),
            None => None,
        }
    }

    fn specializer(&self, id: MethodId, place: usize) -> Option<Specializer<'_>> {
        match self.methods.get(id.0 as usize) {
            Some(method) => match method.objects.get(place) {
                Some(Some(object)) => Some(Specializer::Eql(object)),
                Some(None) => Some(Specializer::Class(ClassId(1))),
                None => None,
            },
            None => None,
        }
    }

    fn class_of(&self, id: InstanceId) -> Option<ClassId> {
        if id.0 == 5 { Some(ClassId(1)) } else { None }
    }
}

pub fn no_methods(alloc: Global) -> Told {
    Told {
        class: Name::fixed(&"P"),
        generic: Name::fixed(&"G"),
        methods: Vec::new(alloc),
    }
}

/// A method of no qualifiers on this object.
fn on_object(alloc: Global, object: Value) -> Option<Described> {
    let objects = vec![in alloc; Some(object)].ok()?;
    Some(Described {
        qualifiers: Vec::new(alloc),
        objects,
    })
}

/// A method of two qualifiers on the class P, a number and a keyword.
fn on_three(alloc: Global) -> Option<Described> {
    let objects = vec![in alloc; None, Some(Value::Int(3)), value(alloc, ":K")].ok()?;
    Some(Described {
        qualifiers: values(alloc, "(:AROUND \"q\")")?,
        objects,
    })
}

fn on_nothing(alloc: Global) -> Described {
    Described {
        qualifiers: Vec::new(alloc),
        objects: Vec::new(alloc),
    }
}

/// Methods 0 on three arguments, 1 on none, and 2 on method 0.
pub fn three_methods(alloc: Global) -> Option<Told> {
    let mut told = no_methods(alloc);
    let is_told = told.add(on_three(alloc))
        && told.add(Some(on_nothing(alloc)))
        && told.add(on_object(alloc, Value::Method(MethodId(0))));
    is_told.then_some(told)
}

/// Method 0 on 7, and so many more, each on the one before it.
pub fn chain(alloc: Global, more: u64) -> Option<Told> {
    let mut told = no_methods(alloc);
    let mut is_told = told.add(on_object(alloc, Value::Int(7)));
    for older in 0..more {
        is_told &= told.add(on_object(alloc, Value::Method(MethodId(older))));
    }
    is_told.then_some(told)
}

impl Told {
    fn add(&mut self, method: Option<Described>) -> bool {
        match method {
            Some(method) => self.methods.push(method).is_ok(),
            None => false,
        }
    }
}
