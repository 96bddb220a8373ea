//! The state of a session that begins, and what values are in it.
ghost use Rattle.std.specs.Prelude.{◌≡◌, [], IfOk, option_map};
ghost use Rattle.lisp_data.specs.ValueView.{value_of};
ghost use Rattle.lisp_data.specs.PrintView.{called};
ghost use Rattle.clos_forms.specs.OperatorView.{called_of};
ghost use Rattle.clos_world.specs.Initial.{initial};
ghost use Rattle.clos_world.specs.World.{seen, class_of, class_of_instance, names_of};

use crate::functions::Functions;
use crate::globals::Globals;
use crate::hearing::Hearing;
use crate::limits::Limits;
use crate::tables::World;
use clos_cache::Cache;
use clos_class::Classes;
use clos_comb::Combinations;
use clos_generic::Generics;
use clos_hierarchy::numbers;
use clos_store::{Objects, Store};
use lisp_data::{
    ClassId, FunctionName, GenericId, InstanceId, MethodId, Name, Naming, Specializer, Value,
};
use std::alloc::{AllocError, Global};

impl World {
    /// The tables of a session that begins, under these limits, with dependents of these names.
    pub fn new(alloc: Global, limits: Limits, dependents: Vec<Name>) -> Result<World, AllocError>
        ensures seen { IfOk result (λ r. seen r ≡ initial limits dependents.items) }
        ensures meter { IfOk result (λ r. r.meter ≡ 0) }
        ensures cache { IfOk result (λ r. r.cache ≡ []) }
    {
        let objects = Objects::new(alloc, limits.classes, limits.instances, limits.cells)?;
        let generics = Generics::new(alloc, limits.generics, limits.methods)?;
        let (combinations, meter) = Combinations::new(alloc, limits.combinations)?;
        Ok(World {
            objects,
            generics,
            combinations,
            meter,
            cache: Cache::new(alloc),
            functions: Functions::new(alloc),
            setters: Functions::new(alloc),
            globals: Globals::new(alloc),
            hearing: Hearing::new(alloc, dependents),
            written: Vec::new(alloc),
            limits,
        })
    }

    /// The classes.
    pub fn classes(&self) -> &Classes
        ensures { result.now ≡ (seen self.now).classes }
    {
        self.objects.classes()
    }

    /// The instances, and the cells of shared slots.
    pub fn store(&self) -> &Store
        ensures { result.now.contents ≡ (seen self.now).store }
    {
        self.objects.store()
    }

    /// The class of a value (HyperSpec 4.3.7).
    pub fn class_of_value(&self, value: &Value) -> ClassId
        ensures { result.0 ≡ class_of (seen self.now) (value_of value.now) }
    {
        match value {
            Value::Int(_) => numbers::INTEGER,
            Value::Sym(_) => numbers::SYMBOL,
            Value::Str(_) => numbers::STRING,
            Value::List(items) => match items.split_first() {
                None => numbers::NULL,
                Some(_) => numbers::CONS,
            },
            Value::Class(id) => self.classes().hierarchy().class_of_class(*id),
            Value::Generic(_) => numbers::STANDARD_GENERIC_FUNCTION,
            Value::Method(_) => numbers::STANDARD_METHOD,
            Value::Instance(id) => match self.instance_class(*id) {
                Some(class) => class,
                None => numbers::STANDARD_OBJECT,
            },
        }
    }

    fn instance_class(&self, id: InstanceId) -> Option<ClassId>
        ensures { option_map (λ c. c.0) result ≡ class_of_instance (seen self.now) id.0 }
    {
        self.store().class_of(id)
    }
}

/// The name of a function, as it is printed.
fn told_name(name: &clos_forms::FunctionName) -> FunctionName<'_>
    ensures { called result ≡ called_of name.now }
{
    match name {
        clos_forms::FunctionName::Symbol(name) => FunctionName::Symbol(name),
        clos_forms::FunctionName::Setf(name) => FunctionName::Setf(name),
    }
}

impl Naming for World {
    ghost use Rattle.clos_world.specs.World.{seen, names_of};

    ghost names = { λ w. names_of (seen w) };

    fn class_name(&self, id: ClassId) -> Option<&Name> {
        self.classes().hierarchy().name(id)
    }

    fn generic_name(&self, id: GenericId) -> Option<FunctionName<'_>> {
        match self.generics.function(id) {
            Some(function) => Some(told_name(function.name())),
            None => None,
        }
    }

    fn method_generic(&self, id: MethodId) -> Option<GenericId> {
        match self.generics.method(id) {
            Some(method) => Some(method.generic),
            None => None,
        }
    }

    fn qualifier(&self, id: MethodId, place: usize) -> Option<&Value> {
        match self.generics.method(id) {
            Some(method) => method.qualifiers.get(place),
            None => None,
        }
    }

    fn specializer(&self, id: MethodId, place: usize) -> Option<Specializer<'_>> {
        match self.generics.method(id) {
            Some(method) => method.specializers.told(place),
            None => None,
        }
    }

    fn class_of(&self, id: InstanceId) -> Option<ClassId> {
        self.instance_class(id)
    }
}
