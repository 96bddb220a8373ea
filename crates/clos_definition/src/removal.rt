//! Methods that are taken out of their function: what a `remove-method` does.
ghost use Rattle.std.specs.Prelude.{◌<◌, ◌≡◌, ◌++◌, IfOk, option_map};
ghost use Rattle.lisp_data.specs.ValueView.{value_of};
ghost use Rattle.clos_cache.specs.Cache.{DropsAll};
ghost use Rattle.clos_world.specs.Kept.{FunctionsKeep};
ghost use Rattle.clos_world.specs.World.{seen};
ghost use Rattle.clos_definition.specs.Removal.{Finds, concerned_by_removal, generic_in, method_in, removable, removal_notices, with_removed, wrong_type};
ghost use Rattle.clos_generic.specs.Table.{without_method};

use crate::effect::take_out;
use clos_cache::Cache;
use clos_generic::Generics;
use clos_method::SystemFunction;
use clos_watch::{Notice, Reserved};
use clos_world::{Condition, ConditionKind, EffectiveMethod, Stop, World, about, plain};
use lisp_data::{GenericId, MethodId, Value};
use std::alloc::{AllocError, Global};

/// The function and the method that these values are. Of the method of a function of the system, and of values of other types, it is
/// told that the method can't be taken out.
pub fn find_removable(
    alloc: Global,
    function: &Value,
    method: &Value,
) -> Result<(GenericId, MethodId), Stop>
    ensures { Finds (removable (value_of function.now) (value_of method.now)) result }
{
    let Some(generic) = generic_in(function) else {
        return Err(Stop::Refused(wrong_type(alloc, function)?));
    };
    let Some(id) = method_in(method) else {
        return Err(Stop::Refused(wrong_type(alloc, method)?));
    };
    if id.0 < SystemFunction::COUNT {
        return Err(Stop::Refused(plain(alloc, ConditionKind::Unsupported)));
    }
    Ok((generic, id))
}

fn wrong_type(alloc: Global, value: &Value) -> Result<Condition, AllocError>
    ensures { IfOk result (λ c. c ≡ wrong_type (value_of value.now)) }
{
    about(alloc, ConditionKind::TypeError, value.copy()?)
}

fn generic_in(value: &Value) -> Option<GenericId>
    ensures { option_map (λ g. g.0) result ≡ generic_in (value_of value.now) }
{
    match value {
        Value::Generic(id) => Some(*id),
        _ => None,
    }
}

fn method_in(value: &Value) -> Option<MethodId>
    ensures { option_map (λ m. m.0) result ≡ method_in (value_of value.now) }
{
    match value {
        Value::Method(id) => Some(*id),
        _ => None,
    }
}

/// Takes a method out of a function, notes that it was, and drops what is kept of calls of the function, if it is there.
pub fn remove(world: &mut World, function: GenericId, method: MethodId)
    requires { 0 < world.old.hearing.notices.room }
    ensures seen { seen world.new ≡ with_removed function.0 method.0 (seen world.old) }
    ensures left { DropsAll (concerned_by_removal function.0 method.0 (seen world.old).generics) world.old.cache
        world.new.cache }
    ensures meter { world.new.meter ≡ world.old.meter }
{
    remove_in(
        &mut world.generics,
        &mut world.cache,
        function,
        method,
        &mut world.hearing.notices,
    );
}

fn remove_in(
    generics: &mut Generics,
    cache: &mut Cache<EffectiveMethod>,
    function: GenericId,
    method: MethodId,
    notices: &mut Reserved<Notice>,
)
    requires { 0 < notices.old.room }
    ensures table { generics.new.table ≡ without_method function.0 method.0 generics.old.table }
    ensures told { notices.new.items ≡ notices.old.items ++ removal_notices function.0 method.0 generics.old.table }
    ensures kept { FunctionsKeep generics.old.table cache.old generics.new.table cache.new }
    ensures left { DropsAll (concerned_by_removal function.0 method.0 generics.old.table) cache.old cache.new }
{
    if !generics.has_method(function, method) {
        return;
    }
    notices.push(Notice::MethodRemoved(function, method));
    take_out(generics, cache, function, method);
}
