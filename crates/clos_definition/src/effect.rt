//! What a definition form does to the table of generic functions.
ghost use Rattle.std.specs.Prelude.{◌≡◌, ◌≤◌, ◌+◌, ◌==◌, ◌++◌, ◌∷◌, [], IfOk, OnOk, length, map, slice_get, true};
ghost use Rattle.clos_world.specs.Kept.{FunctionsKeep};
ghost use Rattle.clos_world.specs.Uses.{uses_of};
ghost use Rattle.clos_world.specs.World.{seen};
ghost use Rattle.clos_definition.specs.Effect.{AdditionsFit, DefinitionsFit, IsReserved, IsWellMade, adding, addition_of, changed, concerned_by, of_added, of_addition, of_additions, of_changes, of_defined, of_definitions, of_removal, of_removed, possible, possible_notices, with_definitions, with_effect, with_methods, without_all};
ghost use Rattle.clos_cache.specs.Cache.{Drops, DropsAll, of_generic};
ghost use Rattle.clos_definition.specs.Refusal.{Allows, table_refusal};
ghost use Rattle.clos_generic.specs.Fault.{all_fit, takes_in};
ghost use Rattle.clos_generic.specs.Held.{by_addition, by_definition, is_first};
ghost use Rattle.clos_generic.specs.Sound.{IsOrderly, IsSpecialized};
ghost use Rattle.clos_generic.specs.Table.{methods_named, named, number, same_function, with_definition, with_method, without_method};

use crate::refusal::stop_for;
use clos_cache::Cache;
use clos_forms::FunctionName;
use clos_generic::{Addition, Changes, Definition, Generics, Likeness, Removal};
use clos_method::Method;
use clos_watch::{Notice, Reserved};
use clos_world::{EffectiveMethod, Stop, World};
use lisp_data::{GenericId, MethodId};
use std::alloc::{AllocError, Global};
use std::collections::VecDeque;

/// Changes of the table of generic functions, and the methods that their additions are.
#[derive(Drop)]
pub struct Effect {
    pub changes: Changes,
    pub methods: VecDeque<Method>,
}

impl Effect {
    /// These changes, to which methods are to be added.
    pub fn new(alloc: Global, changes: Changes) -> Effect
        ensures changes { result.changes ≡ changes }
        ensures methods { result.methods.items ≡ [] }
    {
        Effect {
            changes,
            methods: VecDeque::new(alloc),
        }
    }

    /// One more method.
    pub fn add(&mut self, alloc: Global, method: Method) -> Result<(), AllocError>
        ensures changes { OnOk result (self.new.changes ≡ adding self.old.changes (addition_of method ∷ [])) }
        ensures methods { OnOk result (self.new.methods.items ≡ self.old.methods.items ++ method ∷ []) }
    {
        let addition = addition_of(alloc, &method)?;
        self.changes.add(addition)?;
        self.methods.push_back(method)?;
        Ok(())
    }
}

/// The addition of a method.
pub fn addition_of(alloc: Global, method: &Method) -> Result<Addition, AllocError>
    ensures { IfOk result (λ r. r ≡ addition_of method.now) }
{
    let likeness = Likeness {
        qualifiers: method.qualifiers.copy(alloc)?,
        specializers: method.specializers.copy(alloc)?,
    };
    Ok(Addition {
        generic: method.generic,
        shape: method.shape.copy()?,
        likeness: Some(likeness),
    })
}

/// Whether the table of generic functions allows these changes, for a form that defines the function of this name.
pub fn check(
    alloc: Global,
    world: &World,
    name: &FunctionName,
    changes: &Changes,
) -> Result<(), Stop>
    ensures { Allows (table_refusal name.now changes.now (seen world.now)) result }
{
    match world.generics.refuse_changes(changes) {
        Ok(()) => Ok(()),
        Err(fault) => Err(stop_for(alloc, name, fault)),
    }
}

/// Takes the memory for an effect, where the table of generic functions allows it.
pub fn reserve(
    alloc: Global,
    world: &mut World,
    name: &FunctionName,
    effect: &Effect,
) -> Result<(), Stop>
    requires { IsWellMade effect.now (seen world.old).generics }
    ensures allows { Allows (table_refusal name.now effect.now.changes (seen world.old)) result }
    ensures reserved { OnOk result (IsReserved effect.now world.new.generics) }
    ensures same { seen world.new ≡ seen world.old }
    ensures kept { uses_of world.new ≡ uses_of world.old }
{
    world.generics.are_sound();
    match world.generics.reserve(alloc, &effect.changes) {
        Ok(()) => Ok(()),
        Err(fault) => Err(stop_for(alloc, name, fault)),
    }
}

/// What dependents may be told of an effect at most (AMOP chapter 6).
pub fn possible_notices(
    alloc: Global,
    world: &World,
    effect: &Effect,
) -> Result<Reserved<Notice>, AllocError>
    ensures { IfOk result (λ r. r.items ≡ possible_notices effect.now (seen world.now).generics) }
{
    let mut notices = Reserved::new(alloc);
    add_possible(&world.generics, effect, &mut notices)?;
    Ok(notices)
}

/// Adds what may be told of an effect.
pub(crate) fn add_possible(
    generics: &Generics,
    effect: &Effect,
    notices: &mut Reserved<Notice>,
) -> Result<(), AllocError>
    ensures { OnOk result (notices.new.items ≡ notices.old.items ++ possible_notices effect.now generics.now.table) }
{
    let removals = effect.changes.removals();
    notices.prepare(removals.len())?;
    tell_removals(removals, notices);
    let definitions = effect.changes.definitions();
    notices.prepare(definitions.len())?;
    tell_definitions(generics, definitions, notices);
    let mut place = 0;
    while let Some(method) = effect.methods.get(place) {
        notices.prepare(2)?;
        notices.push(Notice::MethodRemoved(method.generic, MethodId(0)));
        notices.push(Notice::MethodAdded(method.generic, MethodId(0)));
        place += 1;
    }
    Ok(())
}

/// Makes an effect for which memory is reserved, and notes what is told of it (AMOP chapter 6). What is kept of calls of the
/// functions that it is of is dropped.
pub fn make(world: &mut World, effect: Effect)
    requires reserved { IsReserved effect world.old.generics }
    requires room { length (possible_notices effect (seen world.old).generics) ≤ world.old.hearing.notices.room }
    ensures seen { seen world.new ≡ with_effect effect (seen world.old) }
    ensures left { DropsAll (concerned_by effect (seen world.old).generics) world.old.cache world.new.cache }
    ensures meter { world.new.meter ≡ world.old.meter }
{
    make_in(
        &mut world.generics,
        &mut world.cache,
        effect,
        &mut world.hearing.notices,
    );
}

fn make_in(
    generics: &mut Generics,
    cache: &mut Cache<EffectiveMethod>,
    effect: Effect,
    notices: &mut Reserved<Notice>,
)
    requires reserved { IsReserved effect generics.old }
    requires room { length (possible_notices effect generics.old.table) ≤ notices.old.room }
    ensures table { generics.new.table ≡ changed effect.changes.removals effect.changes.definitions effect.methods.items
        generics.old.table }
    ensures told { notices.new.items ≡ notices.old.items ++ of_changes effect.changes.removals
        effect.changes.definitions effect.methods.items generics.old.table }
    ensures kept { FunctionsKeep generics.old.table cache.old generics.new.table cache.new }
    ensures left { DropsAll (concerned_by effect generics.old.table) cache.old cache.new }
{
    let Effect { changes, methods } = effect;
    tell_removals(changes.removals(), notices);
    tell_definitions(generics, changes.definitions(), notices);
    take_out_all(generics, cache, changes.removals());
    define_all(generics, cache, changes);
    add_all(generics, cache, methods, notices);
}

/// Tells that these methods are taken out.
fn tell_removals(removals: &[Removal], notices: &mut Reserved<Notice>)
    requires { length removals.now ≤ notices.old.room }
    ensures told { notices.new.items ≡ notices.old.items ++ map of_removal removals.now }
    ensures room { notices.new.room + length removals.now ≡ notices.old.room }
{
    let mut left = removals;
    while let Some((removal, others)) = left.split_first() {
        notices.push(Notice::MethodRemoved(removal.generic, removal.method));
        left = others;
    }
}

/// Tells which of these functions, which are to be defined, are there.
fn tell_definitions(generics: &Generics, definitions: &[Definition], notices: &mut Reserved<Notice>)
    requires { length (of_definitions definitions.now generics.now.table) ≤ notices.old.room }
    ensures told { notices.new.items ≡ notices.old.items ++ of_definitions definitions.now generics.now.table }
    ensures room { notices.new.room + length (of_definitions definitions.now generics.now.table) ≡ notices.old.room }
{
    let mut left = definitions;
    while let Some((definition, others)) = left.split_first() {
        if let Some(generic) = generics.named(&definition.name) {
            notices.push(Notice::GenericRedefined(generic));
        }
        left = others;
    }
}

/// Takes these methods out of their functions.
fn take_out_all(generics: &mut Generics, cache: &mut Cache<EffectiveMethod>, removals: &[Removal])
    ensures table { generics.new ≡ record generics.old { table = without_all removals.now generics.old.table } }
    ensures kept { FunctionsKeep generics.old.table cache.old generics.new.table cache.new }
    ensures left { DropsAll (of_removed removals.now) cache.old cache.new }
{
    let mut left = removals;
    while let Some((removal, others)) = left.split_first() {
        take_out(generics, cache, removal.generic, removal.method);
        left = others;
    }
}

/// Takes a method out of a function, and drops what is kept of its calls.
pub(crate) fn take_out(
    generics: &mut Generics,
    cache: &mut Cache<EffectiveMethod>,
    function: GenericId,
    method: MethodId,
)
    ensures table { generics.new ≡ record generics.old { table = without_method function.0 method.0 generics.old.table } }
    ensures kept { FunctionsKeep generics.old.table cache.old generics.new.table cache.new }
    ensures left { Drops (of_generic function.0) cache.old cache.new }
{
    generics.take_out(function, method);
    cache.drop_generic(function);
}

/// Defines these functions, for which memory is reserved.
#[tactic(auto, using(crate::proofs::Made::same_function_self))]
fn define_all(generics: &mut Generics, cache: &mut Cache<EffectiveMethod>, mut changes: Changes)
    requires reserved { generics.old.definitions ≡ map (λ d. d.name) changes.definitions }
    requires fit { DefinitionsFit changes.definitions generics.old.table }
    ensures table { generics.new.table ≡ with_definitions changes.definitions generics.old.table }
    ensures additions { generics.new.additions ≡ generics.old.additions }
    ensures kept { FunctionsKeep generics.old.table cache.old generics.new.table cache.new }
    ensures left { DropsAll (of_defined changes.definitions generics.old.table) cache.old cache.new }
{
    while let Some(definition) = changes.take_definition() {
        define(generics, cache, definition);
    }
}

/// Defines a function, for which memory is reserved, and drops what is kept of its calls.
fn define(generics: &mut Generics, cache: &mut Cache<EffectiveMethod>, definition: Definition)
    requires reserved { is_first (λ n. same_function n definition.name) generics.old.definitions ≡ true }
    requires orderly { IsOrderly definition.options }
    requires fit { all_fit generics.old.table.methods definition.options.shape
        (methods_named generics.old.table (named generics.old.table definition.name)) ≡ true }
    ensures defined { generics.new ≡ by_definition definition.name (with_definition definition.name definition.options)
        generics.old }
    ensures kept { FunctionsKeep generics.old.table cache.old generics.new.table cache.new }
    ensures left { Drops (of_generic (number generics.old.table definition.name)) cache.old cache.new }
{
    let id = generics.define_reserved(definition.name, definition.options);
    cache.drop_generic(id);
}

/// Adds these methods, for which memory is reserved, and tells of them.
fn add_all(
    generics: &mut Generics,
    cache: &mut Cache<EffectiveMethod>,
    mut methods: VecDeque<Method>,
    notices: &mut Reserved<Notice>,
)
    requires reserved { generics.old.additions ≡ map (λ m. m.generic.0) methods.items }
    requires fit { AdditionsFit methods.items generics.old.table }
    requires room { length (possible methods.items) ≤ notices.old.room }
    ensures table { generics.new.table ≡ with_methods methods.items generics.old.table }
    ensures told { notices.new.items ≡ notices.old.items ++ of_additions methods.items generics.old.table }
    ensures kept { FunctionsKeep generics.old.table cache.old generics.new.table cache.new }
    ensures left { DropsAll (of_added methods.items) cache.old cache.new }
{
    while let Some(method) = methods.pop_front() {
        add(generics, cache, method, notices);
    }
}

/// Adds a method, for which memory is reserved, and drops what is kept of calls of its function. Where it takes the place of
/// another one, that one goes.
fn add(
    generics: &mut Generics,
    cache: &mut Cache<EffectiveMethod>,
    method: Method,
    notices: &mut Reserved<Notice>,
)
    requires reserved { is_first (λ h. h == method.generic.0) generics.old.additions ≡ true }
    requires specialized { IsSpecialized method }
    requires fits { takes_in method.shape (slice_get generics.old.table.functions method.generic.0) ≡ true }
    requires room { 2 ≤ notices.old.room }
    ensures added { generics.new ≡ by_addition method.generic.0 (with_method method.generic.0 method) generics.old }
    ensures told { notices.new.items ≡ notices.old.items ++ of_addition method generics.old.table }
    ensures room { notices.old.room ≤ notices.new.room + 2 }
    ensures kept { FunctionsKeep generics.old.table cache.old generics.new.table cache.new }
    ensures left { Drops (of_generic method.generic.0) cache.old cache.new }
{
    let generic = method.generic;
    let number = MethodId(generics.method_count());
    let replaced = generics.add_reserved(generic, method);
    cache.drop_generic(generic);
    if let Some(replaced) = replaced {
        notices.push(Notice::MethodRemoved(generic, replaced));
    }
    notices.push(Notice::MethodAdded(generic, number));
}
