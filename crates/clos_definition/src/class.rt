//! Classes that are defined: what a `defclass` does.
ghost use Rattle.std.specs.Prelude.{◌≡◌, ◌≤◌, ◌++◌, ◌∷◌, List, IfOk, IfErr, None, Option, OnOk, OnErr, Some, length, not, option_map, true};
ghost use Rattle.clos_class.specs.Table.{refusal};
ghost use Rattle.clos_hierarchy.specs.Table.{Refusal, changed};
ghost use Rattle.clos_hierarchy.specs.TableView.{Refuses};
ghost use Rattle.clos_forms.specs.declared.operator.FunctionName.TheVariants.{Symbol};
ghost use Rattle.clos_store.specs.Objects.{with_class as with_objects_of};
ghost use Rattle.clos_store.specs.Store.{has_room_for};
ghost use Rattle.clos_watch.specs.declared.notice.Notice.{Notice};
ghost use Rattle.clos_cache.specs.Cache.{Drops, DropsAll, of_classes};
ghost use Rattle.clos_world.specs.Kept.{ClassesKeep};
ghost use Rattle.clos_world.specs.Uses.{uses_of};
ghost use Rattle.clos_world.specs.World.{seen};
ghost use Rattle.clos_world.specs.declared.condition.Stop.TheVariants.{Storage};
ghost use Rattle.clos_definition.specs.Accessor.{accessors_of, accessors_refusal};
ghost use Rattle.clos_definition.specs.Class.{accessors_concerned, cells_needed, class_changes, class_functions, class_methods, class_notices, class_number, class_refusal, condition_for, noting, others_refusal, with_accessors, with_class};
ghost use Rattle.clos_definition.specs.Effect.{IsReserved, IsWellMade, concerned_by, possible_notices, with_effect};
ghost use Rattle.clos_definition.specs.Refusal.{Allows, StopsFor, table_full, table_refusal, when};

use crate::accessor::{accessors_of, changes_for, refuse_accessors, with_accessors};
use crate::effect::{Effect, add_possible, check, make, reserve};
use clos_cache::Cache;
use clos_class::{ClassFault, Reserved as ReservedClass};
use clos_forms::FunctionName;
use clos_store::{Objects, Slot};
use clos_syntax::ClassDefinition;
use clos_watch::{Notice, Reserved};
use clos_world::{
    Condition, ConditionKind, EffectiveMethod, Stop, World, about_name, about_names, plain,
};
use lisp_data::{ClassId, Name};
use std::alloc::{AllocError, Global};

/// Whether a class may be defined, and with what number and which new cells.
#[tactic(auto, using(crate::proofs::Classes::class_stops))]
pub fn check_class(
    alloc: Global,
    world: &mut World,
    definition: &ClassDefinition,
) -> Result<ReservedClass, Stop>
    ensures allows { Allows (class_refusal definition.now (length (cells_needed definition.now (seen world.old)))
        (seen world.old)) result }
    ensures class { IfOk result (λ r. r.class.0 ≡ class_number definition.now (seen world.old)) }
    ensures cells { IfOk result (λ r. r.cells ≡ cells_needed definition.now (seen world.old)) }
    ensures same { seen world.new ≡ seen world.old }
    ensures kept { uses_of world.new ≡ uses_of world.old }
{
    let reserved = reserve_class(alloc, world, definition)?;
    accessors_for(
        alloc,
        world,
        reserved.class,
        definition,
        reserved.cells.len() as u64,
    )?;
    Ok(reserved)
}

/// Prepares a class with so many new cells, and tells its number. What is prepared is its accessors: those of an earlier
/// definition go, and its own come.
#[tactic(auto, using(crate::proofs::Classes::class_stops))]
pub fn prepare_class(
    alloc: Global,
    world: &mut World,
    definition: &ClassDefinition,
    cells: u64,
) -> Result<(ClassId, Effect), Stop>
    ensures allows { Allows (class_refusal definition.now cells (seen world.old)) result }
    ensures class { IfOk result (λ p. p.0.0 ≡ class_number definition.now (seen world.old)) }
    ensures reserved { IfOk result (λ p. IsReserved p.1 world.new.generics) }
    ensures effect { IfOk result (λ p. (told : List Notice) → with_effect p.1 (noting told (seen world.old)) ≡
        with_accessors definition.now (noting told (seen world.old))) }
    ensures concerned { IfOk result (λ p. concerned_by p.1 (seen world.old).generics ≡ accessors_concerned
        definition.now (seen world.old)) }
    ensures same { seen world.new ≡ seen world.old }
    ensures kept { uses_of world.new ≡ uses_of world.old }
{
    let class = reserve_class(alloc, world, definition)?.class;
    let effect = accessors_for(alloc, world, class, definition, cells)?;
    reserve_effect(alloc, world, &definition.name, &effect)?;
    Ok((class, effect))
}

/// Makes a class, whose new cells have these values, and its accessors, which are prepared. It is refused only for want of memory,
/// and then nothing is changed.
pub fn make_class(
    alloc: Global,
    world: &mut World,
    definition: &ClassDefinition,
    values: Vec<Slot>,
    effect: Effect,
) -> Result<(), AllocError>
    requires allowed { class_refusal definition.now (length values.items) (seen world.old) ≡ None }
    requires reserved { IsReserved effect world.old.generics }
    requires room { length (class_notices definition.now (seen world.old) ++ possible_notices effect
        (seen world.old).generics) ≤ world.old.hearing.notices.room }
    ensures ok { OnOk result (seen world.new ≡ with_class definition.now values.items
        (with_effect effect (noting (class_notices definition.now (seen world.old)) (seen world.old)))) }
    ensures left { OnOk result (DropsAll (of_classes (changed (seen world.old).classes.table.classes
        (seen world.new).classes.table.classes) ∷ concerned_by effect (seen world.old).generics) world.old.cache
        world.new.cache) }
    ensures err { OnErr result (seen world.new ≡ seen world.old) }
    ensures same { OnErr result (world.new.cache ≡ world.old.cache) }
    ensures meter { world.new.meter ≡ world.old.meter }
{
    let earlier = world.classes().hierarchy().named(&definition.name);
    define(
        alloc,
        &mut world.objects,
        &mut world.cache,
        definition,
        values,
    )?;
    if let Some(class) = earlier {
        world.hearing.notices.push(Notice::ClassRedefined(class));
    }
    make(world, effect);
    Ok(())
}

/// Defines a class, whose new cells have these values, and drops what is kept of calls with arguments of classes whose class
/// precedence lists change. It is refused only for want of memory.
fn define(
    alloc: Global,
    objects: &mut Objects,
    cache: &mut Cache<EffectiveMethod>,
    definition: &ClassDefinition,
    values: Vec<Slot>,
) -> Result<(), AllocError>
    requires class { refusal objects.old.classes.table definition.now ≡ None }
    requires cells { has_room_for (length values.items) objects.old.contents ≡ true }
    ensures ok { OnOk result (objects.new ≡ with_objects_of definition.now values.items objects.old) }
    ensures kept { OnOk result (ClassesKeep objects.old.classes cache.old objects.new.classes cache.new) }
    ensures left { OnOk result (Drops (of_classes (changed objects.old.classes.table.classes
        objects.new.classes.table.classes)) cache.old cache.new) }
    ensures err { OnErr result (objects.new ≡ objects.old) }
    ensures same { OnErr result (cache.new ≡ cache.old) }
{
    let changed = objects.define(alloc, definition, values)?;
    cache.drop_classes(&changed.lists);
    Ok(())
}

/// What dependents may be told of a class and of its accessors at most (AMOP chapter 6).
pub fn class_notices(
    alloc: Global,
    world: &World,
    definition: &ClassDefinition,
    effect: &Effect,
) -> Result<Reserved<Notice>, AllocError>
    ensures { IfOk result (λ r. r.items ≡ class_notices definition.now (seen world.now) ++ possible_notices effect.now
        (seen world.now).generics) }
{
    let mut notices = Reserved::new(alloc);
    if let Some(class) = world.classes().hierarchy().named(&definition.name) {
        notices.prepare(1)?;
        notices.push(Notice::ClassRedefined(class));
    }
    add_possible(&world.generics, effect, &mut notices)?;
    Ok(notices)
}

/// What the table of classes tells of a definition.
fn reserve_class(
    alloc: Global,
    world: &mut World,
    definition: &ClassDefinition,
) -> Result<ReservedClass, Stop>
    ensures allows { Allows (option_map (condition_for definition.now.name)
        (refusal (seen world.old).classes.table definition.now)) result }
    ensures class { IfOk result (λ r. r.class.0 ≡ class_number definition.now (seen world.old)) }
    ensures cells { IfOk result (λ r. r.cells ≡ cells_needed definition.now (seen world.old)) }
    ensures same { seen world.new ≡ seen world.old }
    ensures kept { uses_of world.new ≡ uses_of world.old }
{
    match world.objects.reserve_class(alloc, definition) {
        Ok(reserved) => Ok(reserved),
        Err(fault) => Err(stop_for(alloc, &definition.name, fault)),
    }
}

/// The accessors of the class of this number, which the table of classes allows, where they and so many new cells can be.
#[tactic(auto, using(crate::proofs::Classes::accessors_stop, crate::proofs::Classes::table_stops, crate::proofs::Classes::room_stops, crate::proofs::Classes::nothing_stops))]
fn accessors_for(
    alloc: Global,
    world: &World,
    class: ClassId,
    definition: &ClassDefinition,
    cells: u64,
) -> Result<Effect, Stop>
    requires class { class.0 ≡ class_number definition.now (seen world.now) }
    ensures allows { Allows (others_refusal definition.now cells (seen world.now)) result }
    ensures changes { IfOk result (λ e. e.changes ≡ class_changes definition.now (seen world.now)) }
    ensures methods { IfOk result (λ e. e.methods.items ≡ class_methods definition.now (seen world.now)) }
{
    let effect = effect_for(alloc, world, class, definition)?;
    check_effect(alloc, world, &definition.name, &effect)?;
    check_room(alloc, world, cells)?;
    Ok(effect)
}

/// The accessors of the class of this number, where they can be.
fn effect_for(
    alloc: Global,
    world: &World,
    class: ClassId,
    definition: &ClassDefinition,
) -> Result<Effect, Stop>
    requires { class.0 ≡ class_number definition.now (seen world.now) }
    ensures allows { Allows (accessors_refusal class.0 (class_functions definition.now (seen world.now))
        (accessors_of definition.now.slots) (seen world.now)) result }
    ensures changes { IfOk result (λ e. e.changes ≡ class_changes definition.now (seen world.now)) }
    ensures methods { IfOk result (λ e. e.methods.items ≡ class_methods definition.now (seen world.now)) }
{
    let accessors = accessors_of(alloc, definition.slots.as_slice())?;
    let changes = changes_for(alloc, &world.generics, class, &accessors)?;
    refuse_accessors(alloc, world, class, changes.definitions(), &accessors)?;
    Ok(with_accessors(alloc, &world.generics, class, changes, &accessors)?)
}

/// Whether the table of generic functions allows the accessors of the class of this name.
fn check_effect(alloc: Global, world: &World, name: &Name, effect: &Effect) -> Result<(), Stop>
    ensures { Allows (table_refusal (Symbol name.now) effect.now.changes (seen world.now)) result }
{
    let name = FunctionName::Symbol(name.copy()?);
    check(alloc, world, &name, &effect.changes)
}

/// Takes the memory for them.
fn reserve_effect(
    alloc: Global,
    world: &mut World,
    name: &Name,
    effect: &Effect,
) -> Result<(), Stop>
    requires { IsWellMade effect.now (seen world.old).generics }
    ensures allows { Allows (table_refusal (Symbol name.now) effect.now.changes (seen world.old)) result }
    ensures reserved { OnOk result (IsReserved effect.now world.new.generics) }
    ensures same { seen world.new ≡ seen world.old }
    ensures kept { uses_of world.new ≡ uses_of world.old }
{
    let name = FunctionName::Symbol(name.copy()?);
    reserve(alloc, world, &name, effect)
}

/// Whether so many more cells may be made.
fn check_room(alloc: Global, world: &World, cells: u64) -> Result<(), Stop>
    ensures { Allows (when (not (has_room_for cells (seen world.now).store)) table_full) result }
{
    if !world.store().has_room_for(cells) {
        return Err(Stop::Refused(plain(alloc, ConditionKind::TableLimit)));
    }
    Ok(())
}

/// What is told of a fault of the table of classes, of a definition of the class of this name.
fn stop_for(alloc: Global, name: &Name, fault: ClassFault) -> Stop
    ensures { (o : Option Refusal) → Refuses fault o → StopsFor (option_map (condition_for name.now) o) result }
{
    match condition_for(alloc, name, fault) {
        Ok(condition) => Stop::Refused(condition),
        Err(stop) => stop,
    }
}

fn condition_for(alloc: Global, name: &Name, fault: ClassFault) -> Result<Condition, Stop>
    ensures found { IfOk result (λ c. (o : Option Refusal) → Refuses fault o → option_map (condition_for name.now) o ≡
        Some c) }
    ensures memory { IfErr result (λ e. e ≡ Storage) }
{
    match fault {
        ClassFault::ProgramError => Ok(plain(alloc, ConditionKind::ProgramError)),
        ClassFault::TableLimit => Ok(plain(alloc, ConditionKind::TableLimit)),
        ClassFault::InvalidSuperclass(superclass) => {
            let kind = ConditionKind::InvalidSuperclass;
            Ok(about_names(alloc, kind, name, &superclass)?)
        }
        ClassFault::SuperclassCycle => Ok(about_name(alloc, ConditionKind::SuperclassCycle, name)?),
        ClassFault::IncompleteClass => Ok(about_name(alloc, ConditionKind::IncompleteClass, name)?),
        ClassFault::InconsistentPrecedence(class) => {
            let kind = ConditionKind::InconsistentPrecedence;
            Ok(about_name(alloc, kind, &class)?)
        }
        ClassFault::Memory => Err(Stop::Storage),
    }
}
