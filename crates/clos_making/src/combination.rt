//! What a `define-method-combination` does (HyperSpec 7.7). It takes one step for the whole of its effect.
ghost use Rattle.std.specs.Prelude.{◌≡◌, ◌∷◌, [], OnErr, OnOk};
ghost use Rattle.clos_machine.specs.clos_world.clos_cache.Cache.{Drops, of_combination};
ghost use Rattle.clos_machine.specs.clos_world.clos_comb.Table.{name_of};
ghost use Rattle.clos_machine.specs.clos_world.Uses.{uses_of};
ghost use Rattle.clos_machine.specs.clos_world.World.{seen};
ghost use Rattle.clos_making.specs.Combination.{define_combination};
ghost use Rattle.clos_effects.specs.Effects.{AnswersNoting, UsesAfter};

use clos_forms::value_named;
use clos_machine::{CombinationDefinition, ConditionKind, Stop, World, name_of, plain};
use lisp_data::Value;
use std::alloc::Global;

/// Defines a method combination, in place of an older one of its name. What is kept under this name is dropped.
pub fn define_combination(
    alloc: Global,
    world: &mut World,
    definition: CombinationDefinition,
    steps: &mut u64,
) -> Result<Value, Stop>
    ensures answers { AnswersNoting (of_combination (name_of definition) ∷ []) (define_combination definition)
        (seen world.old) steps.old result (seen world.new) steps.new }
    ensures uses { UsesAfter (of_combination (name_of definition) ∷ []) (seen world.old) (uses_of world.old) result
        (uses_of world.new) }
    ensures left { OnOk result (Drops (of_combination (name_of definition)) world.old.cache world.new.cache) }
    ensures same { OnErr result (world.new.cache ≡ world.old.cache) }
    ensures meter { world.new.meter ≡ world.old.meter }
{
    let name = name_of(&definition);
    if world.combinations.is_predefined(name) {
        return Err(Stop::Refused(plain(alloc, ConditionKind::ProgramError)));
    }
    if !world.combinations.has_room(name) {
        return Err(Stop::Refused(plain(alloc, ConditionKind::TableLimit)));
    }
    if *steps == 0 {
        return Err(Stop::Refused(plain(alloc, ConditionKind::StepLimit)));
    }
    let (Ok(value), Ok(name)) = (value_named(name), name.copy()) else {
        return Err(Stop::Storage);
    };
    match world.combinations.define(alloc, definition) {
        Err(_) => Err(Stop::Storage),
        Ok(()) => {
            world.cache.drop_combination(&name);
            *steps -= 1;
            Ok(value)
        }
    }
}
