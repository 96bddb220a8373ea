//! The methods that the initargs of an instance reach (HyperSpec 7.1.2).
ghost use Rattle.std.specs.Prelude.{◌≡◌, ◌∷◌, [], IfOk, OnErr, OnOk, map};
ghost use Rattle.std.specs.List.{list_any};
ghost use Rattle.lisp_data.specs.Value.{instance};
ghost use Rattle.lisp_data.specs.ValueView.{value_of};
ghost use Rattle.clos_method.specs.Keywords.{method_allows, method_names};
ghost use Rattle.clos_method.specs.System.{system_number};
ghost use Rattle.clos_method.specs.declared.system.SystemFunction.TheVariants.{SharedInitialize};
ghost use Rattle.clos_machine.specs.clos_world.Dispatch.{ordered};
ghost use Rattle.clos_machine.specs.clos_world.Keys.{key_of};
ghost use Rattle.clos_machine.specs.clos_world.Uses.{AtMostOneMore, uses_of};
ghost use Rattle.clos_machine.specs.clos_world.World.{seen};
ghost use Rattle.clos_machine.specs.clos_meaning.Initialization.{methods_reached, reaching};
ghost use Rattle.clos_machine.specs.clos_meaning.Outcome.{used};
ghost use Rattle.clos_machine.specs.clos_meaning.Uses.{after_notes, most, with_note};
ghost use Rattle.clos_machine.specs.Uses.{MadeSome};

use clos_machine::{EffectiveMethod, Values, World};
use clos_method::{Method, SystemFunction, any_allows, any_names};
use lisp_data::{InstanceId, Name, Value};
use std::alloc::{AllocError, Global};
use std::marker::Model;
use std::rc::Rc;

/// Those of a function and those of shared-initialize. Contracts see one list.
#[derive(Drop)]
pub struct Reached {
    function: Rc<EffectiveMethod>,
    shared: Rc<EffectiveMethod>,
}

impl Model for Reached {
    ghost use Rattle.std.specs.Prelude.{List, ℕ, ◌++◌};
    ghost use Rattle.std.specs.Coded.{coded_list, coded_ℕ};

    ghost Value = { List ℕ };

    ghost coded = { coded_list coded_ℕ };

    ghost view = { λ a. a.function.value.methods ++ a.shared.value.methods };
}

impl Reached {
    /// Whether one of them has `&allow-other-keys`.
    #[tactic(auto, using(crate::proofs::Reaching::either_any))]
    pub fn allows(&self, methods: &[Method]) -> bool
        ensures { result ≡ list_any (method_allows methods.now) self.now }
    {
        any_allows(methods, self.function.methods.as_slice())
            || any_allows(methods, self.shared.methods.as_slice())
    }

    /// Whether one of them names this keyword.
    #[tactic(auto, using(crate::proofs::Reaching::either_any))]
    pub fn names(&self, methods: &[Method], name: &Name) -> bool
        ensures { result ≡ list_any (method_names methods.now name.now) self.now }
    {
        any_names(methods, self.function.methods.as_slice(), name)
            || any_names(methods, self.shared.methods.as_slice(), name)
    }
}

/// Those that the initargs of a call of this function with these arguments reach, and of shared-initialize with these names of
/// slots.
#[tactic(auto, using(clos_machine::proofs::Uses::none_made, crate::proofs::Reaching::second_refused))]
pub fn methods_reached(
    alloc: Global,
    world: &mut World,
    function: SystemFunction,
    arguments: &[Value],
    id: InstanceId,
    names: Value,
) -> Result<Reached, AllocError>
    ensures reached { IfOk result (λ r. r ≡ methods_reached (seen world.old) function (map value_of arguments.now) id.0
        (value_of names)) }
    ensures same { seen world.new ≡ seen world.old }
    ensures uses { OnOk result (uses_of world.new ≡ after_notes (reaching (seen world.old) function
        (map value_of arguments.now) id.0 (value_of names)) (uses_of world.old)) }
    ensures refused { OnErr result (MadeSome (reaching (seen world.old) function (map value_of arguments.now) id.0
        (value_of names)) (uses_of world.old) (uses_of world.new)) }
{
    let Ok(own) = world.effective_method(alloc, function.id(), arguments) else {
        drop(names);
        return Err(AllocError);
    };
    let shared = shared_methods(alloc, world, id, names)?;
    Ok(Reached {
        function: own,
        shared,
    })
}

/// Those of shared-initialize with these names of slots.
fn shared_methods(
    alloc: Global,
    world: &mut World,
    id: InstanceId,
    names: Value,
) -> Result<Rc<EffectiveMethod>, AllocError>
    ensures methods { IfOk result (λ r. r.value.methods ≡ ordered (seen world.old) (system_number SharedInitialize)
        (instance id.0 ∷ value_of names ∷ [])) }
    ensures same { seen world.new ≡ seen world.old }
    ensures uses { OnOk result (uses_of world.new ≡ with_note (used (key_of (seen world.old)
        (system_number SharedInitialize) (instance id.0 ∷ value_of names ∷ []))) (uses_of world.old)) }
    ensures refused { OnErr result (AtMostOneMore most (uses_of world.old) (uses_of world.new)) }
{
    let mut arguments = Values::new(alloc);
    let Ok(()) = arguments.push(Value::Instance(id)) else {
        drop(names);
        return Err(AllocError);
    };
    arguments.push(names)?;
    world.effective_method(
        alloc,
        SystemFunction::SharedInitialize.id(),
        arguments.as_slice(),
    )
}
