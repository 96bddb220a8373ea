//! The lexical names of the body that runs: variables (HyperSpec 3.1.2.1.1), and names that stand for slots (7.7).
ghost use Rattle.std.specs.Prelude.{◌≡◌, ◌∷◌, ◌++◌, [], IfOk, OnOk, MatchOption, map, option_map, length, is_some, true, false, IsTrue};
ghost use Rattle.lisp_data.specs.ValueView.{value_of};
ghost use Rattle.clos_forms.specs.BoundView.{bound, bound_slot};
ghost use Rattle.clos_meaning.specs.clos_world.Globals.{any_global};
ghost use Rattle.clos_meaning.specs.clos_world.World.{seen, held, in_slot, local_named, outermost};
ghost use Rattle.clos_meaning.specs.Assignment.{with_local};
ghost use Rattle.clos_machine.specs.LocalsView.{AreApart, AreOthers, denoted_of};
ghost use Rattle.clos_machine.specs.Machine.{Binds, Settles, Skips, settled, unset, unset_aside, with_next};
ghost use Rattle.clos_meaning.specs.Parameters.{required_sources};
ghost use Rattle.clos_meaning.specs.SlotNames.{slot_locals};
ghost use Rattle.clos_meaning.specs.Variables.{name_in};

use crate::parameters::{Origin, Parameter, ParameterPlan};
use crate::truth::nil;
use clos_forms::{Binding, Form, SlotBinding};
use clos_meaning::{ConditionKind, Stop, World, plain};
use lisp_data::{Name, Value};
use std::alloc::{AllocError, Global};
use std::marker::Model;

/// What a lexical name denotes.
#[derive(Drop)]
pub enum Denotation {
    /// A variable that holds this value.
    Held(Value),
    /// The slot of this name of this object.
    InSlot(Name, Value),
}

/// A lexical name, and what it denotes.
#[derive(Drop)]
pub struct Local {
    pub name: Name,
    pub denotation: Denotation,
}

/// Of so many names at most it is known whether they differ.
const FEW: usize = 16;

/// The lexical names in scope, and whether it is known that they differ. Contracts see the list, the innermost first.
#[derive(Drop)]
pub struct Locals {
    locals: Vec<Local>,
    apart: bool,
}

impl Model for Locals {
    ghost use Rattle.std.specs.Prelude.{List, map, reverse};
    ghost use Rattle.clos_meaning.specs.clos_world.World as world;
    ghost use Rattle.clos_machine.specs.inner.LocalsCode.{locals_code};

    ghost Value = { List world.Local };

    ghost coded = { locals_code };

    ghost use Rattle.clos_machine.specs.LocalsView.{local_of};

    ghost view = { λ a. reverse (map local_of a.locals.items) };

    ghost use Rattle.std.specs.Prelude.{◌≡◌, true};
    ghost use Rattle.clos_machine.specs.LocalsView.{AreApart};

    ghost invariant = { λ a. a.apart ≡ true → AreApart (reverse (map local_of a.locals.items)) };
}

impl Locals {
    /// No names.
    pub fn new(alloc: Global) -> Locals
        ensures { result ≡ [] }
    {
        Locals {
            locals: Vec::new(alloc),
            apart: true,
        }
    }

    /// One more variable, within the others.
    pub fn push(&mut self, name: Name, value: Value) -> Result<(), AllocError>
        ensures { OnOk result (self.new ≡ (name, held (value_of value)) ∷ self.old) }
    {
        self.push_local(name, Denotation::Held(value))
    }

    /// One more name, within the others, which denotes this.
    fn push_local(&mut self, name: Name, denotation: Denotation) -> Result<(), AllocError>
        ensures { OnOk result (self.new ≡ (name, denoted_of denotation) ∷ self.old) }
    {
        self.apart = self.apart && self.locals.len() < FEW && self.get(&name).is_none();
        self.locals.push(Local { name, denotation })?;
        Ok(())
    }

    /// One more name, within the others, which stands for the slot of this name of the object.
    fn push_slot(&mut self, name: Name, slot: Name, object: Value) -> Result<(), AllocError>
        ensures { OnOk result (self.new ≡ (name, in_slot slot (value_of object)) ∷ self.old) }
    {
        self.push_local(name, Denotation::InSlot(slot, object))
    }

    /// How many they are.
    #[tactic(auto, using(crate::proofs::Lists::as_many))]
    pub fn len(&self) -> usize
        ensures { result ≡ length self.now }
    {
        self.locals.len()
    }

    /// Leaves so many of the outermost.
    #[tactic(auto, using(crate::proofs::Lists::outermost_of_map))]
    pub fn leave(&mut self, outer: usize)
        ensures { self.new ≡ outermost outer self.old }
    {
        self.locals.truncate(outer);
    }

    /// What the innermost of this name denotes.
    pub fn get(&self, name: &Name) -> Option<&Denotation>
        ensures { option_map (λ d. denoted_of d.now) result ≡ local_named self.now name.now }
    {
        let locals = self.locals.as_slice();
        let mut place = locals.len();
        while place > 0 {
            place -= 1;
            if locals[place].name.is(name) {
                return Some(&locals[place].denotation);
            }
        }
        None
    }

    /// What the innermost of this name denotes, which is looked for at this place first, counted from the outermost.
    pub fn get_at(&self, name: &Name, place: usize) -> Option<&Denotation>
        ensures { option_map (λ d. denoted_of d.now) result ≡ local_named self.now name.now }
    {
        if self.apart && place < self.locals.len() && self.locals[place].name.is(name) {
            return Some(&self.locals[place].denotation);
        }
        self.get(name)
    }

    /// Makes the innermost of this name hold this value; where there is none, the value comes back.
    pub fn set(&mut self, name: &Name, value: Value) -> Option<Value>
        ensures { MatchOption result ((is_some (local_named self.old name.now) ≡ true) ×
            (self.new ≡ with_local name.now (value_of value) self.old))
            (λ v. (v ≡ value) × (is_some (local_named self.old name.now) ≡ false) × (self.new ≡ self.old)) }
    {
        let mut place = self.locals.len();
        while place > 0 {
            place -= 1;
            if self.locals[place].name.is(name) {
                self.locals[place].denotation = Denotation::Held(value);
                return None;
            }
        }
        Some(value)
    }

    /// Whether one of them is the name of a global variable.
    pub fn any_global(&self, world: &World) -> bool
        ensures { result ≡ any_global (seen world.now).globals (map name_in self.now) }
    {
        let locals = self.locals.as_slice();
        let mut place = locals.len();
        while place > 0 {
            place -= 1;
            if world.globals.has(&locals[place].name) {
                return true;
            }
        }
        false
    }

    /// Binds these too, within the others.
    pub fn append(&mut self, mut more: Locals) -> Result<(), AllocError>
        ensures { OnOk result (self.new ≡ more ++ self.old) }
    {
        let apart = self.stay_apart(&more);
        self.locals.append(&mut more.locals)?;
        self.apart = apart;
        Ok(())
    }

    /// Whether it is known that they and these names differ.
    fn stay_apart(&self, more: &Locals) -> bool
        ensures { IsTrue result → AreApart (more.now ++ self.now) }
    {
        if !self.apart || !more.apart {
            return false;
        }
        self.lacks(more)
    }

    /// Whether none of these names is among them, of few.
    fn lacks(&self, more: &Locals) -> bool
        ensures { IsTrue result → AreOthers more.now self.now }
    {
        let mut place = more.len();
        if place > FEW || self.len() > FEW {
            return false;
        }
        while place > 0 {
            place -= 1;
            if self.get(&more.locals[place].name).is_some() {
                return false;
            }
        }
        true
    }
}

/// The names of a `with-slots` form, which stand for the slots of this object.
#[tactic(auto, using(crate::proofs::Lists::last_mapped))]
pub fn slots_of(
    alloc: Global,
    bindings: &[SlotBinding],
    object: &Value,
) -> Result<Locals, AllocError>
    ensures { IfOk result (λ r. r ≡ slot_locals (map bound_slot bindings.now) (value_of object.now)) }
{
    let mut locals = Locals::new(alloc);
    let mut rest = bindings;
    while let Some((last, before)) = rest.split_last() {
        let variable = last.variable.copy()?;
        let slot = last.slot.copy()?;
        locals.push_slot(variable, slot, object.copy()?)?;
        rest = before;
    }
    Ok(locals)
}

/// These names bound to the values in turn, unless one of them is a global variable's.
pub fn bind(alloc: Global, world: &World, names: &[Name], values: &[Value]) -> Result<Locals, Stop>
    ensures { Binds (settled (seen world.now).globals (required_sources names.now (map value_of values.now)) []) result }
{
    let mut locals = Locals::new(alloc);
    let mut names_left = names;
    let mut values_left = values;
    while let Some((name, other_names)) = names_left.split_first() {
        let Some((value, other_values)) = values_left.split_first() else {
            return Ok(locals);
        };
        if world.globals.has(name) {
            return Err(Stop::Refused(plain(alloc, ConditionKind::Unsupported)));
        }
        locals.push(name.copy()?, value.copy()?)?;
        names_left = other_names;
        values_left = other_values;
    }
    Ok(locals)
}

/// Binds the parameters whose values are there, up to the next that has an init form, which is taken off.
pub fn settle(
    alloc: Global,
    world: &World,
    locals: &mut Locals,
    plan: &mut ParameterPlan,
) -> Result<Option<(Name, Form)>, Stop>
    ensures { Settles (settled (seen world.now).globals plan.old locals.old) result locals.new plan.new }
{
    while let Some(parameter) = plan.pop() {
        let Parameter { name, origin } = parameter;
        match origin {
            Origin::Init(form) => return Ok(Some((name, form))),
            Origin::Refused(condition) => return Err(Stop::Refused(condition)),
            Origin::Argument(value) => {
                if world.globals.has(&name) {
                    return Err(Stop::Refused(plain(alloc, ConditionKind::Unsupported)));
                }
                locals.push(name, value)?;
            }
        }
    }
    Ok(None)
}

/// The variables that are still to be bound, in order. Contracts see the list.
#[derive(Drop)]
pub struct Plan {
    left: Vec<Binding>,
}

impl Model for Plan {
    ghost use Rattle.std.specs.Prelude.{List, map, reverse};
    ghost use Rattle.clos_forms.specs.Operator.{Bound};
    ghost use Rattle.clos_forms.specs.inner.OperatorCode.{bounds_code};

    ghost Value = { List Bound };

    ghost coded = { bounds_code };

    ghost use Rattle.clos_forms.specs.BoundView.{bound};

    ghost view = { λ a. reverse (map bound a.left.items) };
}

impl Plan {
    /// All of these variables.
    #[tactic(auto, using(crate::proofs::Lists::last_mapped))]
    pub fn new(alloc: Global, bindings: &[Binding]) -> Result<Plan, AllocError>
        ensures { IfOk result (λ r. r ≡ map bound bindings.now) }
    {
        let mut plan = Plan {
            left: Vec::new(alloc),
        };
        let mut rest = bindings;
        while let Some((last, before)) = rest.split_last() {
            let name = last.name.copy()?;
            let has_init = last.has_init;
            plan.push(Binding { name, has_init })?;
            rest = before;
        }
        Ok(plan)
    }

    /// One more variable, before the others.
    fn push(&mut self, binding: Binding) -> Result<(), AllocError>
        ensures { OnOk result (self.new ≡ bound binding ∷ self.old) }
    {
        self.left.push(binding)?;
        Ok(())
    }

    /// Takes off the first.
    fn pop(&mut self) -> Option<Binding>
        ensures { MatchOption result ((self.old ≡ []) × (self.new ≡ [])) (λ b. self.old ≡ bound b ∷ self.new) }
    {
        self.left.pop()
    }
}

/// Binds the next variables that have no init form to NIL. The name of the first that has one is taken off.
pub fn bind_unset(
    alloc: Global,
    world: &World,
    locals: &mut Locals,
    plan: &mut Plan,
) -> Result<Option<Name>, Stop>
    ensures { Skips (unset (seen world.now).globals plan.old locals.old) result locals.new plan.new }
{
    while let Some(binding) = plan.pop() {
        let Binding { name, has_init } = binding;
        if has_init {
            return Ok(Some(name));
        }
        if world.globals.has(&name) {
            return Err(Stop::Refused(plain(alloc, ConditionKind::Unsupported)));
        }
        locals.push(name, nil())?;
    }
    Ok(None)
}

/// The same, where they are only put aside.
pub fn put_unset_aside(locals: &mut Locals, plan: &mut Plan) -> Result<Option<Name>, AllocError>
    ensures { IfOk result (λ next. unset_aside plan.old locals.old ≡ (locals.new, with_next next plan.new)) }
{
    while let Some(binding) = plan.pop() {
        let Binding { name, has_init } = binding;
        if has_init {
            return Ok(Some(name));
        }
        locals.push(name, nil())?;
    }
    Ok(None)
}
