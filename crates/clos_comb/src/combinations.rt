//! The method combinations of a session (HyperSpec 7.6.6.4, 7.7 `define-method-combination`).
ghost use Rattle.std.specs.Prelude.{◌≡◌, ◌+◌, true, IfOk, IsOk, OnOk, OnErr, None, Some, if◌then◌else◌, map, min, option_copied, option_map, slice_get};
ghost use Rattle.std.specs.List.{find};
ghost use Rattle.clos_generic.specs.TableView.{function_of};
ghost use Rattle.clos_groups.specs.clos_combination.declared.combination.CombinationDefinition.TheVariants.{Short, Long};
ghost use Rattle.clos_groups.specs.clos_method.MethodIds.{method_numbers};
ghost use Rattle.clos_comb.specs.Effective.{combined_for, effective, is_refused_at_once, takes_none};
ghost use Rattle.clos_comb.specs.Fault.{Allows, Checks, Tells, arguments, definition_refusal, misuse};
ghost use Rattle.lisp_data.specs.Name.{same_name};
ghost use Rattle.clos_comb.specs.OutcomeView.{combined_of};
ghost use Rattle.clos_comb.specs.TableView.{definition_of};
ghost use Rattle.std.specs.Map.{lookup};
ghost use Rattle.clos_comb.specs.Table.{built_in_form, built_in_named, has_room, initial, is_predefined, name_of, with_combination};

use crate::arguments::{is_no_data, short_direction, takes};
use crate::fault::{CombinationFault, UseFault};
use crate::groups::standard_groups;
use crate::long::combine_long;
use crate::meter::Meter;
use crate::outcome::Outcome;
use crate::short::{ShortCombination, combine_short};
use crate::standard::combine_standard;
use clos_forms::is_the;
use clos_generic::{Function, Generics};
use clos_groups::{CombinationDefinition, GroupSpecifier, LongForm, Method, Sequence, ShortForm};
use indexmap::IndexMap;
use lisp_data::{Data, GenericId, MethodId, Name};
use std::alloc::{AllocError, Global};
use std::marker::Model;

/// The names of the built-in short forms, and their operators (HyperSpec 7.6.6.4).
const BUILT_IN: [&str; 9] = [
    "+", "AND", "APPEND", "LIST", "MAX", "MIN", "NCONC", "OR", "PROGN",
];

/// A combination of the program's.
#[derive(Drop)]
pub enum Defined {
    Short(ShortCombination),
    Long(LongForm),
}

/// The method combinations of a session. Contracts see the program's, each by its name, in order of first definition.
#[derive(Drop)]
pub struct Combinations {
    standard: Sequence<GroupSpecifier>,
    system: Vec<ShortCombination>,
    defined: IndexMap<Name, Defined>,
    limit: u64,
}

impl Model for Combinations {
    ghost use Rattle.std.specs.Prelude.{◌≡◌};
    ghost use Rattle.clos_comb.specs.Groups.{standard_groups};
    ghost use Rattle.clos_comb.specs.Table.{Table, built_in};
    ghost use Rattle.clos_comb.specs.TableView.{entries_of};
    ghost use Rattle.clos_comb.specs.inner.TableCode.{table_code};

    ghost Value = { Table };

    ghost coded = { table_code };

    ghost view = { λ a. record { defined = entries_of a.defined.entries; limit = a.limit } };

    ghost invariant = { λ a. (a.standard ≡ standard_groups) × (a.system.items ≡ built_in) };
}

impl Combinations {
    /// The system's combinations, with room for so many of the program's, and the meter of what they make, which stands at 0.
    pub fn new(alloc: Global, limit: u64) -> Result<(Combinations, Meter), AllocError>
        ensures table { IfOk result (λ r. r.0 ≡ initial limit) }
        ensures meter { IfOk result (λ r. r.1 ≡ 0) }
    {
        let combinations = Combinations {
            standard: standard_groups(alloc)?,
            system: built_in_forms(alloc, &BUILT_IN)?,
            defined: IndexMap::new(alloc),
            limit,
        };
        Ok((combinations, Meter::new()))
    }

    /// The built-in short form of this name.
    fn built_in_named(&self, name: &Name) -> Option<&ShortCombination>
        ensures { option_copied result ≡ built_in_named name.now }
    {
        find_named(&self.system, name)
    }

    /// The program's combination of this name.
    #[tactic(auto, using(crate::proofs::Tables::looked_up))]
    fn defined_named(&self, name: &Name) -> Option<&Defined>
        ensures { option_map (λ d. definition_of d.now) result ≡ lookup (same_name name.now) self.now.defined }
    {
        self.defined.get(name)
    }

    /// The name at a place of the program's combinations, in order of first definition.
    #[tactic(auto, using(crate::proofs::Tables::name_at))]
    pub fn name(&self, place: usize) -> Option<&Name>
        ensures { option_copied result ≡ option_map (λ d. d.0) (slice_get self.now.defined place) }
    {
        match self.defined.get_index(place) {
            Some((name, _)) => Some(name),
            None => None,
        }
    }

    /// Whether the system has a combination of this name, which can't be defined again.
    pub fn is_predefined(&self, name: &Name) -> bool
        ensures { result ≡ is_predefined name.now }
    {
        is_the(name, "STANDARD") || self.built_in_named(name).is_some()
    }

    /// Whether there is one of this name, or room for a new one.
    pub fn has_room(&self, name: &Name) -> bool
        ensures { result ≡ has_room self.now name.now }
    {
        self.defined_named(name).is_some() || (self.defined.len() as u64) < self.limit
    }

    /// Why a combination of this name can't be defined, if it can't.
    fn check(&self, name: &Name) -> Result<(), CombinationFault>
        ensures { Checks result (definition_refusal self.now name.now) }
    {
        if self.is_predefined(name) {
            return Err(CombinationFault::Predefined);
        }
        if !self.has_room(name) {
            return Err(CombinationFault::TableLimit);
        }
        Ok(())
    }

    /// Defines a combination in place of an older one of its name, for the next call on.
    pub fn define(
        &mut self,
        alloc: Global,
        definition: CombinationDefinition,
    ) -> Result<(), CombinationFault>
        ensures allows { Allows result (definition_refusal self.old (name_of definition)) }
        ensures ok { OnOk result (self.new ≡ with_combination definition self.old) }
        ensures err { OnErr result (self.new ≡ self.old) }
    {
        match definition {
            CombinationDefinition::Short(form) => self.define_short(alloc, form),
            CombinationDefinition::Long(form) => self.define_long(form),
        }
    }

    /// Defines a short form in place of an older combination of its name, for the next call on.
    #[tactic(auto, using(crate::proofs::Tables::inserted))]
    pub fn define_short(&mut self, alloc: Global, form: ShortForm) -> Result<(), CombinationFault>
        ensures allows { Allows result (definition_refusal self.old form.name) }
        ensures ok { OnOk result (self.new ≡ with_combination (Short form) self.old) }
        ensures err { OnErr result (self.new ≡ self.old) }
    {
        self.check(&form.name)?;
        let name = form.name.copy()?;
        let combination = ShortCombination::new(alloc, form)?;
        self.defined.insert(name, Defined::Short(combination))?;
        Ok(())
    }

    /// Defines a long form in place of an older combination of its name, for the next call on.
    #[tactic(auto, using(crate::proofs::Tables::inserted))]
    pub fn define_long(&mut self, form: LongForm) -> Result<(), CombinationFault>
        ensures allows { Allows result (definition_refusal self.old form.name) }
        ensures ok { OnOk result (self.new ≡ with_combination (Long form) self.old) }
        ensures err { OnErr result (self.new ≡ self.old) }
    {
        self.check(&form.name)?;
        let name = form.name.copy()?;
        self.defined.insert(name, Defined::Long(form))?;
        Ok(())
    }

    /// Whether there is a combination of this name, and it takes these arguments. It takes no memory.
    pub fn fits(&self, name: &Name, arguments: &Data) -> Result<(), UseFault>
        ensures { Tells result (misuse self.now name.now arguments.now) }
    {
        if is_the(name, "STANDARD") {
            return if_taken(is_no_data(arguments));
        }
        if self.built_in_named(name).is_some() {
            return if_taken(short_direction(arguments).is_some());
        }
        match self.defined_named(name) {
            None => Err(UseFault::Undefined),
            Some(Defined::Short(_)) => if_taken(short_direction(arguments).is_some()),
            Some(Defined::Long(form)) => if_taken(takes(&form.parameters, arguments)),
        }
    }

    /// Combines these methods of a generic function, the most specific first, into an effective method, or tells why there is
    /// none. The meter is raised each time. To refuse a method that no group takes, or an empty group PRIMARY of the standard
    /// combination or a short form, takes no memory.
    pub fn effective(
        &self,
        alloc: Global,
        generics: &Generics,
        meter: &mut Meter,
        id: GenericId,
        methods: &[MethodId],
    ) -> Result<Outcome, AllocError>
        ensures outcome { IfOk result (λ r. combined_of r ≡ effective self.now generics.now.table id.0 (method_numbers methods.now)) }
        ensures free { is_refused_at_once self.now generics.now.table id.0 (method_numbers methods.now) ≡ true → IsOk result }
        ensures meter { meter.new ≡ min (meter.old + 1) u64.MAX }
    {
        meter.raise();
        match generics.function(id) {
            None => Ok(Outcome::BadExpansion),
            Some(function) => self.combine(alloc, generics.methods(), function, methods),
        }
    }

    /// Combines these methods of a function by its combination.
    fn combine(
        &self,
        alloc: Global,
        methods: &[Method],
        function: &Function,
        ids: &[MethodId],
    ) -> Result<Outcome, AllocError>
        ensures outcome { IfOk result (λ r. combined_of r ≡ combined_for self.now methods.now (method_numbers ids.now) (Some (function_of function.now))) }
        ensures free { takes_none self.now methods.now (method_numbers ids.now) (Some (function_of function.now)) ≡ true → IsOk result }
    {
        let name = &function.combination().name;
        let arguments = &function.combination().arguments;
        let added = function.methods();
        if is_the(name, "STANDARD") {
            let groups = self.standard.as_slice();
            return combine_standard(alloc, methods, groups, added, arguments, ids);
        }
        if let Some(short) = self.built_in_named(name) {
            return combine_short(alloc, short, methods, added, arguments, ids);
        }
        match self.defined_named(name) {
            None => Ok(Outcome::BadExpansion),
            Some(Defined::Short(short)) => {
                combine_short(alloc, short, methods, added, arguments, ids)
            }
            Some(Defined::Long(form)) => combine_long(alloc, form, methods, added, arguments, ids),
        }
    }
}

/// Nothing, or the fault of arguments that are not taken.
fn if_taken(taken: bool) -> Result<(), UseFault>
    ensures { Tells result (if taken then None else Some arguments) }
{
    if taken {
        return Ok(());
    }
    Err(UseFault::Arguments)
}

/// The name of what is defined.
pub fn name_of(definition: &CombinationDefinition) -> &Name
    ensures { result.now ≡ name_of definition.now }
{
    match definition {
        CombinationDefinition::Short(form) => &form.name,
        CombinationDefinition::Long(form) => &form.name,
    }
}

/// A short form whose operator is that of its name; of all but LIST the call of one method stands alone.
fn built_in_form(alloc: Global, text: &str) -> Result<ShortForm, AllocError>
    ensures { IfOk result (λ r. r ≡ built_in_form text.now) }
{
    let name = Name::new(alloc, text, false)?;
    Ok(ShortForm {
        operator: name.copy()?,
        name,
        identity: text != "LIST",
    })
}

/// The built-in short forms of these names.
fn built_in_forms(alloc: Global, texts: &[&str]) -> Result<Vec<ShortCombination>, AllocError>
    ensures { IfOk result (λ r. r.items ≡ map built_in_form (map (λ t. t.now) texts.now)) }
{
    let mut forms = Vec::new(alloc);
    for text in texts {
        let form = built_in_form(alloc, text)?;
        forms.push(ShortCombination::new(alloc, form)?)?;
    }
    Ok(forms)
}

/// The one of this name.
fn find_named<'a>(forms: &'a [ShortCombination], name: &Name) -> Option<&'a ShortCombination>
    ensures { option_copied result ≡ find (λ s. same_name s.name name.now) forms.now }
{
    for form in forms {
        if form.form().name.is(name) {
            return Some(form);
        }
    }
    None
}
