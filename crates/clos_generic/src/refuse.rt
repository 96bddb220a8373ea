//! Why the changes of a definition form can't be made.
ghost use Rattle.std.specs.Prelude.{◌≡◌, ◌<◌, ◌≤◌, ◌+◌, None, MatchResult, not, is_some, option_map, slice_get};
ghost use Rattle.std.specs.List.{list_all, list_any};
ghost use Rattle.clos_method.specs.MethodIds.{method_numbers};
ghost use Rattle.clos_generic.specs.Changes.{addition_fits, all_congruent, all_supported, changes_refusal, closed_refusal, definition_fits, fits_or_goes, has_open, is_removal_of, is_supported, new_functions, one_more_if_new, has_number, removals_refusal, shape_after, shape_if, shape_in, too_many};
ghost use Rattle.clos_generic.specs.Fault.{is_system};
ghost use Rattle.clos_generic.specs.FaultView.{Tells};
ghost use Rattle.clos_generic.specs.Table.{named};

use crate::changes::{Addition, Changes, Definition, Likeness, Removal};
use crate::fault::GenericFault;
use crate::methods::{all_permitted, fits_at};
use crate::table::Generics;
use clos_forms::FunctionName;
use clos_method::{Shape, SystemFunction, is_congruent};
use lisp_data::{GenericId, MethodId};

/// Whether a method is to go from this function.
fn goes(removals: &[Removal], id: GenericId, method: MethodId) -> bool
    ensures { result ≡ list_any (is_removal_of id.0 method.0) removals.now }
{
    removals
        .iter()
        .any(|r| r.generic.0 == id.0 && r.method.0 == method.0)
}

fn is_open(additions: &[Addition]) -> bool
    ensures { result ≡ has_open additions.now }
{
    additions.iter().any(|a| a.likeness.is_none())
}

impl Generics {
    /// Whether those of these methods of a function that stay may be ones of a function of this shape.
    fn all_stay_or_go(
        &self,
        removals: &[Removal],
        id: GenericId,
        shape: &Shape,
        methods: &[MethodId],
    ) -> bool
        ensures { result ≡ list_all (fits_or_goes self.now.table removals.now id.0 shape.now) (method_numbers methods.now) }
    {
        let mut left = methods;
        while let Some((method, others)) = left.split_first() {
            if !goes(removals, id, *method) && !fits_at(self.methods(), *method, shape) {
                return false;
            }
            left = others;
        }
        true
    }

    fn definition_fits(&self, removals: &[Removal], definition: &Definition) -> bool
        ensures { result ≡ definition_fits self.now.table removals.now definition.now }
    {
        match self.named(&definition.name) {
            None => true,
            Some(id) => match self.function(id) {
                None => true,
                Some(function) => self.all_stay_or_go(
                    removals,
                    id,
                    &definition.options.shape,
                    function.methods(),
                ),
            },
        }
    }

    fn definitions_fit(&self, removals: &[Removal], definitions: &[Definition]) -> bool
        ensures { result ≡ list_all (definition_fits self.now.table removals.now) definitions.now }
    {
        let mut left = definitions;
        while let Some((definition, others)) = left.split_first() {
            if !self.definition_fits(removals, definition) {
                return false;
            }
            left = others;
        }
        true
    }

    /// The shape that a function has, if there is one of this number.
    fn shape_now(&self, id: GenericId) -> Option<&Shape>
        ensures { option_map (λ s. s.now) result ≡ shape_in (slice_get self.now.table.functions id.0) }
    {
        match self.function(id) {
            None => None,
            Some(function) => Some(function.shape()),
        }
    }

    /// Whether the function that was found, or a new one after so many new ones, has this number.
    fn has_number(&self, found: Option<GenericId>, added: usize, id: GenericId) -> bool
        ensures { result ≡ has_number self.now.table (option_map (λ g. g.0) found) added id.0 }
    {
        let count = self.function_count();
        match found {
            Some(found) => found.0 == id.0,
            None => id.0 >= count && (id.0 - count) as usize == added,
        }
    }

    /// The shape that it has after these definitions.
    fn shape_after<'a>(&'a self, definitions: &'a [Definition], id: GenericId) -> Option<&'a Shape>
        ensures { option_map (λ s. s.now) result ≡ shape_after self.now.table 0 definitions.now id.0 (shape_in (slice_get self.now.table.functions id.0)) }
    {
        let mut shape = self.shape_now(id);
        let mut added = 0;
        let mut left = definitions;
        while let Some((definition, others)) = left.split_first() {
            let found = self.named(&definition.name);
            shape = shape_if(
                self.has_number(found, added, id),
                &definition.options.shape,
                shape,
            );
            added = one_more_if_new(found, added);
            left = others;
        }
        shape
    }

    /// Whether a method may be one of its function, as it is after these definitions (HyperSpec 7.6.4).
    pub fn addition_fits(&self, definitions: &[Definition], addition: &Addition) -> bool
        ensures { result ≡ addition_fits self.now.table definitions.now addition.now }
    {
        match self.shape_after(definitions, addition.generic) {
            None => true,
            Some(shape) => is_congruent(shape, &addition.shape),
        }
    }

    fn additions_fit(&self, definitions: &[Definition], additions: &[Addition]) -> bool
        ensures { result ≡ list_all (addition_fits self.now.table definitions.now) additions.now }
    {
        let mut left = additions;
        while let Some((addition, others)) = left.split_first() {
            if !self.addition_fits(definitions, addition) {
                return false;
            }
            left = others;
        }
        true
    }

    fn all_congruent(&self, changes: &Changes) -> bool
        ensures { result ≡ all_congruent self.now.table changes.now }
    {
        self.definitions_fit(changes.removals(), changes.definitions())
            && self.additions_fit(changes.definitions(), changes.additions())
    }

    fn refuse_removals(&self, removals: &[Removal]) -> Result<(), GenericFault>
        ensures { MatchResult result (λ _. removals_refusal self.now.table removals.now ≡ None) (λ e. Tells e (removals_refusal self.now.table removals.now)) }
    {
        let mut left = removals;
        while let Some((removal, others)) = left.split_first() {
            if let Err(fault) = self.refuse_removal(removal.generic, removal.method) {
                return Err(fault);
            }
            left = others;
        }
        Ok(())
    }

    fn is_supported(&self, id: GenericId, likeness: &Option<Likeness>) -> bool
        ensures { result ≡ is_supported self.now.table id.0 likeness.now }
    {
        match likeness {
            None => true,
            Some(likeness) => {
                all_permitted(&likeness.specializers)
                    && !self.has_of_system(id, &likeness.qualifiers, &likeness.specializers)
            }
        }
    }

    fn all_supported(&self, changes: &Changes) -> bool
        ensures { result ≡ all_supported self.now.table changes.now }
    {
        self.none_of_system(changes.definitions()) && self.additions_supported(changes.additions())
    }

    fn is_of_system(&self, name: &FunctionName) -> bool
        ensures { result ≡ is_system (named self.now.table name.now) }
    {
        match self.named(name) {
            None => false,
            Some(found) => found.0 < SystemFunction::COUNT,
        }
    }

    fn none_of_system(&self, definitions: &[Definition]) -> bool
        ensures { result ≡ list_all (λ d. not (is_system (named self.now.table d.name))) definitions.now }
    {
        let mut left = definitions;
        while let Some((definition, others)) = left.split_first() {
            if self.is_of_system(&definition.name) {
                return false;
            }
            left = others;
        }
        true
    }

    fn additions_supported(&self, additions: &[Addition]) -> bool
        ensures { result ≡ list_all (λ a. is_supported self.now.table a.generic.0 a.likeness) additions.now }
    {
        let mut left = additions;
        while let Some((addition, others)) = left.split_first() {
            if !self.is_supported(addition.generic, &addition.likeness) {
                return false;
            }
            left = others;
        }
        true
    }

    fn new_functions(&self, definitions: &[Definition]) -> usize
        ensures { result ≡ new_functions self.now.table definitions.now }
    {
        definitions
            .iter()
            .filter(|d| !self.named(&d.name).is_some())
            .count()
    }

    fn has_too_many(&self, changes: &Changes) -> bool
        ensures { result ≡ too_many self.now.table changes.now }
    {
        self.functions_left() < self.new_functions(changes.definitions()) as u64
            || self.methods_left() < changes.additions().len() as u64
    }

    fn refuse_closed(&self, changes: &Changes) -> Result<(), GenericFault>
        ensures { MatchResult result (λ _. closed_refusal self.now.table changes.now ≡ None) (λ e. Tells e (closed_refusal self.now.table changes.now)) }
    {
        if let Err(fault) = self.refuse_removals(changes.removals()) {
            return Err(fault);
        }
        if !self.all_supported(changes) {
            return Err(GenericFault::Unsupported);
        }
        if self.has_too_many(changes) {
            return Err(GenericFault::TableLimit);
        }
        Ok(())
    }

    /// The first fault of these changes. It takes no memory.
    pub fn refuse_changes(&self, changes: &Changes) -> Result<(), GenericFault>
        ensures { MatchResult result (λ _. changes_refusal self.now.table changes.now ≡ None) (λ e. Tells e (changes_refusal self.now.table changes.now)) }
    {
        if !self.all_congruent(changes) {
            return Err(GenericFault::Incongruent);
        }
        if is_open(changes.additions()) {
            return Ok(());
        }
        self.refuse_closed(changes)
    }
}

fn shape_if<'a>(is: bool, shape: &'a Shape, other: Option<&'a Shape>) -> Option<&'a Shape>
    ensures { option_map (λ s. s.now) result ≡ shape_if is shape.now (option_map (λ s. s.now) other.entry) }
{
    if is { Some(shape) } else { other }
}

fn one_more_if_new(found: Option<GenericId>, added: usize) -> usize
    requires { added < usize.MAX }
    ensures value { result ≡ one_more_if_new (option_map (λ g. g.0) found) added }
    ensures bound { result ≤ added + 1 }
{
    match found {
        None => added + 1,
        Some(_) => added,
    }
}
