//! The methods that a call of a generic function finds.
ghost use Rattle.std.specs.Prelude.{◌≡◌, ◌+◌, ◌≤◌, ◌⊎◌, IfOk, OnErr, OnOk, length, map, min, take};
ghost use Rattle.clos_cache.specs.Uses.{with_use};
ghost use Rattle.lisp_data.specs.ValueView.{value_of};
ghost use Rattle.clos_precedence.specs.PrecedenceView.{numbers};
ghost use Rattle.clos_comb.specs.Effective.{effective};
ghost use Rattle.clos_comb.specs.OutcomeView.{combined_of};
ghost use Rattle.clos_world.specs.Dispatch.{CallsAreInOrder, IsInOrder, combination_of, ordered, required_by};
ghost use Rattle.clos_world.specs.Keys.{key_of};
ghost use Rattle.clos_world.specs.Uses.{AtMostOneMore, uses_of};
ghost use Rattle.clos_world.specs.World.{class_of, seen};

use crate::effective_method::EffectiveMethod;
use crate::tables::World;
use clos_method::{Arguments, MethodIds};
use lisp_data::{ClassId, GenericId, Name, Value};
use std::alloc::{AllocError, Global};
use std::rc::Rc;

impl World {
    /// The methods of a generic function that are applicable to these arguments, with what they are combined into: as it is
    /// kept, or worked out and kept. Where memory is refused, it may have been worked out.
    pub fn effective_method(
        &mut self,
        alloc: Global,
        id: GenericId,
        values: &[Value],
    ) -> Result<Rc<EffectiveMethod>, AllocError>
        ensures methods { IfOk result (λ r. r.value.methods ≡ ordered (seen self.old) id.0 (map value_of values.now)) }
        ensures outcome { IfOk result (λ r. combined_of r.value.outcome
            ≡ effective self.old.combinations self.old.generics.table id.0 (ordered (seen self.old) id.0 (map value_of values.now))) }
        ensures same { seen self.new ≡ seen self.old }
        ensures uses { OnOk result (uses_of self.new ≡ with_use u64.MAX (key_of (seen self.old) id.0 (map value_of values.now)) (uses_of self.old)) }
        ensures refused { OnErr result (AtMostOneMore u64.MAX (uses_of self.old) (uses_of self.new)) }
    {
        let key = self.key_of(alloc, id, values)?;
        if let Some(kept) = self.cache.find(&key) {
            return Ok(kept.clone()?);
        }
        let combination = self.combination_of(id)?;
        let found = self.worked_out(alloc, id, values)?;
        let given = found.clone()?;
        self.cache.keep(key, combination, found)?;
        Ok(given)
    }

    /// The same, with no regard to what is kept.
    fn worked_out(
        &mut self,
        alloc: Global,
        id: GenericId,
        values: &[Value],
    ) -> Result<Rc<EffectiveMethod>, AllocError>
        ensures methods { IfOk result (λ r. r.value.methods ≡ ordered (seen self.old) id.0 (map value_of values.now)) }
        ensures outcome { IfOk result (λ r. combined_of r.value.outcome
            ≡ effective self.old.combinations self.old.generics.table id.0 (ordered (seen self.old) id.0 (map value_of values.now))) }
        ensures same { seen self.new ≡ seen self.old }
        ensures kept { self.new.cache ≡ self.old.cache }
        ensures meter { OnOk result (self.new.meter ≡ min (self.old.meter + 1) u64.MAX) }
        ensures refused { OnErr result ((self.new.meter ≡ self.old.meter) ⊎ (self.new.meter ≡ min (self.old.meter + 1) u64.MAX)) }
    {
        let methods = self.ordered(alloc, id, values)?;
        let outcome = self.combinations.effective(
            alloc,
            &self.generics,
            &mut self.meter,
            id,
            methods.as_slice(),
        )?;
        Ok(Rc::new(alloc, EffectiveMethod { methods, outcome })?)
    }

    /// The name of the method combination of a generic function.
    fn combination_of(&self, id: GenericId) -> Result<Name, AllocError>
        ensures { IfOk result (λ n. n ≡ combination_of (seen self.now) id.0) }
    {
        match self.generics.function(id) {
            None => Ok(Name::fixed(&"STANDARD")),
            Some(function) => function.combination().name.copy(),
        }
    }

    /// The methods of a generic function that are applicable to these arguments, the most specific first (HyperSpec
    /// 7.6.6.1). The arguments of the required parameters decide.
    pub fn ordered(
        &self,
        alloc: Global,
        id: GenericId,
        values: &[Value],
    ) -> Result<MethodIds, AllocError>
        ensures is { IfOk result (λ r. r ≡ ordered (seen self.now) id.0 (map value_of values.now)) }
        ensures in_order { IfOk result (λ r. required_by (seen self.now) id.0 ≤ length values.now
            → IsInOrder (seen self.now) id.0 (map value_of values.now) r) }
    {
        self.calls_are_in_order();
        let values = first_values(values, self.required_by(id));
        let classes = self.classes_of(alloc, values)?;
        let arguments = Arguments::new(self.classes(), &classes, values);
        self.generics.ordered(alloc, id, &arguments)
    }

    /// In every state the methods that a call finds are in order, and no other list of methods is (HyperSpec 7.6.6.1).
    pub fn calls_are_in_order(&self)
        ensures { CallsAreInOrder (seen self.now) }
    {
        self.generics.are_sound();
    }

    /// How many required parameters a generic function has.
    pub(crate) fn required_by(&self, id: GenericId) -> u64
        ensures { result ≡ required_by (seen self.now) id.0 }
    {
        match self.generics.function(id) {
            None => 0,
            Some(function) => function.shape().required,
        }
    }

    /// The classes of these values.
    fn classes_of(&self, alloc: Global, values: &[Value]) -> Result<Vec<ClassId>, AllocError>
        ensures { IfOk result (λ r. numbers r.items ≡ map (class_of (seen self.now)) (map value_of values.now)) }
    {
        let mut classes = Vec::with_capacity(alloc, values.len())?;
        for value in values {
            classes.push(self.class_of_value(value))?;
        }
        Ok(classes)
    }
}

/// So many of these values, or all.
#[tactic(auto, using(crate::proofs::Lists::all_taken, crate::proofs::Lists::some_taken))]
pub(crate) fn first_values(values: &[Value], count: u64) -> &[Value]
    ensures { map value_of result.now ≡ take count (map value_of values.now) }
{
    if values.len() as u64 <= count {
        return values;
    }
    &values[..count as usize]
}
