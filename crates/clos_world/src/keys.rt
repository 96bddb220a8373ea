//! The keys under which effective methods are kept.
ghost use Rattle.std.specs.Prelude.{◌≡◌, IfOk, map};
ghost use Rattle.lisp_data.specs.ValueView.{value_of};
ghost use Rattle.clos_cache.specs.KeyView.{argument_of, arguments_in};
ghost use Rattle.clos_world.specs.Keys.{argument_at, arguments_from, key_of};
ghost use Rattle.clos_world.specs.World.{seen};

use crate::dispatch::first_values;
use crate::tables::World;
use clos_cache::{Argument, Key};
use lisp_data::{GenericId, Value};
use std::alloc::{AllocError, Global};

impl World {
    /// The key of a call of a generic function with these arguments.
    pub fn key_of(&self, alloc: Global, id: GenericId, values: &[Value]) -> Result<Key, AllocError>
        ensures { IfOk result (λ k. k ≡ key_of (seen self.now) id.0 (map value_of values.now)) }
    {
        match first_values(values, self.required_by(id)) {
            [] => Ok(Key::of_none(id)),
            [only] => Ok(Key::of_one(id, self.argument_at(id, 0, only)?)),
            [first, second] => {
                let first = self.argument_at(id, 0, first)?;
                Ok(Key::of_two(id, first, self.argument_at(id, 1, second)?))
            }
            all => Ok(Key::of_all(id, self.arguments_of(alloc, id, all)?)),
        }
    }

    /// What a key knows of the arguments, of which the first stands at the first place.
    fn arguments_of(
        &self,
        alloc: Global,
        id: GenericId,
        values: &[Value],
    ) -> Result<Vec<Argument>, AllocError>
        ensures { IfOk result (λ r. arguments_in r.items ≡ arguments_from (seen self.now) id.0 0 (map value_of values.now)) }
    {
        let mut arguments = Vec::with_capacity(alloc, values.len())?;
        let mut place = 0;
        while place < values.len() {
            arguments.push(self.argument_at(id, place, &values[place])?)?;
            place += 1;
        }
        Ok(arguments)
    }

    /// What a key knows of the argument at this place.
    fn argument_at(
        &self,
        id: GenericId,
        place: usize,
        value: &Value,
    ) -> Result<Argument, AllocError>
        ensures { IfOk result (λ a. argument_of a ≡ argument_at (seen self.now) id.0 place (value_of value.now)) }
    {
        let class = self.class_of_value(value);
        if !self.generics.has_eql(id, place, value) {
            return Ok(Argument {
                class,
                object: None,
            });
        }
        Ok(Argument {
            class,
            object: Some(value.copy()?),
        })
    }
}
