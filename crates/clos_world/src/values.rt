//! Values in order.
ghost use Rattle.std.specs.Prelude.{◌≡◌, ◌++◌, ◌∷◌, [], map, if◌then◌else◌, is_ok, option_map, length, IfOk, MatchOption, OnOk};
ghost use Rattle.lisp_data.specs.ValueView.{value_of};
ghost use Rattle.clos_world.specs.Values.{last_first, only_value};

use lisp_data::Value;
use std::alloc::{AllocError, Global};
use std::marker::Model;

/// Values, in order. Contracts see the list.
pub struct Values {
    values: Vec<Value>,
}

impl Drop for Values {
    fn drop(self) {
        let Values { values: _ } = self;
    }
}

impl Model for Values {
    ghost use Rattle.std.specs.Prelude.{List, map};
    ghost use Rattle.std.specs.Coded.{coded_list};
    ghost use Rattle.lisp_data.specs.Value.{Val};
    ghost use Rattle.lisp_data.specs.inner.ValueCode.{value_code};

    ghost Value = { List Val };

    ghost coded = { coded_list value_code };

    ghost use Rattle.lisp_data.specs.ValueView.{value_of};

    ghost view = { λ a. map value_of a.values.items };
}

impl Values {
    /// No values.
    pub fn new(alloc: Global) -> Values
        ensures { result ≡ [] }
    {
        Values {
            values: Vec::new(alloc),
        }
    }

    /// One more value, at the end.
    pub fn push(&mut self, value: Value) -> Result<(), AllocError>
        ensures { self.new ≡ (if is_ok result then self.old ++ value_of value ∷ [] else self.old) }
    {
        self.values.push(value)?;
        Ok(())
    }

    /// Copies of these values, at the end; where memory is refused, only some of them.
    pub fn push_all(&mut self, values: &[Value]) -> Result<(), AllocError>
        ensures { OnOk result (self.new ≡ self.old ++ map value_of values.now) }
    {
        for value in values {
            self.values.push(value.copy()?)?;
        }
        Ok(())
    }

    /// One more value, before all others.
    pub fn push_first(&mut self, value: Value) -> Result<(), AllocError>
        ensures { self.new ≡ (if is_ok result then value_of value ∷ self.old else self.old) }
    {
        self.values.insert(0, value)?;
        Ok(())
    }

    /// How many they are.
    #[tactic(auto, using(std::proofs::lemmas::Grind::common_steps))]
    pub fn len(&self) -> usize
        ensures { result ≡ length self.now }
    {
        self.values.len()
    }

    /// The values.
    pub fn as_slice(&self) -> &[Value]
        ensures { map value_of result.now ≡ self.now }
    {
        self.values.as_slice()
    }

    /// The one value, where they are not fewer or more.
    pub fn only(&self) -> Option<&Value>
        ensures { option_map (λ v. value_of v.now) result ≡ only_value self.now }
    {
        match self.values.as_slice() {
            [value] => Some(value),
            _ => None,
        }
    }

    /// The same values.
    pub fn copy(&self, alloc: Global) -> Result<Values, AllocError>
        ensures { IfOk result (λ r. r ≡ self.now) }
    {
        let mut values = Vec::new(alloc);
        for value in self.values.as_slice() {
            values.push(value.copy()?)?;
        }
        Ok(Values { values })
    }

    /// These too, after the others.
    pub fn append(&mut self, mut more: Values) -> Result<(), AllocError>
        ensures { OnOk result (self.new ≡ self.old ++ more) }
    {
        self.values.append(&mut more.values)?;
        Ok(())
    }

    /// Takes off the first value.
    pub fn take_first(&mut self) -> Option<Value>
        ensures { MatchOption result (self.old ≡ []) (λ v. self.old ≡ value_of v ∷ self.new) }
    {
        if self.values.is_empty() {
            return None;
        }
        Some(self.values.remove(0))
    }

    /// Takes off the last value.
    #[tactic(auto, using(crate::proofs::Lists::last_before))]
    pub fn take_last(&mut self) -> Option<Value>
        ensures { MatchOption result (last_first self.old ≡ []) (λ v. last_first self.old ≡ value_of v ∷ self.new) }
    {
        self.values.pop()
    }

    /// Puts the last value before the others.
    #[tactic(auto, using(crate::proofs::Lists::last_before))]
    pub fn put_last_first(&mut self) -> Result<(), AllocError>
        ensures { OnOk result (self.new ≡ last_first self.old) }
    {
        if let Some(last) = self.values.pop() {
            self.values.insert(0, last)?;
        }
        Ok(())
    }
}
