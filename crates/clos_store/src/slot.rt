//! The place of a slot's value.
ghost use Rattle.std.specs.Prelude.{◌≡◌, IfOk, option_map};
ghost use Rattle.lisp_data.specs.ValueView.{value_of};

use lisp_data::Value;
use std::alloc::AllocError;
use std::marker::Model;

/// The place of a slot's value: where it has none, the slot is unbound (HyperSpec 7.5.1).
#[derive(Drop)]
pub struct Slot {
    value: Option<Value>,
}

impl Model for Slot {
    ghost use Rattle.std.specs.Prelude.{Option, option_map};
    ghost use Rattle.std.specs.Coded.{coded_option};
    ghost use Rattle.lisp_data.specs.Value.{Val};
    ghost use Rattle.lisp_data.specs.inner.ValueCode.{value_code};

    ghost Value = { Option Val };

    ghost coded = { coded_option value_code };

    ghost use Rattle.lisp_data.specs.ValueView.{value_of};

    ghost view = { λ a. option_map value_of a.value };
}

impl Slot {
    /// With this value, or unbound.
    pub fn new(value: Option<Value>) -> Slot
        ensures { result ≡ option_map value_of value }
    {
        Slot { value }
    }

    /// The same, in a few steps whatever the value's size.
    pub fn copy(&self) -> Result<Slot, AllocError>
        ensures { IfOk result (λ r. r ≡ self.now) }
    {
        match &self.value {
            None => Ok(Slot { value: None }),
            Some(value) => Ok(Slot {
                value: Some(value.copy()?),
            }),
        }
    }

    /// Its value, where it is bound.
    pub fn value(&self) -> Option<&Value>
        ensures { option_map (λ v. value_of v.now) result ≡ self.now }
    {
        self.value.as_ref()
    }
}
