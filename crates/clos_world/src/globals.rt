//! Global variables (HyperSpec 3.1.2.1.1, 5.3 `defvar`).
ghost use Rattle.std.specs.Prelude.{◌≡◌, [], OnOk, OnErr, IsOk, map, option_copied, option_map, length, slice_get, true, None, Some};
ghost use Rattle.lisp_data.specs.ValueView.{value_of};
ghost use Rattle.clos_world.specs.Globals.{global_value, is_global, with_global};

use indexmap::IndexMap;
use lisp_data::{Name, Value};
use std::alloc::{AllocError, Global};
use std::marker::Model;

/// The global variables. Contracts see the list of their names in order of definition, each with its value where it has one.
#[derive(Drop)]
pub struct Globals {
    values: IndexMap<Name, Option<Value>>,
}

impl Model for Globals {
    ghost use Rattle.std.specs.Prelude.{List, Option, map};
    ghost use Rattle.std.specs.Coded.{coded_list, coded×, coded_option};
    ghost use Rattle.lisp_data.specs.Name.{Name};
    ghost use Rattle.lisp_data.specs.inner.NameCode.{name_code};
    ghost use Rattle.lisp_data.specs.Value.{Val};
    ghost use Rattle.lisp_data.specs.inner.ValueCode.{value_code};

    ghost Value = { List (Name × Option Val) };

    ghost coded = { coded_list (coded× name_code (coded_option value_code)) };

    ghost use Rattle.clos_world.specs.GlobalsView.{global_of};

    ghost view = { λ a. map global_of a.values.entries };
}

impl Globals {
    /// No variables.
    pub fn new(alloc: Global) -> Globals
        ensures { result ≡ [] }
    {
        Globals {
            values: IndexMap::new(alloc),
        }
    }

    /// Whether there is a variable of this name, with a value or without.
    pub fn has(&self, name: &Name) -> bool
        ensures { result ≡ is_global self.now name.now }
    {
        self.values.get(name).is_some()
    }

    /// The value of the variable of this name, where it has one.
    #[tactic(auto, using(crate::proofs::Variables::value_found))]
    pub fn value(&self, name: &Name) -> Option<&Value>
        ensures { option_map (λ v. value_of v.now) result ≡ global_value self.now name.now }
    {
        match self.values.get(name) {
            Some(value) => value.as_ref(),
            None => None,
        }
    }

    /// The name at a place, in order of definition.
    #[tactic(auto, using(crate::proofs::Variables::name_at))]
    pub fn name(&self, place: usize) -> Option<&Name>
        ensures { option_copied result ≡ option_map (λ g. g.0) (slice_get self.now place) }
    {
        match self.values.get_index(place) {
            Some((name, _)) => Some(name),
            None => None,
        }
    }

    /// How many they are.
    pub fn len(&self) -> usize
        ensures { result ≡ length self.now }
    {
        self.values.len()
    }

    /// Gives the variable of this name this value, or none. A new one comes last. For one that is there it takes no memory.
    #[tactic(auto, using(crate::proofs::Variables::set_of_map))]
    pub fn set(&mut self, name: Name, value: Option<Value>) -> Result<(), AllocError>
        ensures ok { OnOk result (self.new ≡ with_global name (option_map value_of value) self.old) }
        ensures err { OnErr result (self.new ≡ self.old) }
        ensures present { is_global self.old name ≡ true → IsOk result }
    {
        self.values.insert(name, value)?;
        Ok(())
    }
}
