//! Functions that `defun` defines (HyperSpec 5.3 `defun`).
ghost use Rattle.std.specs.Prelude.{◌≡◌, [], OnOk, OnErr, option_copied, option_map, length, slice_get};
ghost use Rattle.clos_world.specs.Functions.{function_in, with_function};

use clos_forms::Forms;
use clos_lambda::LambdaList;
use indexmap::IndexMap;
use lisp_data::Name;
use std::alloc::{AllocError, Global};
use std::marker::Model;

/// A function: its lambda list, and its body.
#[derive(Drop)]
pub struct Function {
    pub lambda_list: LambdaList,
    pub body: Forms,
}

/// The functions by their names. Contracts see the list of the names in order of definition, each with its function.
#[derive(Drop)]
pub struct Functions {
    named: IndexMap<Name, Function>,
}

impl Model for Functions {
    ghost use Rattle.std.specs.Prelude.{List};
    ghost use Rattle.std.specs.Coded.{coded_list, coded×};
    ghost use Rattle.lisp_data.specs.Name.{Name};
    ghost use Rattle.lisp_data.specs.inner.NameCode.{name_code};
    ghost use Rattle.clos_world.specs.declared.functions.Function.{Function};
    ghost use Rattle.clos_world.specs.contracts.functions.Function as function;

    ghost Value = { List (Name × Function) };

    ghost coded = { coded_list (coded× name_code function.the_row.coded) };

    ghost view = { λ a. a.named.entries };
}

impl Functions {
    /// No functions.
    pub fn new(alloc: Global) -> Functions
        ensures { result ≡ [] }
    {
        Functions {
            named: IndexMap::new(alloc),
        }
    }

    /// The function of this name.
    pub fn get(&self, name: &Name) -> Option<&Function>
        ensures { option_copied result ≡ function_in self.now name.now }
    {
        self.named.get(name)
    }

    /// The name at a place, in order of definition.
    pub fn name(&self, place: usize) -> Option<&Name>
        ensures { option_copied result ≡ option_map (λ f. f.0) (slice_get self.now place) }
    {
        match self.named.get_index(place) {
            Some((name, _)) => Some(name),
            None => None,
        }
    }

    /// How many they are.
    pub fn len(&self) -> usize
        ensures { result ≡ length self.now }
    {
        self.named.len()
    }

    /// Defines the function of this name, in place of an older one. A new one comes last.
    #[tactic(auto, using(crate::proofs::Variables::defined_in))]
    pub fn define(&mut self, name: Name, function: Function) -> Result<(), AllocError>
        ensures ok { OnOk result (self.new ≡ with_function name function self.old) }
        ensures err { OnErr result (self.new ≡ self.old) }
    {
        self.named.insert(name, function)?;
        Ok(())
    }
}
