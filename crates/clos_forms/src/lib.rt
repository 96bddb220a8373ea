//! From data to checked forms: what a datum is as a form of the language (HyperSpec 3.1.2.1).
#![tactic(auto)]

mod binding;
mod body;
pub mod bound;
pub mod call_method;
mod distinct;
mod effective;
pub mod fault;
pub mod form;
pub mod function_name;
pub mod laws;
mod named_methods;
pub mod operator;
pub mod part;
mod place;
pub mod quotation;
mod scope;
pub mod sequence;
mod shape;
mod slots;
pub mod tree;
mod variable;

pub use binding::{Entry, bindings_of, names_of, parse_bindings};
pub use body::{is_declaration, is_string, past_declarations};
pub use bound::{Binding, Bindings, Names, SlotBinding, SlotBindings};
pub use call_method::{CalledMethod, NextMethods};
pub use clos_names::{
    CalledName, Callee, ClassFunction, Output, SlotFunction, is_among, is_closed_function,
    is_definition, is_function, is_special_operator, is_system_function, is_the, names_constant,
};
pub use distinct::{are_among, are_distinct};
pub use effective::{called_methods, parse_effective};
pub use fault::SyntaxFault;
pub use form::{Form, Forms};
pub use function_name::{parse_function_name, symbol_name, variable_name};
pub use operator::{FunctionName, Operator, Place};
pub use part::{Context, at_most_one, only};
pub use quotation::{quoted_value, value_named};
pub use scope::Scope;
pub use sequence::Sequence;
pub use tree::{parse_body, parse_form, parse_form_within, parse_forms};
pub use variable::{Position, Variable};
