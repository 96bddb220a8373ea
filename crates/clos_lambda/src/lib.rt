//! Lambda lists, and the lists of parts that definitions have (HyperSpec 3.4).
#![tactic(auto)]

mod kind;
pub mod lambda_list;
mod list;
mod parameter;
mod property;
mod section;

pub use kind::{
    Documentation, Ignored, Kind, PlainForms, Symbols, parse_documentation, parse_each,
    parse_front, parse_option, parse_options, parse_plain_form, parse_symbol, parse_value,
    parse_values,
};
pub use lambda_list::{
    Key, Keys, LambdaList, Optional, Variables, parse_generic_lambda_list, parse_given,
    parse_lambda_list, parse_parameter, parse_with_optionals, push_name, push_names,
};
pub use list::parse_list;
pub use property::{are_properties, arguments, is_key, is_option};
pub use section::{back, is_symbol_called};
