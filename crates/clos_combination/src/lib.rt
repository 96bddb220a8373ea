//! The definitions of method combinations: from data (HyperSpec 7.7 `define-method-combination`).
#![tactic(auto)]

pub mod combination;
pub mod group;
mod keyword;
pub mod parameter;
pub mod pattern;

pub use clos_forms::Sequence;
pub use clos_lambda::is_key;
pub use clos_template::{
    ExpansionFault, MAX_CONSES, Scope, Template, expand, from_elements, nil_symbol, truth,
};
pub use combination::{CombinationDefinition, LongForm, ShortForm, parse_combination};
pub use group::{GroupSpecifier, Order};
pub use parameter::{OptionalParameter, Parameters};
pub use pattern::Pattern;
