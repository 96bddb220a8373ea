//! Groups of methods: which group takes a method, and what keeps methods from being combined (HyperSpec 7.6.6.2,
//! 7.6.6.4, 7.7 `define-method-combination`).
#![tactic(auto)]

pub mod group;
mod key;
pub mod laws;
mod member;
pub mod refusal;
mod twins;

pub use clos_combination::{
    CombinationDefinition, ExpansionFault, GroupSpecifier, LongForm, MAX_CONSES, OptionalParameter,
    Order, Parameters, Pattern, Scope, Sequence, ShortForm, Template, expand, from_elements,
    is_key, nil_symbol, truth,
};
pub use clos_method::Method;
pub use group::takes;
pub use member::{has_all, members};
pub use refusal::{GroupRefusal, find_refusal};
