//! The templates of long method combinations: from data, and to the forms that they stand for (HyperSpec 7.7
//! `define-method-combination`).
#![tactic(auto)]

mod backquote;
mod binding;
mod datum;
mod expansion;
mod fault;
mod function;
mod operator;
mod part;
mod scope;
mod shape;
mod template;
mod tree;
mod word;

pub use datum::{from_elements, nil_symbol, truth};
pub use expansion::{MAX_CONSES, expand};
pub use fault::ExpansionFault;
pub use scope::Scope;
pub use template::Template;
pub use tree::parse_template;
