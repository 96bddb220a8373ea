//! Methods and the shapes of their arguments (HyperSpec 7.6).
#![tactic(auto)]

pub mod applicable;
pub mod arguments;
pub mod keywords;
pub mod laws;
pub mod method;
pub mod method_ids;
pub mod order;
pub mod origin;
pub mod qualifiers;
pub mod shape;
pub mod specializer;
mod specificity;
pub mod system;

pub use applicable::{has_eql, is_applicable};
pub use arguments::{Argument, Arguments};
pub use keywords::{accepts_keyword, allows_all, any_allows, any_names, checks_keywords};
pub use method::{Method, MethodBody, SharedLambdaList, method_numbered};
pub use method_ids::MethodIds;
pub use order::ordered_methods;
pub use origin::Origin;
pub use qualifiers::Qualifiers;
pub use shape::{Keywords, Shape, SharedNames, is_congruent};
pub use specializer::{Specializer, Specializers, is_permitted};
pub use system::SystemFunction;
