//! The generic functions of a session and their methods (HyperSpec 7.6).
#![tactic(auto)]

mod accessors;
mod calls;
mod changes;
mod eql_objects;
mod fault;
mod function;
mod functions;
mod methods;
mod names;
mod options;
mod refuse;
mod spare;
mod system;
mod table;

pub use changes::{Addition, Changes, Definition, Likeness, Removal};
pub use fault::GenericFault;
pub use function::Function;
pub use names::{copy_name, is_same};
pub use options::{Options, Positions, standard_combination};
pub use table::Generics;
