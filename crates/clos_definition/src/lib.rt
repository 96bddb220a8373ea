//! What definition forms do to the tables of a session (HyperSpec 7.7). Each form is prepared, with all that can refuse it and
//! all memory that it takes, and then made, which can't be refused. In between the session takes its step.
#![tactic(auto)]

mod accessor;
mod class;
mod effect;
mod generic;
mod method;
mod refusal;
mod removal;

pub use accessor::SlotAccessor;
pub use class::{check_class, class_notices, make_class, prepare_class};
pub use clos_class::NewCell;
pub use clos_store::Slot;
pub use clos_watch::{
    Callback, Dependent, Dependents, Handed, Listener, Metaobject, Notice, Recorder, place_of,
};
pub use effect::{Effect, make, possible_notices};
pub use generic::{check_generic, generic_forms, prepare_generic};
pub use method::{check_method, method_forms, number_of, prepare_method};
pub use removal::{find_removable, remove};
