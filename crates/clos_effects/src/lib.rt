//! The effects of definition forms: the one step, what is dropped of what is kept of calls, and what dependents are told.
#![tactic(auto)]

mod effects;
mod telling;

pub use clos_definition::{
    Callback, Dependent, Dependents, Handed, Listener, Metaobject, NewCell, Notice, Recorder, Slot,
    check_class, check_generic, check_method, find_removable, generic_forms, method_forms,
    number_of, place_of, prepare_class, prepare_generic, prepare_method,
};
pub use effects::{make_prepared_class, take_effect, take_out};
