//! What definition forms do once their forms are evaluated, and those that evaluate none.
#![tactic(auto)]

mod combination;
mod function;
mod made;

pub use clos_effects::{
    Callback, Dependent, Dependents, Handed, Listener, Metaobject, NewCell, Notice, Recorder, Slot,
    check_class, check_generic, check_method, generic_forms, method_forms, place_of,
};
pub use combination::define_combination;
pub use function::defun;
pub use made::{
    both, initforms, make_checked_class, make_generic, make_method, remove_evaluated, value_or_nil,
};
