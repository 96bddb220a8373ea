//! Forms whose conditions and faults of reading are explained as they come up.
#![tactic(auto)]

mod call;
mod fault;
mod forms;
mod locate;
mod place;
mod told;

pub use call::{call_of, fitting_page, form_of_arguments};
pub use clos_ending::{
    Dependents, Fault, Natives, Performed, STATUS_CONDITION, STATUS_DONE, STATUS_FAULT, Session,
    Stop, Summary, is_told, report, run_form,
};
pub use clos_explain::{World, cache_page, class_page, explanation, generic_page, no_class};
pub use fault::{fault_line, words};
pub use forms::{Left, fault_of, perform_forms};
pub use place::{Place, push_place};
pub use told::{Source, explain, tell};
