//! Why a form ends with PROGRAM-ERROR: which form in it is malformed, which name is taken, which call has arguments that its function
//! does not take.
#![tactic(auto)]

mod arity;
mod broken;
mod calls;
mod keywords;
mod malformed;
mod part;
mod syntax;
mod taken;

pub use calls::wrong_call;
pub use clos_look::{Page, World};
pub use malformed::explain_malformed;
pub use part::{Part, all_parts, called_name};
pub use taken::taken_name;
