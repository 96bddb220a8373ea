//! What hears of changes to classes and generic functions (AMOP chapter 6).
#![tactic(auto)]

mod callback;
mod dependent;
mod dependents;
mod notice;
mod recorder;
mod reserved;
mod rows;
mod watchers;

pub use callback::{Callback, Listener};
pub use dependent::Dependent;
pub use dependents::{Dependents, place_of};
pub use notice::{Metaobject, Notice};
pub use recorder::Recorder;
pub use reserved::Reserved;
pub use watchers::{Handed, Watchers};
