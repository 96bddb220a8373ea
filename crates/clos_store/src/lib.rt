//! The instances of a session, and the cells of their shared slots (HyperSpec 7.5).
#![tactic(auto)]

mod fault;
mod instance;
mod objects;
mod slot;
mod store;
mod update;

pub use fault::StoreFault;
pub use objects::Objects;
pub use slot::Slot;
pub use store::Store;
pub use update::{Discarded, Lost};
