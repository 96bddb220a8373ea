//! The classes of a session with the slots that they have by their class precedence lists (HyperSpec 4.3.4, 7.5.3).
#![tactic(auto)]

mod accessible;
mod allocation;
mod cells;
mod defaults;
mod definition;
mod direct;
mod effective;
mod effective_slots;
mod initforms;
mod keep;
pub mod laws;
mod layout;
mod names;
mod reserve;
mod rows;
mod slot_initargs;
mod table;

pub use clos_hierarchy::{Changed, ClassFault};
pub use direct::{ClassSlots, DirectSlot, SlotAllocation};
pub use effective::Effective;
pub use effective_slots::EffectiveSlot;
pub use layout::Layout;
pub use names::NameSet;
pub use reserve::{NewCell, Reserved};
pub use table::Classes;
