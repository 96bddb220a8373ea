//! A page in HTML that shows what a session has: the graph of its classes, and in text its classes, generic functions and calls.
#![tactic(auto)]

mod columns;
mod graph;
mod heights;
mod html;
mod order;
mod page;
mod picture;

pub use columns::{Columns, Link};
pub use graph::{Edge, Graph, class_graph};
pub use heights::settle_heights;
pub use order::{crossings, put_in_order};
pub use page::{Call, html_page};
