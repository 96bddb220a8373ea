//! What is shown of a session's classes, generic functions, methods and kept calls.
#![tactic(auto)]

mod cache;
mod class;
mod effective;
mod generic;
mod methods;
mod page;

pub use cache::cache_page;
pub use class::class_page;
pub use clos_world::{Condition, ConditionKind, World};
pub use generic::{generic_page, lambda_list_row, method_rows, shape_row};
pub use methods::methods_page;
pub use page::Page;
