//! What is defined: classes, slots, generic functions, methods, functions and variables, from data (HyperSpec 7.7, 5.3).
#![tactic(auto)]

pub mod class;
pub mod function;
mod function_name;
pub mod generic;
pub mod method;
pub mod slot;
pub mod variable;

pub use class::parse_class;
pub use clos_defclass::{Accessor, Allocation, ClassDefinition, DefaultInitarg, SlotSpecifier};
pub use clos_lambda::{Key, Keys, LambdaList, Optional};
pub use function::{FunctionDefinition, parse_function};
pub use function_name::parse_method_function;
pub use generic::{CombinationUse, GenericDefinition, parse_generic};
pub use method::{MethodDefinition, ParameterSpecializer, parse_method};
pub use variable::{Definer, VariableDefinition, parse_variable};
