//! Tests of the table of classes with their slots, and of the store of instances, over what their crates make public.
#![tactic(auto)]

#[cfg(test)]
mod large;
#[cfg(test)]
mod objects;
#[cfg(test)]
mod store;
#[cfg(test)]
mod worked;
