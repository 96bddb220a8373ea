//! Tests of the table of classes, over what its crate makes public.
#![tactic(auto)]

#[cfg(test)]
mod drawn;
#[cfg(test)]
mod large;
#[cfg(test)]
mod model;
#[cfg(test)]
mod numbers;
#[cfg(test)]
mod script;
#[cfg(test)]
mod worked;
