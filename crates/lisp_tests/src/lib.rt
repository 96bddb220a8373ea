//! Tests of data, of the reader and of functions of values, over what those crates offer to others.
#![tactic(auto)]

#[cfg(test)]
mod data;
#[cfg(test)]
mod given;
#[cfg(test)]
mod prims;
#[cfg(test)]
mod reader;
#[cfg(test)]
mod told;
