//! Tests of the table of generic functions and of method combination, over what their crates make public.
#![tactic(auto)]

#[cfg(test)]
mod calls;
