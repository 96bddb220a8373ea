//! Tests of stored functions, over what their crate makes public.
#![tactic(auto)]

#[cfg(test)]
mod natives;
