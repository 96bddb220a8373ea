//! Tests of checked top-level forms, over what their crate makes public.
#![tactic(auto)]

#[cfg(test)]
mod positions;
