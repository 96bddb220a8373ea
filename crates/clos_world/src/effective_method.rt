//! What calls of generic functions find (HyperSpec 7.6.6).
use clos_comb::Outcome;
use clos_method::MethodIds;

/// What a call of a generic function finds.
#[derive(Drop)]
pub struct EffectiveMethod {
    /// The applicable methods, the most specific first.
    pub methods: MethodIds,
    /// What they are combined into.
    pub outcome: Outcome,
}
