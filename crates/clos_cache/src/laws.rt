//! Laws of the definitions.
ghost use Rattle.clos_cache.specs.Uses.{CountsFirstUses};

/// Where what is not kept is built and then kept, what is built are exactly the first uses of keys that are not kept.
pub fn counts_first_uses()
    ensures { CountsFirstUses }
{}
