//! What follows from the definitions of groups.
ghost use Rattle.clos_groups.specs.Laws.{TakesFirst};

/// A method is of the group at a place exactly where that group takes it, and none before it does.
pub fn takes_first()
    ensures { TakesFirst }
{}
