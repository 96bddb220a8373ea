//! Laws of the definitions.
ghost use Rattle.clos_method.specs.Laws.{IsTheOnlyOrder, ListsInOrder, SystemIsCongruent};

/// The applicable methods are listed each once, none ahead of one that comes before it, and those of equal specializers in
/// order of addition (HyperSpec 7.6.6.1).
pub fn lists_in_order()
    ensures { ListsInOrder }
{}

/// No other list of methods is such.
pub fn is_the_only_order()
    ensures { IsTheOnlyOrder }
{}

/// The method of each function of the system is congruent with it (HyperSpec 7.6.4).
pub fn system_is_congruent()
    ensures { SystemIsCongruent }
{}
