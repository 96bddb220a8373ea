//! Laws of the definitions.
ghost use Rattle.clos_class.specs.Laws.{HasNoneTwice, PlacesSlots, TellsLayouts};

/// A slot is local in a layout, or shared in a cell, exactly where its most specific specifier says so.
pub fn places_slots()
    ensures { PlacesSlots }
{}

/// No slot stands twice in a layout.
pub fn has_none_twice()
    ensures { HasNoneTwice }
{}

/// Layouts are compared by the order of their local slots, and by the map from their shared slots to cells.
pub fn tells_layouts()
    ensures { TellsLayouts }
{}
