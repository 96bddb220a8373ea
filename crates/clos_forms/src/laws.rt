//! Laws of the definitions.
ghost use Rattle.clos_forms.specs.Room.{RoomSuffices};

/// A datum has the same form in any room that is above its nesting, so that room never ends.
pub fn room_suffices()
    ensures { RoomSuffices }
{}
