//! What follows from the definitions of effective forms.
ghost use Rattle.clos_comb.specs.Laws.{MakesItsForm};
ghost use Rattle.clos_comb.specs.Left.{LeavesOtherUses, LeavesOthers};

/// The form that is made at once for the standard combination is that of its datum.
pub fn makes_its_form()
    ensures { MakesItsForm }
{}

/// A function that a change of the table of generic functions leaves as it was, with all methods that were made, is called as
/// before: so what is kept of its calls stays what would be worked out.
pub fn leaves_others()
    ensures { LeavesOthers }
{}

/// A function that uses another method combination than the one that is defined has its methods combined as before.
pub fn leaves_other_uses()
    ensures { LeavesOtherUses }
{}
