//! The laws, each as what a function without a body ensures.
ghost use Rattle.clos_laws.specs.Agreement.{RepliesAgree};
ghost use Rattle.clos_laws.specs.Classes.{ClassesAreListed};
ghost use Rattle.clos_laws.specs.Combinations.{CombinationsAreDefined};
ghost use Rattle.clos_laws.specs.Laws.{CallsAreInOrder, RepliesReach};
ghost use Rattle.clos_laws.specs.Names.{FunctionsAreNamed};
ghost use Rattle.clos_laws.specs.System.{SystemFunctionsStand};
ghost use Rattle.clos_laws.specs.WellFormed.{EvaluatedFormsAreWellFormed, KeptFormsAreWellFormed};

/// In each state that a session comes to, and those in which its forms are evaluated, the methods that a call finds are in
/// order, and no other list of methods is (HyperSpec 7.6.6.1).
pub fn calls_are_in_order()
    ensures { CallsAreInOrder }
{}

/// In each of those states the class precedence list of a class is the one that fits, there is none exactly where the class is
/// incomplete, and no class is its own superclass (HyperSpec 4.3.5).
pub fn classes_are_listed()
    ensures { ClassesAreListed }
{}

/// In each of those states the method combination of each generic function is defined (HyperSpec 7.6.6.4).
pub fn combinations_are_defined()
    ensures { CombinationsAreDefined }
{}

/// In each of those states each generic function of the system stands in its place, with its own method (HyperSpec 7.1, 7.7).
pub fn system_functions_stand()
    ensures { SystemFunctionsStand }
{}

/// A session that replies to a form comes from such a state to such a state.
pub fn replies_reach()
    ensures { RepliesReach }
{}

/// Two sessions in one state reply the same to a form, whatever they keep of calls: a call whose effective method was kept does not
/// differ from one for which it is worked out (HyperSpec 7.6.6).
pub fn replies_agree()
    ensures { RepliesAgree }
{}

/// A name is among those of the functions of the language exactly where a call of it calls one.
pub fn functions_are_named()
    ensures { FunctionsAreNamed }
{}

/// In each of those states the forms of functions, methods and classes are well formed, as those that were read are.
pub fn kept_forms_are_well_formed()
    ensures { KeptFormsAreWellFormed }
{}

/// Evaluation comes to no other forms there: a well-formed form would mean the same whatever a form meant that is not well formed
/// where it stands, in the body of a method, in an effective form or elsewhere (HyperSpec 3.1.2.1).
pub fn evaluated_forms_are_well_formed()
    ensures { EvaluatedFormsAreWellFormed }
{}
