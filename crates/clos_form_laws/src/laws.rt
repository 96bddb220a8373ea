//! The laws, each as what a function without a body ensures.
ghost use Rattle.clos_form_laws.specs.Evaluated.{OtherFormsAreNoMatter};
ghost use Rattle.clos_form_laws.specs.Shapes.{FormsAreShaped};

/// A well-formed form, and so each that `parse_top` answers, means what is said of parts that can't be malformed; it is no
/// clause and no place. What the meaning says of other parts is never met (HyperSpec 3.1.2.1).
pub fn forms_are_shaped()
    ensures { FormsAreShaped }
{}

/// Where the forms of functions, methods and classes are well formed, a well-formed form means the same whatever a form means
/// that is not well formed where it stands, in the body of a method, in an effective form or elsewhere (HyperSpec 3.1.2.1).
pub fn other_forms_are_no_matter()
    ensures { OtherFormsAreNoMatter }
{}
