//! Laws of the definitions.
ghost use Rattle.clos_hierarchy.specs.Ways.{FindsCircles, FindsLacking};

/// A class is told to be above itself exactly where some way up from it comes back to it.
pub fn finds_circles()
    ensures { FindsCircles }
{}

/// A class is told to be lacking exactly where some way up from it comes to what is not defined, or goes round for ever.
pub fn finds_lacking()
    ensures { FindsLacking }
{}
