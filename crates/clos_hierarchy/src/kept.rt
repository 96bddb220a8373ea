//! What is kept of each class: its class precedence list, where there is one.
use clos_precedence::Superclasses;
use lisp_data::ClassId;
use std::rc::Rc;

/// The class precedence list of a class, and its direct superclasses.
#[derive(Drop)]
pub struct Line {
    pub list: Vec<ClassId>,
    pub superclasses: Vec<ClassId>,
}

/// What there is to say of a class. A list is shared, never copied.
#[derive(Drop)]
pub enum Kept {
    /// One of its superclasses, or of theirs and so on, is not defined.
    Lacking,
    /// All are, and there is no class precedence list.
    Broken,
    Listed(Rc<Line>),
}

/// The direct superclasses of classes, as they are kept, but for one class, whose are new.
#[derive(Clone, Copy)]
pub struct Above<'a> {
    pub kept: &'a [Kept],
    pub class: ClassId,
    pub superclasses: &'a [ClassId],
}

impl Superclasses for Above<'_> {
    ghost use Rattle.clos_hierarchy.specs.inner.KeptView.{above_in};

    ghost above = { above_in };

    fn of(&self, class: ClassId) -> &[ClassId] {
        if class.0 == self.class.0 {
            return self.superclasses;
        }
        match self.kept.get(class.0 as usize) {
            Some(Kept::Listed(line)) => line.superclasses.as_slice(),
            _ => &[],
        }
    }
}
