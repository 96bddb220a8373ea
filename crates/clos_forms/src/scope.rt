//! The lexical names in scope where a form is parsed (HyperSpec 3.1.2.1.1).

use crate::bound::{Binding, SlotBinding};
use crate::operator::Operator;
use crate::variable::Position;
use lisp_data::Name;
use std::alloc::{AllocError, Global};
use std::collections::HashMap;

/// A name in scope, its frame, and where the name stands that it shadows.
#[derive(Drop)]
struct Bound {
    name: Name,
    frame: usize,
    shadowed: Option<Position>,
}

/// The lexical names in scope, the outermost first.
#[derive(Drop)]
pub struct Scope {
    bound: Vec<Bound>,
    innermost: HashMap<Name, Position>,
}

impl Scope {
    /// No names.
    pub fn new(alloc: Global) -> Scope {
        Scope {
            bound: Vec::new(alloc),
            innermost: HashMap::new(alloc),
        }
    }

    /// One more parameter of a body, all of which are one frame.
    pub fn bind_parameter(&mut self, name: &Name) -> Result<(), AllocError> {
        let place = self.bound.len();
        self.bind(name, 0, place)
    }

    /// More parameters of a body.
    pub fn bind_parameters(&mut self, names: &[Name]) -> Result<(), AllocError> {
        for name in names {
            self.bind_parameter(name)?;
        }
        Ok(())
    }

    /// Where the innermost of this name stands.
    pub(crate) fn find(&self, name: &Name) -> Option<Position> {
        match self.innermost.get(name) {
            None => None,
            Some(position) => Some(*position),
        }
    }

    /// How many names are in scope.
    pub(crate) fn len(&self) -> usize {
        self.bound.len()
    }

    /// Leaves so many of the outermost.
    pub(crate) fn leave(&mut self, count: usize) -> Result<(), AllocError> {
        while self.bound.len() > count {
            let Some(last) = self.bound.pop() else {
                return Ok(());
            };
            let Bound {
                name,
                frame: _,
                shadowed,
            } = last;
            match shadowed {
                None => forget(&mut self.innermost, &name),
                Some(position) => note(&mut self.innermost, name, position)?,
            }
        }
        Ok(())
    }

    /// What an operator binds comes into scope. Gives how many names are in scope for each of so many parts; for all of them
    /// where the list is empty.
    pub(crate) fn enter(
        &mut self,
        alloc: Global,
        operator: &Operator,
        parts: usize,
    ) -> Result<Vec<usize>, AllocError> {
        let frame = self.next_frame();
        let mut counts = Vec::new(alloc);
        match operator {
            Operator::Let(bindings) => {
                self.bind_beside(&mut counts, frame, bindings.as_slice())?;
            }
            Operator::LetInOrder(bindings) => {
                self.bind_in_order(&mut counts, frame, bindings.as_slice())?;
            }
            Operator::Dotimes(name, _) => {
                counts.push(self.len())?;
                self.bind(name, frame, 0)?;
            }
            Operator::WithSlots(bindings) => {
                counts.push(self.len())?;
                self.bind_slots(frame, bindings.as_slice())?;
            }
            _ => return Ok(counts),
        }
        for _ in counts.len()..parts {
            counts.push(self.len())?;
        }
        Ok(counts)
    }

    /// The variables of a `let`, whose init forms see none of them.
    fn bind_beside(
        &mut self,
        counts: &mut Vec<usize>,
        frame: usize,
        bindings: &[Binding],
    ) -> Result<(), AllocError> {
        let outer = self.len();
        for (position, binding) in bindings.iter().enumerate() {
            if binding.has_init {
                counts.push(outer)?;
            }
            self.bind(&binding.name, frame, position)?;
        }
        Ok(())
    }

    /// The variables of a `let*`, whose init forms see those before them.
    fn bind_in_order(
        &mut self,
        counts: &mut Vec<usize>,
        frame: usize,
        bindings: &[Binding],
    ) -> Result<(), AllocError> {
        for (position, binding) in bindings.iter().enumerate() {
            if binding.has_init {
                counts.push(self.len())?;
            }
            self.bind(&binding.name, frame, position)?;
        }
        Ok(())
    }

    /// The names of a `with-slots`, which are bound from the last to the first.
    fn bind_slots(&mut self, frame: usize, bindings: &[SlotBinding]) -> Result<(), AllocError> {
        let mut position = bindings.len();
        while position > 0 {
            position -= 1;
            self.bind(&bindings[position].variable, frame, position)?;
        }
        Ok(())
    }

    /// The frame of the names that come next.
    fn next_frame(&self) -> usize {
        match self.bound.last() {
            None => 0,
            Some(bound) => bound.frame.saturating_add(1),
        }
    }

    /// One more name, within the others.
    fn bind(&mut self, name: &Name, frame: usize, position: usize) -> Result<(), AllocError> {
        let shadowed = self.find(name);
        let place = self.bound.len();
        self.bound.push(Bound {
            name: name.copy()?,
            frame,
            shadowed,
        })?;
        let position = Position {
            frame,
            position,
            place,
        };
        note(&mut self.innermost, name.copy()?, position)
    }
}

/// Of this name the innermost stands here.
fn note(
    innermost: &mut HashMap<Name, Position>,
    name: Name,
    position: Position,
) -> Result<(), AllocError> {
    innermost.insert(name, position)?;
    Ok(())
}

/// No name in scope is this one.
fn forget(innermost: &mut HashMap<Name, Position>, name: &Name) {
    let _ = innermost.remove(name);
}
