//! The rules of the standard as a slow search, for seven classes by their places among these names.
use std::alloc::{AllocError, Global};

const NAMES: [&str; 7] = ["T", "STANDARD-OBJECT", "A", "B", "C", "D", "E"];

pub fn name(class: u8) -> &'static str {
    NAMES.get(usize::from(class)).copied().unwrap_or("")
}

/// Of each name its direct superclasses, the names that classes have in the order of first definition, and how many of
/// these there may be.
#[derive(Drop)]
pub struct Model {
    above: Vec<Vec<u8>>,
    defined: Vec<u8>,
    limit: usize,
}

/// The direct superclasses that a class of this place begins with.
fn first_above(alloc: Global, class: u8) -> Result<Vec<u8>, AllocError> {
    if class == 1 {
        Vec::from_slice(alloc, &[0])
    } else {
        Ok(Vec::new(alloc))
    }
}

impl Model {
    /// T and STANDARD-OBJECT, and room for so many more.
    pub fn new(alloc: Global, limit: usize) -> Result<Model, AllocError> {
        let mut above = Vec::new(alloc);
        for class in 0..7u8 {
            above.push(first_above(alloc, class)?)?;
        }
        let defined = vec![in alloc; 0, 1]?;
        Ok(Model {
            above,
            defined,
            limit: limit.saturating_add(2),
        })
    }

    /// These definitions with one more.
    fn with(&self, alloc: Global, class: u8, above: &[u8]) -> Result<Model, AllocError> {
        let mut rows = Vec::new(alloc);
        for row in 0..7u8 {
            let line = if row == class { above } else { self.above(row) };
            rows.push(Vec::from_slice(alloc, line)?)?;
        }
        let mut defined = self.defined.clone()?;
        if !defined.contains(&class) {
            defined.push(class)?;
        }
        Ok(Model {
            above: rows,
            defined,
            limit: self.limit,
        })
    }

    fn above(&self, class: u8) -> &[u8] {
        match self.above.get(usize::from(class)) {
            Some(above) => above.as_slice(),
            None => &[],
        }
    }

    /// A class and its superclasses.
    fn family(&self, alloc: Global, class: u8) -> Result<Vec<u8>, AllocError> {
        let mut family = vec![in alloc; class]?;
        for _ in 0..7 {
            let lower = family.clone()?;
            for class in lower.iter() {
                for above in self.above(*class) {
                    if !family.contains(above) {
                        family.push(*above)?;
                    }
                }
            }
        }
        Ok(family)
    }

    /// Whether one of these is right below this class.
    fn is_below(&self, family: &[u8], class: u8) -> bool {
        for member in family {
            if self.above(*member).contains(&class) {
                return true;
            }
        }
        false
    }

    fn is_complete(&self, alloc: Global, class: u8) -> Result<bool, AllocError> {
        for member in self.family(alloc, class)?.iter() {
            if !self.defined.contains(member) {
                return Ok(false);
            }
        }
        Ok(true)
    }

    /// Whether a class and its direct superclasses stand in the order of their definition, with one right before another.
    fn is_pair(&self, class: u8, one: u8, other: u8) -> bool {
        let mut before = class;
        for after in self.above(class) {
            if before == one && *after == other {
                return true;
            }
            before = *after;
        }
        false
    }

    /// Whether no class that is left has to stand before this one, which is left.
    fn is_next(&self, family: &[u8], left: &[u8], class: u8) -> bool {
        for one in left {
            for member in family {
                if self.is_pair(*member, *one, class) {
                    return false;
                }
            }
        }
        left.contains(&class)
    }

    /// Of those that may stand next, the one whose direct subclass stands rightmost so far.
    fn next(&self, family: &[u8], left: &[u8], list: &[u8]) -> Option<u8> {
        for subclass in list.iter().rev() {
            for class in self.above(*subclass) {
                if self.is_next(family, left, *class) {
                    return Some(*class);
                }
            }
        }
        None
    }

    /// The class precedence list of a complete class, or what of it there is.
    fn list(&self, alloc: Global, family: &[u8]) -> Result<Vec<u8>, AllocError> {
        let mut left = Vec::from_slice(alloc, family)?;
        let mut list = Vec::new(alloc);
        for _ in family {
            let next = if list.len() == 0 {
                family.first().copied()
            } else {
                self.next(family, left.as_slice(), list.as_slice())
            };
            let Some(next) = next else {
                break;
            };
            list.push(next)?;
            left.retain(|class| *class != next);
        }
        Ok(list)
    }

    /// Whether a class is complete and has no class precedence list.
    fn is_broken(&self, alloc: Global, class: u8) -> Result<bool, AllocError> {
        let family = self.family(alloc, class)?;
        let list = self.list(alloc, family.as_slice())?;
        Ok(self.is_complete(alloc, class)? && list.len() < family.len())
    }

    fn line(&self, alloc: Global, class: u8) -> Result<String, AllocError> {
        if !self.is_complete(alloc, class)? {
            return String::from_str(alloc, " no list");
        }
        let mut line = String::new(alloc);
        let family = self.family(alloc, class)?;
        for class in self.list(alloc, family.as_slice())?.iter() {
            line.push(' ')?;
            line.push_str(name(*class))?;
        }
        Ok(line)
    }

    /// Of each class that is not predefined its name and its list, in a line.
    pub fn lists(&self, alloc: Global) -> Result<String, AllocError> {
        let mut lines = String::new(alloc);
        for class in self.defined.iter().skip(2) {
            lines.push_str(name(*class))?;
            lines.push_str(self.line(alloc, *class)?.as_str())?;
            lines.push('\n')?;
        }
        Ok(lines)
    }

    /// What is wrong with a definition by its names alone.
    fn misnamed(&self, class: u8, above: &[u8]) -> Option<&'static str> {
        let is_new = !self.defined.contains(&class);
        if has_twice(above) {
            Some(" program error")
        } else if is_new && self.defined.len() >= self.limit {
            Some(" table limit")
        } else if above.contains(&0) {
            Some(" invalid: T")
        } else {
            None
        }
    }

    /// What is wrong with these definitions, of which this class's is new.
    fn misplaced(
        &self,
        alloc: Global,
        class: u8,
        whole: bool,
    ) -> Result<Option<String>, AllocError> {
        if self.is_below(self.family(alloc, class)?.as_slice(), class) {
            return String::from_str(alloc, " cycle").map(Some);
        }
        if whole && !self.is_complete(alloc, class)? {
            return String::from_str(alloc, " incomplete").map(Some);
        }
        if self.is_broken(alloc, class)? {
            return format!(in alloc; " inconsistent: {}", name(class)).map(Some);
        }
        for other in self.defined.iter() {
            if self.is_broken(alloc, *other)? {
                return format!(in alloc; " inconsistent: {}", name(*other)).map(Some);
            }
        }
        Ok(None)
    }

    /// The names of the classes whose lists are not as in the other.
    fn changed(&self, alloc: Global, other: &Model) -> Result<String, AllocError> {
        let mut line = String::new(alloc);
        for class in self.defined.iter() {
            if self.line(alloc, *class)?.as_str() != other.line(alloc, *class)?.as_str() {
                line.push(' ')?;
                line.push_str(name(*class))?;
            }
        }
        Ok(line)
    }

    /// Defines a class, and tells what that answers.
    pub fn define(
        &mut self,
        alloc: Global,
        class: u8,
        above: &[u8],
        shared: bool,
    ) -> Result<String, AllocError> {
        if let Some(fault) = self.misnamed(class, above) {
            return String::from_str(alloc, fault);
        }
        let above = if above.len() == 0 { &[1] } else { above };
        let next = self.with(alloc, class, above)?;
        let whole = shared || self.is_complete(alloc, class)?;
        if let Some(fault) = next.misplaced(alloc, class, whole)? {
            return Ok(fault);
        }
        let changed = next.changed(alloc, self)?;
        *self = next;
        Ok(changed)
    }
}

fn has_twice(list: &[u8]) -> bool {
    for class in list {
        if list.iter().filter(|other| *other == class).count() > 1 {
            return true;
        }
    }
    false
}
