//! The forms that stand in a form, and where.
use clos_forms::{Context, is_among, is_the};
use lisp_data::{Data, Datum, Name};
use std::alloc::{AllocError, Global};

/// In so many forms at most one is looked for.
const MAX_PARTS: usize = 1000;

/// After these no forms stand.
#[rattlefmt::skip]
const NO_FORMS: [&str; 8] = [
    "QUOTE", "FUNCTION", "QUASIQUOTE", "COND", "DEFCLASS", "DEFGENERIC", "DEFINE-METHOD-COMBINATION", "IN-PACKAGE",
];

/// After these, and after one more element, forms alone stand.
const FORMS_AFTER_ONE: [&str; 6] = [
    "LET",
    "LET*",
    "DOTIMES",
    "WITH-SLOTS",
    "DEFVAR",
    "DEFPARAMETER",
];

/// A form that stands in another one.
pub struct Part {
    /// The place of the list that it stands in, and so on down to its own, each among the elements of the list around it.
    pub path: Vec<usize>,
    pub context: Context,
    pub form: Datum,
}

/// Copies of the elements of a list, or none of what is no list.
pub fn elements(alloc: Global, datum: &Datum) -> Result<Vec<Datum>, AllocError> {
    let mut found = Vec::new(alloc);
    let Datum::List(items) = datum else {
        return Ok(found);
    };
    let mut rest: &Data = items;
    for _ in 0..items.len() {
        let Some((first, others)) = rest.split_first() else {
            break;
        };
        found.push(first.copy()?)?;
        rest = others;
    }
    Ok(found)
}

/// The name that a form calls, or by which it is told what it is.
pub fn called_name(form: &Datum) -> Option<&Name> {
    let Datum::List(items) = form else {
        return None;
    };
    match items.split_first()? {
        (Datum::Sym(name), _) => Some(name),
        _ => None,
    }
}

/// Whether a datum is a symbol of this name.
fn is_symbol(datum: &Datum, text: &str) -> bool {
    match datum {
        Datum::Sym(name) => is_the(name, text),
        _ => false,
    }
}

/// Whether a datum is a keyword of this name.
pub fn is_keyword(datum: &Datum, text: &str) -> bool {
    match datum {
        Datum::Sym(name) => name.is_keyword() && name.as_str() == text,
        _ => false,
    }
}

/// Whether a datum is a lambda list keyword (HyperSpec 3.4.1).
fn is_lambda_list_keyword(datum: &Datum) -> bool {
    match datum {
        Datum::Sym(name) => name.as_str().starts_with('&'),
        _ => false,
    }
}

/// The forms that were found in another one.
#[derive(Drop)]
struct Found {
    alloc: Global,
    context: Context,
    parts: Vec<Part>,
}

impl Found {
    /// Takes the form at the end of this path.
    fn take(&mut self, path: &[usize], form: &Datum) -> Result<(), AllocError> {
        self.parts.push(Part {
            path: Vec::from_slice(self.alloc, path)?,
            context: self.context,
            form: form.copy()?,
        })?;
        Ok(())
    }

    /// Takes all elements of a form from this place on.
    fn take_from(&mut self, form: &Datum, from: usize) -> Result<(), AllocError> {
        let items = elements(self.alloc, form)?;
        for (place, item) in items.iter().enumerate() {
            if place >= from {
                self.take(&[place], item)?;
            }
        }
        Ok(())
    }

    /// Takes the elements from one place on of the list at another place.
    fn take_of(&mut self, at: usize, list: &Datum, from: usize) -> Result<(), AllocError> {
        let items = elements(self.alloc, list)?;
        for (place, item) in items.iter().enumerate() {
            if place >= from {
                self.take(&[at, place], item)?;
            }
        }
        Ok(())
    }

    /// Takes the second elements of the lists in the list at this place.
    fn take_seconds(&mut self, at: usize, list: &Datum) -> Result<(), AllocError> {
        let items = elements(self.alloc, list)?;
        for (place, item) in items.iter().enumerate() {
            let pair = elements(self.alloc, item)?;
            if let Some(second) = pair.get(1) {
                self.take(&[at, place, 1], second)?;
            }
        }
        Ok(())
    }

    /// Takes the initforms of the lambda list at this place (HyperSpec 3.4.1): those of required parameters are specializers.
    fn take_initforms(&mut self, at: usize, list: &Datum) -> Result<(), AllocError> {
        let items = elements(self.alloc, list)?;
        let mut are_initforms = false;
        for (place, item) in items.iter().enumerate() {
            are_initforms |= is_lambda_list_keyword(item);
            let entry = elements(self.alloc, item)?;
            if let Some(second) = entry.get(1) {
                if are_initforms {
                    self.take(&[at, place, 1], second)?;
                }
            }
        }
        Ok(())
    }

    /// Takes the initforms in the list of slots at this place (HyperSpec 7.5.1).
    fn take_slot_initforms(&mut self, at: usize, list: &Datum) -> Result<(), AllocError> {
        let slots = elements(self.alloc, list)?;
        for (slot, options) in slots.iter().enumerate() {
            let items = elements(self.alloc, options)?;
            let mut is_next = false;
            for (place, item) in items.iter().enumerate() {
                if is_next {
                    self.take(&[at, slot, place], item)?;
                }
                is_next = place % 2 == 1 && is_keyword(item, "INITFORM");
            }
        }
        Ok(())
    }

    /// Takes the forms of the option of a class at this place.
    fn take_class_option(&mut self, at: usize, option: &Datum) -> Result<(), AllocError> {
        let items = elements(self.alloc, option)?;
        let is_default = items
            .first()
            .is_some_and(|first| is_keyword(first, "DEFAULT-INITARGS"));
        if !is_default {
            return Ok(());
        }
        for (place, item) in items.iter().enumerate() {
            if place > 0 && place % 2 == 0 {
                self.take(&[at, place], item)?;
            }
        }
        Ok(())
    }

    /// Takes the forms of the option of a generic function at this place: those of its methods.
    fn take_method_option(&mut self, at: usize, option: &Datum) -> Result<(), AllocError> {
        let items = elements(self.alloc, option)?;
        let is_method = items
            .first()
            .is_some_and(|first| is_keyword(first, "METHOD"));
        if !is_method {
            return Ok(());
        }
        self.take_of(at, option, after_lambda_list(items.as_slice(), 1))
    }

    /// Takes what stands after the name of an operator, and is a form inside of a list that is none.
    fn take_inner(&mut self, name: &Name, items: &[Datum]) -> Result<(), AllocError> {
        let binds = is_the(name, "LET") || is_the(name, "LET*");
        let is_function = is_the(name, "DEFUN");
        let is_method = is_the(name, "DEFMETHOD");
        let is_class = is_the(name, "DEFCLASS");
        let is_generic = is_the(name, "DEFGENERIC");
        let is_cond = is_the(name, "COND");
        let lambda_list = after_lambda_list(items, 2).saturating_sub(1);
        for (place, item) in items.iter().enumerate() {
            if binds && place == 1 {
                self.take_seconds(place, item)?;
            }
            if is_the(name, "DOTIMES") && place == 1 {
                self.take_of(place, item, 1)?;
            }
            if (is_function || is_method) && place == lambda_list {
                self.take_initforms(place, item)?;
            }
            if is_class && place == 3 {
                self.take_slot_initforms(place, item)?;
            }
            if is_class && place > 3 {
                self.take_class_option(place, item)?;
            }
            if is_generic && place > 2 {
                self.take_method_option(place, item)?;
            }
            if is_cond && place > 0 {
                self.take_of(place, item, 0)?;
            }
        }
        Ok(())
    }
}

/// The place after the lambda list: the first list from this place on, or NIL.
pub fn after_lambda_list(items: &[Datum], from: usize) -> usize {
    for (place, item) in items.iter().enumerate() {
        let is_list = matches!(item, Datum::List(_)) || is_symbol(item, "NIL");
        if place >= from && is_list {
            return place.saturating_add(1);
        }
    }
    items.len()
}

/// The place from which on all elements of such a form are forms.
fn first_form(name: &Name, items: &[Datum]) -> usize {
    if is_among(&NO_FORMS, name) {
        return items.len();
    }
    if is_among(&FORMS_AFTER_ONE, name) {
        return 2;
    }
    if is_the(name, "DEFUN") {
        return 3;
    }
    if is_the(name, "DEFMETHOD") {
        return after_lambda_list(items, 2);
    }
    1
}

/// The forms that stand in a form, next inside of it (HyperSpec 3.1.2.1.2).
pub fn parts_of(alloc: Global, context: Context, form: &Datum) -> Result<Vec<Part>, AllocError> {
    let mut found = Found {
        alloc,
        context,
        parts: Vec::new(alloc),
    };
    let Some(name) = called_name(form) else {
        return Ok(found.parts);
    };
    if is_the(name, "DEFMETHOD") || is_the(name, "DEFGENERIC") {
        found.context = Context::Method;
    }
    let items = elements(alloc, form)?;
    found.take_inner(name, items.as_slice())?;
    found.take_from(form, first_form(name, items.as_slice()))?;
    Ok(found.parts)
}

// By hand: what drops it does not ask what the form was.
impl Drop for Part {
    fn drop(self) {
        let Part {
            path: _,
            context: _,
            form: _,
        } = self;
    }
}

impl Part {
    /// The whole of a form.
    pub fn whole(alloc: Global, form: &Datum) -> Result<Part, AllocError> {
        Ok(Part {
            path: Vec::new(alloc),
            context: Context::Plain,
            form: form.copy()?,
        })
    }

    /// The forms in it, with their places in the whole.
    pub fn parts(&self, alloc: Global) -> Result<Vec<Part>, AllocError> {
        let mut found = Vec::new(alloc);
        for part in parts_of(alloc, self.context, &self.form)? {
            let mut path = Vec::from_slice(alloc, self.path.as_slice())?;
            path.extend_from_slice(part.path.as_slice())?;
            found.push(Part {
                path,
                context: part.context,
                form: part.form.copy()?,
            })?;
        }
        Ok(found)
    }
}

/// A form, the forms in it, those in these, and so on.
pub fn all_parts(alloc: Global, form: &Datum) -> Result<Vec<Part>, AllocError> {
    let mut found = Vec::new(alloc);
    found.push(Part::whole(alloc, form)?)?;
    for place in 0..MAX_PARTS {
        let mut inner = match found.get(place) {
            None => break,
            Some(part) => Part::parts(part, alloc)?,
        };
        found.append(&mut inner)?;
    }
    Ok(found)
}
