//! Tables of classes as texts: what a definition answers, and class precedence lists.
use clos_hierarchy::{Changed, ClassFault, Hierarchy};
use lisp_data::{ClassId, Name};
use std::alloc::{AllocError, Global};

/// How many classes are predefined.
pub const PREDEFINED: u64 = 22;

/// The names of these classes, each after a blank.
fn names(alloc: Global, classes: &Hierarchy, list: &[ClassId]) -> Result<String, AllocError> {
    let mut line = String::new(alloc);
    for class in list {
        line.push(' ')?;
        if let Some(name) = classes.name(*class) {
            line.push_str(name.as_str())?;
        }
    }
    Ok(line)
}

fn told_fault(alloc: Global, fault: &ClassFault) -> Result<String, AllocError> {
    match fault {
        ClassFault::InvalidSuperclass(name) => format!(in alloc; " invalid: {}", name.as_str()),
        ClassFault::InconsistentPrecedence(name) => {
            format!(in alloc; " inconsistent: {}", name.as_str())
        }
        ClassFault::ProgramError => String::from_str(alloc, " program error"),
        ClassFault::TableLimit => String::from_str(alloc, " table limit"),
        ClassFault::SuperclassCycle => String::from_str(alloc, " cycle"),
        ClassFault::IncompleteClass => String::from_str(alloc, " incomplete"),
        ClassFault::Memory => String::from_str(alloc, " out of memory"),
    }
}

/// What a definition answered: the names of the classes, or the fault.
pub fn told(
    alloc: Global,
    classes: &Hierarchy,
    answer: &Result<Changed, ClassFault>,
) -> Result<String, AllocError> {
    match answer {
        Ok(changed) => names(alloc, classes, changed.lists.as_slice()),
        Err(fault) => told_fault(alloc, fault),
    }
}

/// Whether it was asked what stands against a definition, and the definition answered just that.
pub fn is_same(
    alloc: Global,
    asked: &Result<(), ClassFault>,
    answer: &Result<Changed, ClassFault>,
) -> Result<bool, AllocError> {
    match (asked, answer) {
        (Ok(_), Ok(_)) => Ok(true),
        (Err(asked), Err(fault)) => {
            Ok(told_fault(alloc, asked)?.as_str() == told_fault(alloc, fault)?.as_str())
        }
        _ => Ok(false),
    }
}

/// The class precedence list of the class of this name.
fn list_of(alloc: Global, classes: &Hierarchy, name: &Name) -> Result<String, AllocError> {
    let Some(class) = classes.named(name) else {
        return String::from_str(alloc, " undefined");
    };
    let mut line = match classes.precedence(class) {
        Some(list) => names(alloc, classes, list)?,
        None => String::from_str(alloc, " no list")?,
    };
    let count = classes.precedence(class).map_or(0, |list| list.len());
    if classes.precedence_or_none(class).len() != count {
        line.push_str(", and another list")?;
    }
    Ok(line)
}

/// Of each class from this number on its name and its list, in a line.
pub fn lists(alloc: Global, classes: &Hierarchy, first: u64) -> Result<String, AllocError> {
    let mut lines = String::new(alloc);
    for number in first..first.saturating_add(64) {
        let Some(name) = classes.name(ClassId(number)) else {
            break;
        };
        lines.push_str(name.as_str())?;
        lines.push_str(list_of(alloc, classes, name)?.as_str())?;
        lines.push('\n')?;
    }
    Ok(lines)
}

/// A class as a program defines it.
#[derive(Drop)]
struct Form {
    name: Name,
    superclasses: Vec<Name>,
    has_shared_slots: bool,
}

/// A class of `NAME SUPERCLASS ..`; one with shared slots has a `+` before its name.
fn read_form(alloc: Global, text: &'static str) -> Result<Form, AllocError> {
    let mut superclasses = Vec::new(alloc);
    let mut words = text.split_whitespace();
    let first = words.next().unwrap_or("");
    for word in words {
        superclasses.push(Name::new(alloc, word, false)?)?;
    }
    let (name, has_shared_slots) = match first.strip_prefix('+') {
        Some(name) => (name, true),
        None => (first, false),
    };
    Ok(Form {
        name: Name::new(alloc, name, false)?,
        superclasses,
        has_shared_slots,
    })
}

/// What stands against defining a class.
fn check(
    alloc: Global,
    classes: &mut Hierarchy,
    text: &'static str,
) -> Result<Result<(), ClassFault>, AllocError> {
    let Form {
        name,
        superclasses,
        has_shared_slots,
    } = read_form(alloc, text)?;
    Ok(
        match classes.check(alloc, &name, superclasses, has_shared_slots) {
            Ok(_) => Ok(()),
            Err(fault) => Err(fault),
        },
    )
}

/// Whether a definition that was let pass answered the class of this name.
fn is_named(classes: &Hierarchy, answer: &Result<Changed, ClassFault>, name: &Name) -> bool {
    match answer {
        Ok(changed) => match classes.name(changed.class) {
            Some(own) => own.is(name),
            None => false,
        },
        Err(_) => true,
    }
}

/// What a definition answers, and whether it answers what asking did, and the class of its name.
fn answer(
    alloc: Global,
    classes: &mut Hierarchy,
    text: &'static str,
    asked: &Result<(), ClassFault>,
) -> Result<(String, bool), AllocError> {
    let Form {
        name,
        superclasses,
        has_shared_slots,
    } = read_form(alloc, text)?;
    let answer = classes.define(alloc, &name, superclasses, has_shared_slots);
    let mut line = told(alloc, classes, &answer)?;
    if !is_same(alloc, asked, &answer)? {
        line.push_str(", and asked otherwise")?;
    }
    if !is_named(classes, &answer, &name) {
        line.push_str(", and another class")?;
    }
    Ok((line, answer.is_err()))
}

/// Asks what stands against defining a class, and defines it. Tells what that answers, whether asking or a fault left another
/// table, and whether asking answered otherwise.
fn define(
    alloc: Global,
    classes: &mut Hierarchy,
    text: &'static str,
) -> Result<String, AllocError> {
    let before = lists(alloc, classes, 0)?;
    let asked = check(alloc, classes, text)?;
    let between = lists(alloc, classes, 0)?;
    let (mut line, is_refused) = answer(alloc, classes, text, &asked)?;
    if between.as_str() != before.as_str() {
        line.push_str(", and asking left another table")?;
    }
    if is_refused && lists(alloc, classes, 0)?.as_str() != before.as_str() {
        line.push_str(", and another table")?;
    }
    Ok(line)
}

/// The name of a class's class, and whether it is a standard class.
fn class_of(alloc: Global, classes: &Hierarchy, name: &Name) -> Result<String, AllocError> {
    let Some(class) = classes.named(name) else {
        return String::from_str(alloc, " undefined");
    };
    let mut line = names(alloc, classes, &[classes.class_of_class(class)])?;
    if classes.is_standard(class) {
        line.push_str(", standard")?;
    }
    Ok(line)
}

/// Whether the class of the first of two names is that of the second, or below it.
fn is_sub(alloc: Global, classes: &Hierarchy, text: &'static str) -> Result<String, AllocError> {
    let (name, above) = text.split_once(' ').unwrap_or((text, ""));
    let line = match (
        classes.named(&Name::new(alloc, name, false)?),
        classes.named(&Name::new(alloc, above, false)?),
    ) {
        (Some(class), Some(above)) if classes.is_sub(class, above) => " yes",
        (Some(_), Some(_)) => " no",
        _ => " undefined",
    };
    String::from_str(alloc, line)
}

/// What a line comes to: a definition's answer; or after `?` a class's list, after `@` its class, and after `<` whether it
/// is another class or below it.
fn outcome(
    alloc: Global,
    classes: &mut Hierarchy,
    form: &'static str,
) -> Result<String, AllocError> {
    if let Some(name) = form.strip_prefix("? ") {
        return list_of(alloc, classes, &Name::new(alloc, name, false)?);
    }
    if let Some(name) = form.strip_prefix("@ ") {
        return class_of(alloc, classes, &Name::new(alloc, name, false)?);
    }
    if let Some(pair) = form.strip_prefix("< ") {
        return is_sub(alloc, classes, pair);
    }
    define(alloc, classes, form)
}

/// The lines again, each with what stands behind its arrow as it is in this table.
fn lines_in(
    alloc: Global,
    classes: &mut Hierarchy,
    script: &'static str,
) -> Result<String, AllocError> {
    let mut lines = String::new(alloc);
    for line in script.lines() {
        let (form, _) = line.split_once(" =>").unwrap_or((line, ""));
        lines.push_str(form)?;
        lines.push_str(" =>")?;
        lines.push_str(outcome(alloc, classes, form)?.as_str())?;
        lines.push('\n')?;
    }
    Ok(lines)
}

/// The same in a new table with room for so many classes.
pub fn transcript(alloc: Global, limit: u64, script: &'static str) -> Result<String, AllocError> {
    let mut classes = Hierarchy::new(alloc, limit)?;
    lines_in(alloc, &mut classes, script)
}
