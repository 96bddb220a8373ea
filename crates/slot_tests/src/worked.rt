//! Worked examples, each line a `defclass` or a question, and what it comes to.
use clos_class::{ClassFault, Classes, Effective, Layout, NewCell};
use clos_forms::{Form, Operator};
use clos_syntax::{ClassDefinition, DefaultInitarg, parse_class};
use lisp_data::{CellId, ClassId, Datum, Name, Value};
use lisp_reader::read_form;
use std::alloc::{AllocError, Global};
use std::process::Abort;
use std::rc::Rc;
use std::test::Fail;

/// What is inherited, and by which class.
const INHERITED: &str = "(defclass a () ((x :initarg :x :initform 1) y)) => A
(defclass b () ((y :initarg :b :initform 2) (x :initarg :b-x))) => B
(defclass c (a b) ((z :initform 3))) => C
? A => X=1[:X] Y
? B => Y=2[:B] X[:B-X]
? C => Y=2[:B] X=1[:X :B-X] Z=3
(defclass d (c) ((x :initarg :d :initarg :x))) => D
? D => Y=2[:B] X=1[:D :X :B-X] Z=3
? E => undefined
(defclass f (g) (y)) =>
? F => no layout
(defclass g () ((y :initform 4))) => F G
? F => Y=4
? STANDARD-OBJECT =>
? INTEGER =>
";

/// Which cells are made, kept and given up.
const SHARED: &str =
    "(defclass a () ((n :allocation :class :initform 1) x (m :allocation :class))) => N=1 M: A
? A => X N@0=1 M@1
(defclass b (a) (y)) => B
? B => X Y N@0=1 M@1
(defclass c (a) ((m :allocation :class) (n :initform 5))) => M: C
? C => N=5 X M@2
(defclass a () ((m :allocation :class :initform 6) (n :allocation :class :initform 7) k)) =>
? A => K M@1=6 N@0=7
? B => K Y M@1=6 N@0=7
? C => N=5 K M@2=6
(defclass a () (n (m :allocation :class))) =>
? A => N M@1
? B => N Y M@1
(defclass a () ((n :allocation :class) (m :allocation :class))) => N:
? A => N@3 M@1
(defclass a () (x)) =>
? A => X
? C => X N=5 M@2
(defclass a () ((m :allocation :class))) => M:
? A => M@4
? B => Y M@4
";

/// New cells are in layout order, and take inherited initforms.
const NEW_CELLS: &str = "(defclass a () (p q (r :initform 1))) => A
(defclass b () ((q :initform 2))) => B
(defclass c (a b) ((s :allocation :class) (r :allocation :class) (p :allocation :class) (q :allocation :class :initform 3))) => Q=3 P R=1 S: C
? C => Q@0=3 P@1 R@2=1 S@3
(defclass c (a b) ((q :allocation :class) (t1 :allocation :class) (r :allocation :class))) => T1:
? C => P Q@0=2 R@2=1 T1@4
(defclass d (e) ((x :allocation :class))) => incomplete
(defclass e () ()) => E
(defclass d (e) ((x :allocation :class))) => X: D
? D => X@5
";

const DEFAULTS: &str = "(defclass a () () (:default-initargs :x 1 :y 2)) => A
(defclass b () () (:default-initargs :z 3 :x 4)) => B
(defclass c (a b) () (:default-initargs :y 5)) => C
? C => :Y 5 :X 1 :Z 3
(defclass a () ()) =>
? C => :Y 5 :Z 3 :X 4
? A =>
";

/// All slots of a class, local and shared ones, in layout order.
const EFFECTIVE: &str =
    "(defclass a () ((x :initarg :x :initform 1) (n :allocation :class :initform 2 :initarg :n))) => N=2: A
(defclass b (a) ((y :initarg :y) (n :initform 3))) => B
(defclass c (a) ((m :allocation :class :initform 4) (x :initarg :c-x) (n :allocation :class :initarg :c-n)) (:default-initargs :y 6)) => N=2 M=4: C
(defclass d (b c) ((z :initform 5))) => D
slots A => X=1[:X] N@0=2[:N]
slots B => X=1[:X] N=3[:N] Y[:Y]
slots C => X=1[:C-X :X] N@1=2[:C-N :N] M@2=4 :Y 6
slots D => X=1[:C-X :X] N=3[:C-N :N] M@2=4 Y[:Y] Z=5 :Y 6
(defclass a () (x)) =>
slots D => X[:C-X] M@2=4 N=3[:C-N] Y[:Y] Z=5 :Y 6
(defclass e (f) (x)) =>
slots E => none
slots STANDARD-OBJECT =>
";

/// A refused definition changes nothing.
const REFUSED: &str = "(defclass a () ((x :allocation :class))) => X: A
(defclass b (a) (y)) => B
(defclass a (b) (z)) => cycle
(defclass a (c) (z)) => incomplete
(defclass b (integer) (z)) => invalid: INTEGER
(defclass c (d) ((w :allocation :class))) => incomplete
(defclass c (standard-object a) (w)) => inconsistent: C
? A => X@0
? B => Y X@0
? C => undefined
(defclass c () (w)) => C
(defclass d () ()) => table limit
? C => W
";

/// The datum that a text begins with.
fn datum(alloc: Global, text: &str) -> Option<Datum> {
    match read_form(alloc, text.as_bytes(), 0) {
        Ok(Some((datum, _))) => Some(datum),
        _ => None,
    }
}

/// The definition that a datum stands for.
fn parsed(alloc: Global, datum: &Datum) -> Option<ClassDefinition> {
    let Datum::List(form) = datum else {
        return None;
    };
    let (_, rest) = form.split_first()?;
    match parse_class(alloc, rest) {
        Ok(definition) => Some(definition),
        Err(_) => None,
    }
}

/// The definition that a text reads as.
fn definition(alloc: Global, text: &str) -> Option<ClassDefinition> {
    let datum = datum(alloc, text)?;
    parsed(alloc, &datum)
}

fn write_name(line: &mut String, name: &Name) -> Result<(), AllocError> {
    if name.is_keyword() {
        line.push(':')?;
    }
    line.push_str(name.as_str())
}

/// A constant form, after this.
fn write_form(
    alloc: Global,
    line: &mut String,
    before: &str,
    form: Option<&Form>,
) -> Result<(), AllocError> {
    let Some(form) = form else {
        return Ok(());
    };
    line.push_str(before)?;
    match form.operator() {
        Operator::Constant(Value::Int(number)) => {
            line.push_str(format!(in alloc; "{number}")?.as_str())
        }
        _ => line.push('?'),
    }
}

fn write_names(line: &mut String, classes: &Classes, list: &[ClassId]) -> Result<(), AllocError> {
    for class in list {
        line.push(' ')?;
        if let Some(name) = classes.hierarchy().name(*class) {
            line.push_str(name.as_str())?;
        }
    }
    Ok(())
}

fn write_initargs(line: &mut String, initargs: &[Name]) -> Result<(), AllocError> {
    let mut before = '[';
    for initarg in initargs {
        line.push(before)?;
        write_name(line, initarg)?;
        before = ' ';
    }
    if before == ' ' {
        line.push(']')?;
    }
    Ok(())
}

/// A slot of a class after its name: its initform and its initargs.
fn write_slot(
    alloc: Global,
    line: &mut String,
    classes: &Classes,
    class: ClassId,
    slot: &Name,
) -> Result<(), AllocError> {
    write_form(alloc, line, "=", classes.initform(class, slot))?;
    let initargs = classes.initargs(class, slot);
    for initarg in initargs {
        if !classes.is_initarg(class, slot, initarg) || classes.is_initarg(class, initarg, slot) {
            line.push('!')?;
        }
    }
    write_initargs(line, initargs)
}

/// The slots of a layout in order, the shared ones with their cells.
fn write_layout(
    alloc: Global,
    line: &mut String,
    classes: &Classes,
    class: ClassId,
    layout: &Layout,
) -> Result<(), AllocError> {
    for slot in layout.locals().as_slice() {
        line.push(' ')?;
        write_name(line, slot)?;
        write_slot(alloc, line, classes, class, slot)?;
    }
    for place in 0..16usize {
        let Some((slot, cell)) = layout.shared(place) else {
            break;
        };
        line.push(' ')?;
        write_name(line, slot)?;
        line.push_str(format!(in alloc; "@{}", cell.0)?.as_str())?;
        write_slot(alloc, line, classes, class, slot)?;
    }
    Ok(())
}

fn write_defaults(
    alloc: Global,
    line: &mut String,
    defaults: &[DefaultInitarg],
) -> Result<(), AllocError> {
    for default in defaults {
        line.push(' ')?;
        write_name(line, &default.name)?;
        write_form(alloc, line, " ", Some(&default.form))?;
    }
    Ok(())
}

/// The slots of a class in layout order, the shared ones with their cells, and its default initargs.
fn write_effective(
    alloc: Global,
    line: &mut String,
    effective: &Effective,
) -> Result<(), AllocError> {
    for slot in effective.slots() {
        line.push(' ')?;
        write_name(line, &slot.name)?;
        if let Some(cell) = slot.cell {
            line.push_str(format!(in alloc; "@{}", cell.0)?.as_str())?;
        }
        write_form(alloc, line, "=", slot.initform.as_ref())?;
        write_initargs(line, slot.initargs.as_slice())?;
    }
    write_defaults(alloc, line, effective.defaults())
}

/// All slots of the class of this name.
fn write_slots(
    alloc: Global,
    line: &mut String,
    classes: &Classes,
    name: &Name,
) -> Result<(), AllocError> {
    let Some(class) = classes.hierarchy().named(name) else {
        return line.push_str(" undefined");
    };
    match classes.effective(class) {
        None => line.push_str(" none"),
        Some(effective) => write_effective(alloc, line, effective),
    }
}

/// What the class of this name has.
fn write_class(
    alloc: Global,
    line: &mut String,
    classes: &Classes,
    name: &Name,
) -> Result<(), AllocError> {
    let Some(class) = classes.hierarchy().named(name) else {
        return line.push_str(" undefined");
    };
    match classes.layout(class) {
        None => line.push_str(" no layout")?,
        Some(layout) => write_layout(alloc, line, classes, class, layout)?,
    }
    write_defaults(alloc, line, classes.defaults(class))
}

fn write_fault(line: &mut String, fault: &ClassFault) -> Result<(), AllocError> {
    match fault {
        ClassFault::InvalidSuperclass(name) => {
            line.push_str(" invalid: ")?;
            line.push_str(name.as_str())
        }
        ClassFault::InconsistentPrecedence(name) => {
            line.push_str(" inconsistent: ")?;
            line.push_str(name.as_str())
        }
        ClassFault::ProgramError => line.push_str(" program error"),
        ClassFault::TableLimit => line.push_str(" table limit"),
        ClassFault::SuperclassCycle => line.push_str(" cycle"),
        ClassFault::IncompleteClass => line.push_str(" incomplete"),
        ClassFault::Memory => line.push_str(" out of memory"),
    }
}

/// The slots that need new cells, with their initforms.
fn write_cells(alloc: Global, line: &mut String, cells: &[NewCell]) -> Result<(), AllocError> {
    for cell in cells {
        line.push(' ')?;
        write_name(line, &cell.slot)?;
        write_form(alloc, line, "=", cell.initform.as_ref())?;
    }
    if cells.len() > 0 {
        line.push(':')?;
    }
    Ok(())
}

/// Defines a class, with new cells where it needs some. Tells these, and the classes whose class precedence lists changed.
fn define(
    alloc: Global,
    line: &mut String,
    classes: &mut Classes,
    definition: &ClassDefinition,
    made: &mut u64,
) -> Result<(), AllocError> {
    let first = CellId(*made);
    let reserved = classes.reserve(alloc, definition);
    if let Ok(reserved) = &reserved {
        let cells = reserved.cells.as_slice();
        write_cells(alloc, line, cells)?;
        *made = made.saturating_add(cells.len() as u64);
    }
    match (reserved, classes.define(alloc, definition, first)) {
        (Ok(reserved), Ok(changed)) => {
            if reserved.class != changed.class {
                line.push_str(" another class")?;
            }
            write_names(line, classes, changed.lists.as_slice())
        }
        (Err(told), Err(fault)) => {
            let mut other = String::new(alloc);
            write_fault(&mut other, &told)?;
            write_fault(line, &fault)?;
            if line.as_str() != other.as_str() {
                line.push_str(", and reserved otherwise")?;
            }
            Ok(())
        }
        _ => line.push_str(" reserved otherwise"),
    }
}

/// What a line comes to: a definition's answer, or what a class has, after `?` slot by slot as the layout has them, and
/// after `slots` as they are kept together.
fn outcome(
    alloc: Global,
    classes: &mut Classes,
    form: &'static str,
    made: &mut u64,
) -> Result<String, AllocError> {
    let mut line = String::new(alloc);
    if let Some(name) = form.strip_prefix("? ") {
        write_class(alloc, &mut line, classes, &Name::new(alloc, name, false)?)?;
        return Ok(line);
    }
    if let Some(name) = form.strip_prefix("slots ") {
        write_slots(alloc, &mut line, classes, &Name::new(alloc, name, false)?)?;
        return Ok(line);
    }
    match definition(alloc, form) {
        None => line.push_str(" no definition")?,
        Some(definition) => define(alloc, &mut line, classes, &definition, made)?,
    }
    Ok(line)
}

/// The lines again, each with what stands behind its arrow as it is in this table.
fn lines_in(
    alloc: Global,
    classes: &mut Classes,
    script: &'static str,
) -> Result<String, AllocError> {
    let mut made = 0;
    let mut lines = String::new(alloc);
    for line in script.lines() {
        let (form, _) = line.split_once(" =>").unwrap_or((line, ""));
        lines.push_str(form)?;
        lines.push_str(" =>")?;
        lines.push_str(outcome(alloc, classes, form, &mut made)?.as_str())?;
        lines.push('\n')?;
    }
    Ok(lines)
}

/// The same in a new table with room for so many classes.
fn transcript(alloc: Global, limit: u64, script: &'static str) -> Result<String, AllocError> {
    let mut classes = Classes::new(alloc, limit)?;
    lines_in(alloc, &mut classes, script)
}

const SCRIPTS: &[(u64, &str)] = &[
    (8, INHERITED),
    (8, SHARED),
    (8, NEW_CELLS),
    (8, DEFAULTS),
    (8, EFFECTIVE),
    (3, REFUSED),
];

#[test]
fn classes_have_slots(rt: HostRuntime) -> Result<(), Fail> {
    for (limit, script) in SCRIPTS {
        let lines = transcript(rt.alloc(), *limit, script)?;
        assert_eq!(rt; lines.as_str(), *script);
    }
    Ok(())
}

/// Defines the class of a text.
fn define_text(
    alloc: Global,
    line: &mut String,
    classes: &mut Classes,
    text: &str,
    made: &mut u64,
) -> Result<(), AllocError> {
    match definition(alloc, text) {
        None => Ok(()),
        Some(definition) => define(alloc, line, classes, &definition, made),
    }
}

/// What the class of this name has, to be held.
fn held(classes: &Classes, name: &Name) -> Result<Option<Rc<Effective>>, AllocError> {
    let Some(class) = classes.hierarchy().named(name) else {
        return Ok(None);
    };
    match classes.effective(class) {
        None => Ok(None),
        Some(effective) => Ok(Some(effective.clone()?)),
    }
}

/// What the class A had before it is defined again, which is held meanwhile, and what it has then.
fn defined_again(
    alloc: Global,
    line: &mut String,
    classes: &mut Classes,
    made: &mut u64,
) -> Result<(), AllocError> {
    let name = Name::fixed(&"A");
    if let Some(held) = held(classes, &name)? {
        define_text(alloc, line, classes, "(defclass a () (z))", made)?;
        write_effective(alloc, line, &held)?;
    }
    write_slots(alloc, line, classes, &name)
}

/// The same of a class with slots and default initargs.
fn slots_in(alloc: Global, classes: &mut Classes) -> Result<String, AllocError> {
    let mut line = String::new(alloc);
    let mut made = 0;
    let first = "(defclass a () ((x :initform 1) y) (:default-initargs :y 2))";
    define_text(alloc, &mut line, classes, first, &mut made)?;
    defined_again(alloc, &mut line, classes, &mut made)?;
    Ok(line)
}

/// The same in a new table.
fn slots_before_and_after(alloc: Global) -> Result<String, AllocError> {
    let mut classes = Classes::new(alloc, 1)?;
    slots_in(alloc, &mut classes)
}

/// What a class has stays with who holds it, when the class is defined again.
#[test]
fn held_slots_stay(rt: HostRuntime) -> Result<(), Fail> {
    let line = slots_before_and_after(rt.alloc())?;
    assert_eq!(rt; line.as_str(), " A X=1 Y :Y 2 Z");
    Ok(())
}

/// Adds the slots and default initargs of a definition to those of another.
fn add_to(first: &mut ClassDefinition, second: ClassDefinition) -> Result<(), AllocError> {
    let ClassDefinition {
        slots,
        defaults,
        ..
    } = second;
    first.slots.append(slots)?;
    first.defaults.append(defaults)
}

/// The answer of a table to this definition.
fn answer_in(
    alloc: Global,
    classes: &mut Classes,
    definition: &ClassDefinition,
) -> Result<String, AllocError> {
    let mut line = String::new(alloc);
    define(alloc, &mut line, classes, definition, &mut 0)?;
    Ok(line)
}

/// The answer of a new table.
fn answer_to(alloc: Global, definition: &ClassDefinition) -> Result<String, AllocError> {
    let mut classes = Classes::new(alloc, 8)?;
    answer_in(alloc, &mut classes, definition)
}

/// The answer of a table to this definition, to which the slots and default initargs of another were added.
fn answer(alloc: Global, text: &str, more: &str) -> Result<String, AllocError> {
    let Some(mut first) = definition(alloc, text) else {
        return Ok(String::new(alloc));
    };
    if let Some(second) = definition(alloc, more) {
        add_to(&mut first, second)?;
    }
    answer_to(alloc, &first)
}

#[test]
fn no_slot_stands_twice(rt: HostRuntime) -> Result<(), Fail> {
    let one = "(defclass a () (x) (:default-initargs :x 1))";
    let wrong = " program error";
    assert_eq!(rt;
        answer(rt.alloc(), one, "(defclass b () (y))")?.as_str(),
        " A"
    );
    assert_eq!(rt;
        answer(rt.alloc(), one, "(defclass b () (x))")?.as_str(),
        wrong
    );
    let default = "(defclass b () () (:default-initargs :x 2))";
    assert_eq!(rt; answer(rt.alloc(), one, default)?.as_str(), wrong);
    Ok(())
}
