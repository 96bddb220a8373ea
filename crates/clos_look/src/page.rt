//! Pages: a heading, and under it rows, each a label with its entries below each other.
use clos_forms::FunctionName;
use clos_world::World;
use itoa::Buffer;
use lisp_data::{ClassId, GenericId, Name, Value, prin1};
use std::alloc::{AllocError, Global};

/// Stands in place of a label before each entry but the first. Labels are as long.
const NO_LABEL: &str = "                      ";

/// Lines of text that are being written. Once memory runs out nothing more is added, and there is no page at the end.
#[derive(Drop)]
pub struct Page {
    alloc: Global,
    text: Vec<u8>,
    failed: bool,
}

impl Page {
    /// A page with nothing on it.
    pub fn new(alloc: Global) -> Page {
        Page {
            alloc,
            text: Vec::new(alloc),
            failed: false,
        }
    }

    /// Notes that memory ran out.
    pub fn fail(&mut self) {
        self.failed = true;
    }

    fn bytes(&mut self, bytes: &[u8]) {
        if !self.failed {
            self.failed = self.text.extend_from_slice(bytes).is_err();
        }
    }

    /// Adds this text.
    pub fn text(&mut self, text: &str) {
        self.bytes(text.as_bytes());
    }

    /// Adds a number.
    pub fn number(&mut self, number: u64) {
        self.text(Buffer::new().format(number));
    }

    /// Adds a number of things, by their word for one or more of them.
    pub fn count(&mut self, number: u64, one: &str, more: &str) {
        self.number(number);
        self.text(" ");
        self.text(if number == 1 { one } else { more });
    }

    /// Adds a value as `prin1` prints it.
    pub fn value(&mut self, world: &World, value: &Value) {
        match prin1(self.alloc, value, world) {
            Ok(printed) => self.bytes(printed.as_slice()),
            Err(_) => self.fail(),
        }
    }

    /// Adds a name.
    pub fn name(&mut self, world: &World, name: &Name) {
        match name.copy() {
            Ok(name) => self.value(world, &Value::Sym(name)),
            Err(_) => self.fail(),
        }
    }

    /// Adds the name of a class.
    pub fn class(&mut self, world: &World, class: ClassId) {
        if let Some(name) = world.classes().hierarchy().name(class) {
            self.name(world, name);
        }
    }

    /// Adds what a generic function is called.
    pub fn function(&mut self, world: &World, id: GenericId) {
        let Some(function) = world.generics.function(id) else {
            return;
        };
        match function.name() {
            FunctionName::Symbol(name) => self.name(world, name),
            FunctionName::Setf(name) => {
                self.text("(SETF ");
                self.name(world, name);
                self.text(")");
            }
        }
    }

    /// Begins an entry of a row, which follows so many others in it.
    pub fn entry(&mut self, label: &str, place: usize) {
        self.text("\n");
        self.text(if place == 0 { label } else { NO_LABEL });
    }

    /// Says that a row has no entry, where it has none.
    pub fn none(&mut self, label: &str, count: usize) {
        if count == 0 {
            self.entry(label, 0);
            self.text("none");
        }
    }

    /// Ends the last line, and gives what is written.
    pub fn end(self) -> Result<Vec<u8>, AllocError> {
        let mut text = self.text;
        if self.failed {
            return Err(AllocError);
        }
        text.push(b'\n')?;
        Ok(text)
    }
}
