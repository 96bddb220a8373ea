//! Text of HTML that is being written (WHATWG HTML 13.1).
use itoa::Buffer;
use std::alloc::{AllocError, Global};

/// A number of things, as a length.
pub fn length(count: usize) -> i64 {
    i64::try_from(count).unwrap_or(i64::MAX)
}

/// Text of HTML. Once memory runs out nothing more is added, and there is no text at the end.
#[derive(Drop)]
pub struct Html {
    alloc: Global,
    text: Vec<u8>,
    failed: bool,
}

/// What stands for a byte that has a meaning in HTML.
fn escape(byte: u8) -> Option<&'static str> {
    match byte {
        b'&' => Some("&amp;"),
        b'<' => Some("&lt;"),
        b'>' => Some("&gt;"),
        b'"' => Some("&quot;"),
        _ => None,
    }
}

impl Html {
    pub fn new(alloc: Global) -> Html {
        Html {
            alloc,
            text: Vec::new(alloc),
            failed: false,
        }
    }

    pub fn alloc(&self) -> Global {
        self.alloc
    }

    /// Adds HTML.
    pub fn raw(&mut self, html: &str) {
        if !self.failed {
            self.failed = self.text.extend_from_slice(html.as_bytes()).is_err();
        }
    }

    pub fn number(&mut self, number: i64) {
        self.raw(Buffer::new().format(number));
    }

    /// Adds the number of a class or a function.
    pub fn id(&mut self, number: u64) {
        self.raw(Buffer::new().format(number));
    }

    fn byte(&mut self, byte: u8) {
        if !self.failed {
            self.failed = self.text.push(byte).is_err();
        }
    }

    /// Adds text, which means itself.
    pub fn text(&mut self, text: &[u8]) {
        for byte in text {
            match escape(*byte) {
                None => self.byte(*byte),
                Some(html) => self.raw(html),
            }
        }
    }

    /// Adds an attribute with a number.
    pub fn attribute(&mut self, name: &str, number: i64) {
        self.raw(" ");
        self.raw(name);
        self.raw("=\"");
        self.number(number);
        self.raw("\"");
    }

    /// What is written.
    pub fn end(self) -> Result<Vec<u8>, AllocError> {
        if self.failed {
            return Err(AllocError);
        }
        Ok(self.text)
    }
}
