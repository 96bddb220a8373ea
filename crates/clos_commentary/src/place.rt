//! Where a byte of the input stands.
ghost use Rattle.std.specs.Prelude.{◌≡◌, ◌++◌, OnOk};
ghost use Rattle.clos_commentary.specs.Place.{after_byte, first_place, next_count, place_after, place_text};

use itoa::Buffer;
use std::alloc::AllocError;

/// A line and a column, both counted from 1.
#[derive(Clone, Copy, Debug, PartialEq, Eq)]
pub struct Place {
    pub line: u64,
    pub column: u64,
}

fn next_count(count: u64) -> u64
    ensures { result ≡ next_count count }
{
    count.saturating_add(1)
}

impl Place {
    /// The place of the first byte.
    pub fn first() -> Place
        ensures { result ≡ first_place }
    {
        Place { line: 1, column: 1 }
    }

    fn after_byte(self, byte: u8) -> Place
        ensures { result ≡ after_byte self byte }
    {
        if byte == b'\n' {
            return Place {
                line: next_count(self.line),
                column: 1,
            };
        }
        if (0x80..=0xBF).contains(&byte) {
            return self;
        }
        Place {
            line: self.line,
            column: next_count(self.column),
        }
    }

    /// The place after these bytes, which begin at this one. A character takes one column, however many bytes it has.
    pub fn after(self, bytes: &[u8]) -> Place
        ensures { result ≡ place_after self bytes.now }
    {
        bytes
            .iter()
            .fold(self, |place, byte| place.after_byte(*byte))
    }
}

/// Adds the line and the column of a place.
pub fn push_place(text: &mut Vec<u8>, place: Place) -> Result<(), AllocError>
    ensures { OnOk result (text.new.items ≡ text.old.items ++ place_text place) }
{
    text.extend_from_slice(Buffer::new().format(place.line).as_bytes())?;
    text.push(b':')?;
    text.extend_from_slice(Buffer::new().format(place.column).as_bytes())
}
