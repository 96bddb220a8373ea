//! A dependent that keeps what it hears.
ghost use Rattle.std.specs.Prelude.{◌≡◌, []};

use crate::dependent::Dependent;
use crate::notice::Notice;
use crate::reserved::Reserved;
use std::alloc::{AllocError, Global};

/// Keeps what it hears, and answers 0.
#[derive(Drop)]
pub struct Recorder {
    heard: Reserved<Notice>,
}

impl Recorder {
    /// One that heard nothing.
    pub fn new(alloc: Global) -> Recorder
        ensures { (result.heard.items ≡ []) × (result.heard.room ≡ 0) }
    {
        Recorder {
            heard: Reserved::new(alloc),
        }
    }
}

impl Dependent for Recorder {
    ghost told = { λ it. it.heard.items };

    ghost room = { λ it. it.heard.room };

    fn prepare(&mut self, count: usize) -> Result<(), AllocError> {
        self.heard.prepare(count)
    }

    fn tell(&mut self, notice: &Notice) -> i64 {
        self.heard.push(*notice);
        0
    }

    fn heard(&self) -> &[Notice] {
        self.heard.as_slice()
    }
}
