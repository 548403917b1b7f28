//! The text of an answer.
use itoa::Buffer;
use std::alloc::Global;
use td_layer::{NoMem, Seq};

/// A text that is being written, and whether memory ran out on the way.
#[derive(Drop)]
pub struct Out {
    text: Seq<u8>,
    full: bool,
}

impl Out {
    /// The empty text.
    pub fn new(alloc: Global) -> Out {
        Out {
            text: Seq::new(alloc),
            full: false,
        }
    }

    /// Adds bytes at the end.
    pub fn push(&mut self, bytes: &[u8]) {
        if self.text.extend(bytes).is_err() {
            self.full = true;
        }
    }

    /// Adds the decimal text of a number at the end.
    pub fn number(&mut self, n: i128) {
        let mut buffer = Buffer::new();
        self.push(buffer.format(n).as_bytes());
    }

    /// The text, or want of memory where a piece of it found none.
    pub fn text(self) -> Result<Seq<u8>, NoMem> {
        if self.full { Err(NoMem) } else { Ok(self.text) }
    }
}
