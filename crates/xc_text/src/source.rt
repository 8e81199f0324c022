//! The text of a script, of which literals are parts.

ghost use Rattle.std.specs.Prelude.{◌≡◌, IfOk, IfSome};
ghost use Rattle.std.specs.List.{repeat as repeat_of_list};

use std::alloc::Global;
use xc_data::{Chunk, NoMemory};
use xc_tokens::repeated;

/// The text of a script while it is read. A literal that ends its line, as most do, shares it and has no bytes of its own.
#[derive(Drop)]
pub struct SharedText {
    text: Chunk,
    /// How many bytes stand after the line under way.
    behind: usize,
}

impl SharedText {
    /// No line is under way.
    pub fn new(text: Chunk) -> SharedText {
        SharedText { text, behind: 0 }
    }

    /// The next line is under way.
    pub fn set_behind(&mut self, behind: usize) {
        self.behind = behind;
    }

    // The bytes as a part of the text, if they stand before the last byte of the line, which closes a literal.
    fn part(&self, alloc: Global, bytes: &[u8]) -> Result<Option<Chunk>, NoMemory>
        ensures { IfOk result (λ part. IfSome part (λ chunk. chunk ≡ bytes.now)) }
    {
        let text = self.text.as_slice();
        if text.len() <= self.behind || text.len() - self.behind <= bytes.len() {
            return Ok(None);
        }
        let end = text.len() - self.behind - 1;
        let start = end - bytes.len();
        if &text[start..end] != bytes {
            return Ok(None);
        }
        Ok(Some(self.text.part(alloc, start, end)?))
    }

    /// The bytes of a literal, `times` times.
    pub fn literal(&self, alloc: Global, bytes: &[u8], times: u32) -> Result<Chunk, NoMemory>
        ensures { IfOk result (λ chunk. chunk ≡ repeat_of_list times bytes.now) }
    {
        if times == 1 {
            if let Some(chunk) = self.part(alloc, bytes)? {
                return Ok(chunk);
            }
        }
        repeated(alloc, bytes, times)
    }
}
