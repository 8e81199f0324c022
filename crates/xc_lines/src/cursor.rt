ghost use Rattle.std.specs.Prelude.{◌≡◌, ◌^◌, ◌==◌, length};
ghost use Rattle.xc_lines.specs.Parts.{GivesRead, PassesFront, PassesFrontIf, past, number_at, below_at, name_at, ident_at, bytes_at};
ghost use Rattle.xc_lines.specs.Parts.{handle_at, handle_from, num_at};
ghost use Rattle.xc_tokens.specs.Quoted.{literal_of};

use crate::numbers::{digit_count, name_count};
use crate::quoted::past_literal;
use crate::stop::ReadStop;
use std::alloc::Global;
use std::marker::Model;
use xc_data::{Chunk, Ident, Name, Num};
use xc_tokens::spelled_number;

/// A place in a text. Contracts see what stands behind it.
#[derive(Drop)]
pub struct Cursor<'a> {
    rest: &'a [u8],
}

impl<'a> Model for Cursor<'a> {
    ghost use Rattle.std.specs.Prelude.{List, ℕ};

    ghost Value = { List ℕ };

    ghost view = { λ a. a.rest.now };
}

impl<'a> Cursor<'a> {
    pub fn new(text: &'a [u8]) -> Cursor<'a>
        ensures { result ≡ text.now }
    {
        Cursor { rest: text }
    }

    /// Another one in the same place.
    pub fn again(&self) -> Cursor<'a>
        ensures { result ≡ self.now }
    {
        Cursor { rest: self.rest }
    }

    /// Whether it is at the end of the text.
    pub fn is_empty(&self) -> bool
        ensures { result ≡ (length self.now == 0) }
    {
        self.rest.is_empty()
    }

    /// How many bytes stand behind it.
    pub fn len(&self) -> usize
        ensures { result ≡ length self.now }
    {
        self.rest.len()
    }

    /// Goes behind these bytes, where they stand here.
    pub fn passes(&mut self, front: &[u8]) -> bool
        ensures { PassesFrontIf result self.old self.new (past front.now self.old) }
    {
        match self.rest.strip_prefix(front) {
            Some(rest) => {
                self.rest = rest;
                true
            }
            None => false,
        }
    }

    /// Goes behind these bytes, which must stand here.
    pub fn pass(&mut self, front: &[u8]) -> Result<(), ReadStop>
        ensures { PassesFront result self.new (past front.now self.old) }
    {
        if self.passes(front) {
            return Ok(());
        }
        Err(ReadStop::Unread)
    }

    #[tactic(auto, unfolding(crate::specs::Parts::number_at))]
    pub fn number(&mut self) -> Result<u64, ReadStop>
        ensures { GivesRead result self.new (number_at self.old) }
    {
        let (digits, rest) = self.rest.split_at(digit_count(self.rest));
        match spelled_number(digits) {
            Some(n) => {
                self.rest = rest;
                Ok(n)
            }
            None => Err(ReadStop::Unread),
        }
    }

    #[tactic(auto, unfolding(crate::specs::Parts::below_at))]
    pub fn small(&mut self) -> Result<u32, ReadStop>
        ensures { GivesRead result self.new (below_at (2 ^ 32) self.old) }
    {
        let n = self.number()?;
        if n > u32::MAX as u64 {
            return Err(ReadStop::Unread);
        }
        Ok(n as u32)
    }

    #[tactic(auto, unfolding(crate::specs::Parts::below_at))]
    pub fn tiny(&mut self) -> Result<u16, ReadStop>
        ensures { GivesRead result self.new (below_at (2 ^ 16) self.old) }
    {
        let n = self.number()?;
        if n > u16::MAX as u64 {
            return Err(ReadStop::Unread);
        }
        Ok(n as u16)
    }

    #[tactic(auto, unfolding(crate::specs::Parts::below_at))]
    pub fn byte(&mut self) -> Result<u8, ReadStop>
        ensures { GivesRead result self.new (below_at (2 ^ 8) self.old) }
    {
        let n = self.number()?;
        if n > u8::MAX as u64 {
            return Err(ReadStop::Unread);
        }
        Ok(n as u8)
    }

    #[tactic(auto, unfolding(crate::specs::Parts::name_at))]
    pub fn name(&mut self) -> Result<Name, ReadStop>
        ensures { GivesRead result self.new (name_at self.old) }
    {
        let (name, rest) = self.rest.split_at(name_count(self.rest));
        match Name::new(name) {
            Some(name) => {
                self.rest = rest;
                Ok(name)
            }
            None => Err(ReadStop::Unread),
        }
    }

    #[tactic(auto, unfolding(crate::specs::Parts::ident_at))]
    pub fn ident(&mut self) -> Result<Ident, ReadStop>
        ensures { GivesRead result self.new (ident_at self.old) }
    {
        let (ident, rest) = self.rest.split_at(name_count(self.rest));
        match Ident::new(ident) {
            Some(ident) => {
                self.rest = rest;
                Ok(ident)
            }
            None => Err(ReadStop::Unread),
        }
    }

    /// Bytes behind their quote.
    pub fn literal(&mut self, alloc: Global) -> Result<Chunk, ReadStop>
        ensures { GivesRead result self.new (literal_of self.old) }
    {
        let (meant, rest) = past_literal(alloc, self.rest)?;
        self.rest = rest;
        Ok(Chunk::from_vec(meant)?)
    }

    #[tactic(auto, unfolding(crate::specs::Parts::bytes_at))]
    pub fn bytes(&mut self, alloc: Global) -> Result<Chunk, ReadStop>
        ensures { GivesRead result self.new (bytes_at self.old) }
    {
        self.pass(b"\"")?;
        self.literal(alloc)
    }

    /// A handle behind its `h`.
    #[tactic(auto, unfolding(crate::specs::Parts::handle_from))]
    pub fn bare_handle(&mut self) -> Result<u16, ReadStop>
        ensures { GivesRead result self.new (handle_from self.old) }
    {
        if self.passes(b"-") {
            return Ok(65535);
        }
        self.tiny()
    }

    #[tactic(auto, unfolding(crate::specs::Parts::handle_at))]
    pub fn handle(&mut self) -> Result<u16, ReadStop>
        ensures { GivesRead result self.new (handle_at self.old) }
    {
        self.pass(b"h")?;
        self.bare_handle()
    }

    #[tactic(auto, unfolding(crate::specs::Parts::num_at))]
    pub fn num(&mut self) -> Result<Num, ReadStop>
        ensures { GivesRead result self.new (num_at self.old) }
    {
        let tx = self.small()?;
        self.pass(b".")?;
        let k = self.tiny()?;
        Ok(Num { tx, k })
    }
}
