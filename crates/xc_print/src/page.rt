ghost use Rattle.std.specs.Prelude.{◌≡◌, ◌<◌, ◌≤◌, ◌+◌, ◌/◌, ◌%◌, ◌++◌, ◌∷◌, [], OnOk, vec_len, vec_capacity};
ghost use Rattle.std.specs.Fmt.{decimal};

use crate::paper::Paper;
use itoa::{Buffer, Integer};
use std::alloc::Global;
use std::marker::Model;
use xc_data::{NoMemory, Text};

/// A text that grows at its end. Contracts see its bytes.
#[derive(Drop)]
pub struct Page {
    bytes: Vec<u8>,
}

impl Model for Page {
    ghost use Rattle.std.specs.Prelude.{List, ℕ};

    ghost Value = { List ℕ };

    ghost view = { λ a. a.bytes.items };
}

impl Page {
    /// An empty page. It takes no memory.
    pub fn new(alloc: Global) -> Page
        ensures { result ≡ [] }
    {
        Page {
            bytes: Vec::new(alloc),
        }
    }

    /// An empty page with room for so many bytes, where there is memory for them all. It grows if that isn't enough.
    pub fn with_room(alloc: Global, room: usize) -> Page
        ensures { result ≡ [] }
    {
        match Vec::with_capacity(alloc, room) {
            Ok(bytes) => Page { bytes },
            Err(_) => Page::new(alloc),
        }
    }

    /// The page as a text, without a copy. It takes no memory.
    pub fn into_text(self) -> Text
        ensures { result ≡ self }
    {
        Text::from_vec(self.bytes)
    }

    /// These bytes, at the end of the page.
    #[inline(always)]
    pub fn push(&mut self, bytes: &[u8]) -> Result<(), NoMemory>
        ensures { OnOk result (self.new ≡ self.old ++ bytes.now) }
    {
        Ok(self.bytes.extend_from_slice(bytes)?)
    }

    /// A byte, at the end of the page.
    #[inline(always)]
    pub fn push_byte(&mut self, byte: u8) -> Result<(), NoMemory>
        ensures { OnOk result (self.new ≡ self.old ++ byte ∷ []) }
    {
        Ok(self.bytes.push(byte)?)
    }

    /// This text, at the end of the page. A constant one is written in place.
    #[inline(always)]
    pub fn text(&mut self, text: &str) -> Result<(), NoMemory>
        ensures { OnOk result (self.new ≡ self.old ++ text.now) }
    {
        self.push(text.as_bytes())
    }

    /// A number in decimal digits, at the end of the page.
    pub fn number(&mut self, number: u64) -> Result<(), NoMemory>
        ensures { OnOk result (self.new ≡ self.old ++ decimal number) }
    {
        if number >= 10_000 {
            return self.wide_number(number);
        }
        self.bytes.reserve(4)?;
        put_number(&mut self.bytes, number);
        Ok(())
    }

    /// A number of any width in decimal digits, at the end of the page. It is slower than `number`.
    #[inline(never)]
    pub fn wide_number<I: Integer>(&mut self, number: I) -> Result<(), NoMemory>
        ensures { OnOk result (self.new ≡ self.old ++ I.text number) }
    {
        let mut digits = Buffer::new();
        self.text(digits.format(number))
    }

    /// A number after its label, at the end of the page.
    #[inline(always)]
    pub fn labelled(&mut self, label: &str, number: u64) -> Result<(), NoMemory>
        ensures { OnOk result (self.new ≡ self.old ++ (label.now ++ decimal number)) }
    {
        self.text(label)?;
        self.number(number)
    }
}

impl Paper for Page {
    type Error = NoMemory;

    ghost said = { λ page. page };

    #[inline(always)]
    fn push(&mut self, bytes: &[u8]) -> Result<(), NoMemory> {
        Page::push(self, bytes)
    }

    #[inline(always)]
    fn push_byte(&mut self, byte: u8) -> Result<(), NoMemory> {
        Page::push_byte(self, byte)
    }

    #[inline(always)]
    fn number(&mut self, number: u64) -> Result<(), NoMemory> {
        Page::number(self, number)
    }
}

// A digit, where there is room for it.
#[inline(always)]
fn put_digit(bytes: &mut Vec<u8>, digit: u64)
    requires { (digit < 10) × (vec_len bytes.old < vec_capacity bytes.old) }
    ensures items { bytes.new.items ≡ bytes.old.items ++ (48 + digit) ∷ [] }
    ensures len { vec_len bytes.new ≡ vec_len bytes.old + 1 }
    ensures capacity { vec_capacity bytes.new ≡ vec_capacity bytes.old }
{
    bytes.push_reserved(b'0' + digit as u8);
}

// Two digits, where there is room for them.
#[inline(always)]
fn put_pair(bytes: &mut Vec<u8>, pair: u64)
    requires { (pair < 100) × (vec_len bytes.old + 2 ≤ vec_capacity bytes.old) }
    ensures items { bytes.new.items ≡ bytes.old.items ++ (48 + pair / 10) ∷ (48 + pair % 10) ∷ [] }
    ensures len { vec_len bytes.new ≡ vec_len bytes.old + 2 }
    ensures capacity { vec_capacity bytes.new ≡ vec_capacity bytes.old }
{
    put_digit(bytes, pair / 10);
    put_digit(bytes, pair % 10);
}

// One to four digits, where there is room for four.
#[inline(always)]
#[tactic(auto, using(crate::proofs::Numbers::few_digits))]
pub(crate) fn put_number(bytes: &mut Vec<u8>, number: u64)
    requires { (number < 10000) × (vec_len bytes.old + 4 ≤ vec_capacity bytes.old) }
    ensures items { bytes.new.items ≡ bytes.old.items ++ decimal number }
    ensures len { vec_len bytes.new ≤ vec_len bytes.old + 4 }
    ensures capacity { vec_capacity bytes.new ≡ vec_capacity bytes.old }
{
    if number < 10 {
        return put_digit(bytes, number);
    }
    if number < 100 {
        return put_pair(bytes, number);
    }
    if number < 1000 {
        put_digit(bytes, number / 100);
        return put_pair(bytes, number % 100);
    }
    put_pair(bytes, number / 100);
    put_pair(bytes, number % 100);
}
