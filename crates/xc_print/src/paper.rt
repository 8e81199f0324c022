ghost use Rattle.std.specs.Prelude.{◌≡◌, ℕ, List, ◌++◌, ◌∷◌, [], OnOk};
ghost use Rattle.std.specs.Fmt.{decimal};

use itoa::{Buffer, Integer};

/// What takes a text, one part after another.
pub trait Paper {
    /// What it answers where it can't take a part. A part that failed may have been taken in part.
    type Error: Drop;

    /// What it has taken. Where it has a heading, that stands in front.
    ghost said: { Self → List ℕ };

    /// These bytes, at the end.
    fn push(&mut self, bytes: &[u8]) -> Result<(), Self::Error>
        ensures { OnOk result (said self.new ≡ said self.old ++ bytes.now) };

    /// A byte, at the end.
    fn push_byte(&mut self, byte: u8) -> Result<(), Self::Error>
        ensures { OnOk result (said self.new ≡ said self.old ++ byte ∷ []) };

    /// A number in decimal digits, at the end.
    fn number(&mut self, number: u64) -> Result<(), Self::Error>
        ensures { OnOk result (said self.new ≡ said self.old ++ decimal number) };

    /// This text, at the end. A constant one is written in place.
    #[inline(always)]
    fn text(&mut self, text: &str) -> Result<(), Self::Error>
        ensures { OnOk result (said self.new ≡ said self.old ++ text.now) }
    {
        self.push(text.as_bytes())
    }

    /// A number after its label, at the end.
    #[inline(always)]
    fn labelled(&mut self, label: &str, number: u64) -> Result<(), Self::Error>
        ensures { OnOk result (said self.new ≡ said self.old ++ (label.now ++ decimal number)) }
    {
        self.text(label)?;
        self.number(number)
    }
}

/// A number of any width in decimal digits, at the end. It is slower than `number`.
#[inline(never)]
pub fn push_wide<P: Paper, I: Integer>(out: &mut P, number: I) -> Result<(), P::Error>
    ensures { OnOk result (P.said out.new ≡ P.said out.old ++ I.text number) }
{
    let mut digits = Buffer::new();
    out.text(digits.format(number))
}
