ghost use Rattle.std.specs.Prelude.{◌≡◌, [], Some};

use std::alloc::Global;
use xc_data::Text;
use xc_edge::{Failed, Sink};

/// A text in memory that grows. A write for which there is no memory fails.
#[derive(Drop)]
pub(crate) struct Growing {
    bytes: Vec<u8>,
    faults: u64,
}

impl Growing {
    /// No text. It takes no memory.
    pub(crate) fn new(alloc: Global) -> Growing
        ensures { result.bytes.items ≡ [] }
    {
        Growing {
            bytes: Vec::new(alloc),
            faults: 0,
        }
    }

    /// The whole text, without a copy.
    pub(crate) fn into_text(self) -> Text
        ensures { result ≡ self.bytes.items }
    {
        Text::from_vec(self.bytes)
    }
}

impl Sink for Growing {
    ghost told = { λ out. record { bytes = Some out.bytes.items; faults = out.faults } };

    fn faults(&self) -> u64 {
        self.faults
    }

    fn write(&mut self, piece: &[u8]) -> Result<usize, Failed> {
        let Ok(()) = self.bytes.reserve(piece.len()) else {
            self.faults = self.faults.saturating_add(1);
            return Err(Failed);
        };
        self.bytes.extend_from_slice(piece).unwrap();
        Ok(piece.len())
    }
}
