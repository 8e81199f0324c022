ghost use Rattle.std.specs.Prelude.{◌≡◌};
ghost use Rattle.xc_outcome.specs.Due.{due_bytes};
ghost use Rattle.xc_outcome.specs.Said.{IsWritten};

use crate::Status;
use xc_data::Text;
use xc_edge::{Sink, write_whole};

const READ_FAULT: &str = "read fault\n";

const NO_MEMORY: &str = "no memory\n";

const NOT_SCRIPTED: &str = "not scripted\n";

/// What is to be written.
#[derive(Drop)]
pub enum Due {
    /// A program's line on its words.
    Usage(&'static str),
    ReadFault,
    NoMemory,
    NotScripted,
    Line(String),
    Whole(Text),
}

impl Due {
    fn as_bytes(&self) -> &[u8]
        ensures { result.now ≡ due_bytes self.now }
    {
        match self {
            Due::Usage(line) => line.as_bytes(),
            Due::ReadFault => READ_FAULT.as_bytes(),
            Due::NoMemory => NO_MEMORY.as_bytes(),
            Due::NotScripted => NOT_SCRIPTED.as_bytes(),
            Due::Line(line) => line.as_bytes(),
            Due::Whole(text) => text.as_slice(),
        }
    }
}

/// Writes what is due. With a sink that fails the status is another than was meant.
pub fn write_due<K: Sink>(sink: &mut K, meant: Status, due: &Due) -> Status
    ensures { IsWritten meant result (due_bytes due.now) (K.told sink.old) (K.told sink.new) }
{
    match write_whole(sink, due.as_bytes()) {
        Ok(()) => meant,
        Err(_) => Status::WriteFault,
    }
}
