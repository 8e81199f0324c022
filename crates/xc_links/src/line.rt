ghost use Rattle.std.specs.Prelude.{◌≡◌, length, IfOk, OnErr};
ghost use Rattle.std.specs.Io.KnownBytes.{Keeps};
ghost use Rattle.xc_edge.specs.Counts.{HasCause};
ghost use Rattle.xc_links.specs.Lines.{IsByte, IsCut, IsWireLine};
ghost use Rattle.xc_links.specs.Wires.{giving};

use crate::Duplex;
use xc_edge::Failed;

/// The most bytes of a line, and one more.
pub const LINE_BYTES: usize = 65;

/// A line that was read into a buffer.
#[derive(Debug, Drop, PartialEq)]
pub enum WireLine {
    /// This many bytes, and then its end.
    Whole(usize),
    /// 65 bytes without an end.
    TooLong,
    /// This many bytes without an end, and no more come.
    Rest(usize),
}

// One byte; `None` at the end of input.
fn read_byte<L: Duplex>(link: &mut L) -> Result<Option<u8>, Failed>
    ensures came { IfOk result (IsByte (L.told link.old) (L.told link.new)) }
    ensures still { OnErr result (Keeps (L.told link.old).left (L.told link.new).left) }
    ensures other { Keeps (L.told link.old).taken (L.told link.new).taken }
    ensures cause { HasCause (giving (L.told link.old)) (giving (L.told link.new)) result }
{
    let mut byte = [0u8; 1];
    if link.read(&mut byte)? == 0 {
        return Ok(None);
    }
    Ok(Some(byte[0]))
}

/// Reads a line, a byte at a time, so that what comes behind it is left.
pub fn read_line<L: Duplex>(link: &mut L, buffer: &mut [u8; 65]) -> Result<WireLine, Failed>
    ensures line { IfOk result (IsWireLine (L.told link.old) (L.told link.new) buffer.new) }
    ensures cut { OnErr result (IsCut (L.told link.old) (L.told link.new)) }
    ensures other { Keeps (L.told link.old).taken (L.told link.new).taken }
    ensures cause { HasCause (giving (L.told link.old)) (giving (L.told link.new)) result }
{
    let mut at: usize = 0;
    while at < LINE_BYTES {
        let Some(byte) = read_byte(link)? else {
            return Ok(WireLine::Rest(at));
        };
        if byte == b'\n' {
            return Ok(WireLine::Whole(at));
        }
        buffer[at] = byte;
        at += 1;
    }
    Ok(WireLine::TooLong)
}
