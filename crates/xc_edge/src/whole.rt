ghost use Rattle.std.specs.Prelude.{◌≤◌, ◌<◌, IfOk, OnOk, OnErr, IsErrOf, length, take};
ghost use Rattle.std.specs.Io.KnownBytes.{Appends};
ghost use Rattle.xc_edge.specs.Counts.{HasCause};
ghost use Rattle.xc_edge.specs.Streams.{Came, ConsumesUpTo, AppendsPart, AppendsWhole};
ghost use Rattle.xc_edge.specs.View.{HasFailed};

use crate::{Failed, Sink, Source};
use std::alloc::{AllocError, Global};
use thiserror::Error;

// How many bytes one read asks for.
const BUFFER: usize = 16 * 1024;

/// Why a source wasn't read.
#[derive(Clone, Copy, Debug, PartialEq, Eq, Error)]
pub enum ReadErr {
    #[error("a read failed")]
    Failed,
    #[error("no memory")]
    NoMemory,
}

impl From<Failed> for ReadErr {
    ghost use Rattle.std.specs.Prelude.{◌≡◌};
    ghost use Rattle.xc_edge.specs.declared.whole.ReadErr.TheVariants.{Failed};

    ghost from_gives = { λ _ e. e ≡ Failed };

    fn from(_: crate::Failed) -> Self {
        ReadErr::Failed
    }
}

impl From<AllocError> for ReadErr {
    ghost use Rattle.std.specs.Prelude.{◌≡◌};
    ghost use Rattle.xc_edge.specs.declared.whole.ReadErr.TheVariants.{NoMemory};

    ghost from_gives = { λ _ e. e ≡ NoMemory };

    fn from(_: AllocError) -> Self {
        ReadErr::NoMemory
    }
}

/// Reads a source to its end, or until `limit` bytes came. What came before an error is lost.
pub fn read_up_to<S: Source>(
    alloc: Global,
    source: &mut S,
    limit: usize,
) -> Result<Vec<u8>, ReadErr>
    ensures came { IfOk result (λ bytes. Came limit (S.told source.old) (S.told source.new) bytes.items) }
    ensures lost { OnErr result (ConsumesUpTo limit (S.told source.old) (S.told source.new)) }
    ensures later { (S.told source.old).faults ≤ (S.told source.new).faults }
    ensures cause { IsErrOf result ReadErr.Failed → HasFailed (S.told source.old) (S.told source.new) }
{
    let mut bytes = Vec::new(alloc);
    let mut buffer = [0; BUFFER];
    while bytes.len() < limit {
        let room = (limit - bytes.len()).min(BUFFER);
        let count = source.read(&mut buffer[..room])?;
        if count == 0 {
            return Ok(bytes);
        }
        bytes.extend_from_slice(&buffer[..count])?;
    }
    Ok(bytes)
}

/// Writes a front of a text: all of it, unless a write fails. It answers how many bytes were taken.
pub fn write_front<K: Sink>(sink: &mut K, text: &[u8]) -> usize
    ensures most { result ≤ length text.now }
    ensures front { Appends (K.told sink.old).bytes (K.told sink.new).bytes (take result text.now) }
    ensures later { (K.told sink.old).faults ≤ (K.told sink.new).faults }
    ensures short { result < length text.now → HasFailed (K.told sink.old) (K.told sink.new) }
{
    let mut done = 0;
    while done < text.len() {
        match sink.write(&text[done..]) {
            Ok(count) => done += count,
            Err(_) => return done,
        }
    }
    done
}

/// Writes a whole text, in as many writes as it takes.
pub fn write_whole<K: Sink>(sink: &mut K, text: &[u8]) -> Result<(), Failed>
    ensures whole { OnOk result (AppendsWhole (K.told sink.old) (K.told sink.new) text.now) }
    ensures part { OnErr result (AppendsPart (K.told sink.old) (K.told sink.new) text.now) }
    ensures cause { HasCause (K.told sink.old) (K.told sink.new) result }
{
    if write_front(sink, text) < text.len() {
        return Err(Failed);
    }
    Ok(())
}
