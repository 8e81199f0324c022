ghost use Rattle.std.specs.Prelude.{◌≡◌, ◌+◌};
ghost use Rattle.xcalls_picture.specs.Statuses.{IsDrawn, IsRefusalSaid, refusal_text};
ghost use Rattle.xcalls_picture.specs.declared.status.PictureStatus.TheVariants as status;

use crate::status::PictureStatus;
use std::alloc::Global;
use xc_edge::{ReadErr, Sink, Source, read_up_to, write_whole};
use xc_picture::{Unpictured, picture_of};
use xc_sheet::MOST_TEXT_BYTES;

// What is written where there is no picture.
fn refusal(meant: PictureStatus) -> &'static str
    ensures { result.now ≡ refusal_text meant }
{
    match meant {
        PictureStatus::Refused => "this is no journal, or one of more than 67,108,864 bytes\n",
        PictureStatus::Usage => "usage: xcalls_picture\n",
        PictureStatus::ReadFault => "read fault\n",
        PictureStatus::NoMemory => "no memory\n",
        PictureStatus::Drawn | PictureStatus::WriteFault => "",
    }
}

// Says why there is no picture. With a sink that fails the status is another than was meant.
fn refuse<K: Sink>(sink: &mut K, meant: PictureStatus) -> PictureStatus
    ensures said { IsRefusalSaid meant result (K.told sink.old) (K.told sink.new) }
    ensures undrawn { result ≡ status.Drawn → meant ≡ status.Drawn }
{
    match write_whole(sink, refusal(meant).as_bytes()) {
        Ok(()) => meant,
        Err(_) => PictureStatus::WriteFault,
    }
}

/// Refuses a command line with a word.
pub fn refuse_words<K: Sink>(sink: &mut K) -> PictureStatus
    ensures { IsRefusalSaid status.Usage result (K.told sink.old) (K.told sink.new) }
{
    refuse(sink, PictureStatus::Usage)
}

fn status_of(why: Unpictured) -> PictureStatus
    ensures { result ≡ status.Drawn → ⊥ }
{
    match why {
        Unpictured::TooLong | Unpictured::Unread => PictureStatus::Refused,
        Unpictured::NoMemory => PictureStatus::NoMemory,
    }
}

fn read_status(why: ReadErr) -> PictureStatus
    ensures { result ≡ status.Drawn → ⊥ }
{
    match why {
        ReadErr::Failed => PictureStatus::ReadFault,
        ReadErr::NoMemory => PictureStatus::NoMemory,
    }
}

/// Reads a journal, and writes its picture.
pub fn draw<S: Source, K: Sink>(alloc: Global, source: &mut S, sink: &mut K) -> PictureStatus
    ensures drawn { result ≡ status.Drawn → IsDrawn (S.told source.old) (S.told source.new) (K.told sink.old) (K.told sink.new) }
{
    let bytes = match read_up_to(alloc, source, MOST_TEXT_BYTES + 1) {
        Ok(bytes) => bytes,
        Err(why) => return refuse(sink, read_status(why)),
    };
    let text = match picture_of(alloc, bytes.as_slice()) {
        Ok(text) => text,
        Err(why) => return refuse(sink, status_of(why)),
    };
    match write_whole(sink, text.as_slice()) {
        Ok(()) => PictureStatus::Drawn,
        Err(_) => PictureStatus::WriteFault,
    }
}
