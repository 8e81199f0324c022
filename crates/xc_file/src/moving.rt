ghost use Rattle.std.specs.Prelude.{◌≡◌, ◌<◌, ◌+◌, ◌^◌};
ghost use Rattle.xc_file.specs.Writing.{moved_on};

use crate::checks::OpenFile;
use xc_data::{Place, Private};

/// The position of an open file is after what was done.
pub(crate) fn move_on(me: &mut Private, file: OpenFile, done: u32)
    requires open { file.h < 256 }
    requires room { file.at + done < 2 ^ 32 }
    ensures { me.new ≡ moved_on me.old file.h file.num file.at done }
{
    if done > 0 {
        let OpenFile { h, num, at } = file;
        me.set_place(h, Place::File { num, at: at + done });
    }
}
