ghost use Rattle.std.specs.Prelude.{◌≡◌, ◌<◌, ◌≤◌, ◌+◌, ◌^◌, true, false, length, take, cond, IsTrue};
ghost use Rattle.xc_data.specs.Counts.{CountsFault};
ghost use Rattle.xc_data.specs.declared.script.HostCallKind.TheVariants.{WriteAt};
ghost use Rattle.xc_file.specs.Passing.{IsFileThere};
ghost use Rattle.xc_host.specs.Contents.{file_in, wrote_front};
ghost use Rattle.xc_host.specs.Uses.{Uses, MovesBy};

use xc_data::Num;
use xc_host::{Host, a_front_grows, a_write_keeps_the_length};

/// How many bytes are done, and whether a fault stopped the write there.
#[derive(Clone, Copy)]
pub(crate) struct Written {
    pub(crate) done: u32,
    pub(crate) fault: bool,
}

/// Writes until all is written or a write fails.
pub(crate) fn write_whole<H: Host>(host: &mut H, file: Num, at: u32, bytes: &[u8]) -> Written
    requires room { at + length bytes.now < 2 ^ 32 }
    requires there { IsFileThere H.model host.old file }
    requires inside { IsTrue H.model.tells → at + length bytes.now ≤ length (file_in (H.model.contents host.old) file) }
    ensures whole { result.fault ≡ false → result.done ≡ length bytes.now }
    ensures short { result.fault ≡ true → result.done < length bytes.now }
    ensures uses { Uses H.model (record { old = host.old; new = host.new }) (MovesBy WriteAt result.done (cond result.fault 1 0)) }
    ensures contents { IsTrue H.model.tells
        → H.model.contents host.new ≡ wrote_front (H.model.contents host.old) file at (take result.done bytes.now) }
    ensures cause { CountsFault result.fault (H.model.fault_count host.old) (H.model.fault_count host.new) }
{
    a_front_grows();
    a_write_keeps_the_length();
    let mut done: u32 = 0;
    while (done as usize) < bytes.len() {
        match host.write_at(file, at + done, &bytes[done as usize..]) {
            Ok(count) => done += count,
            Err(_) => return Written { done, fault: true },
        }
    }
    Written { done, fault: false }
}
