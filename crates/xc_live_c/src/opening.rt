ghost use Rattle.std.specs.Prelude.{◌≡◌};
ghost use Rattle.xc_live_c.specs.Opened.{IsOpenedInC};

use crate::clients::Clients;
use crate::codes::{NO_MEMORY, OK, OPEN};
use crate::handle::DeskHandle;
use std::alloc::Global;

// Opens a desk, where it is closed. `line` is the first bad line of a text that is refused, or 0.
pub(crate) fn opened(
    alloc: Global,
    desk: &mut DeskHandle,
    words: u32,
    clients: u32,
    attempts: u32,
    prologue: &[u8],
    line: &mut u32,
) -> i32
    ensures { IsOpenedInC (record { prologue = prologue.now; words = words; clients = clients; attempts = attempts })
        desk.old.value desk.new.value result line.new }
{
    *line = 0;
    if let Some(open) = desk.take(alloc) {
        desk.put(alloc, open);
        return OPEN;
    }
    let opened = match Clients::open(alloc, prologue, words, clients, attempts) {
        Ok(opened) => opened,
        Err(no) => {
            *line = no.line;
            return no.code;
        }
    };
    match Box::new(alloc, opened) {
        Ok(new) => {
            desk.put(alloc, new);
            OK
        }
        Err(_) => NO_MEMORY,
    }
}
