use crate::{Ending, read_sheet};
use std::alloc::Global;
use std::test::Fail;

// A block that goes back, and the commit that it is in.
const BLOCK: &[u8] = b"commit t1 job 1 rank 1 began 0\n  x_open a = h0\n  save = done\n  \
x_write_ovr h0 \"HE\" = done\n  store 0 7 = done\n  x_unlink a = late\n  back = done faults 0\n  \
x_read h0 5 = \"hello\"\n  late 1 = done\n  held name a, file 0.0, word 0\njob 1 main done\n\
word 3 8\nkept pipe 0.1 \"a\\x00\"\ntotal 1 committed, 0 aborted, 0 faults, 0 remains\n";

// Its beginning, cut in a line.
const CUT: &[u8] = b"commit t1 job 1 rank 1 began 0\n  x_open a = h0\n  save = do";

// An abort by a way back that failed, with a compensation in another's place.
const STUCK: &[u8] = b"abort t1 job 1 rank 1 began 0 stuck undo 1\n  \
undo 2 made done faults 0\n  undo 2 bytes failed restored 0 faults 1\n";

// How many lines were read of a text, and how that ended.
fn read(alloc: Global, text: &[u8]) -> Option<(usize, Ending)> {
    match read_sheet(alloc, text) {
        Ok(sheet) => Some((sheet.lines.len(), sheet.ending)),
        Err(_) => None,
    }
}

#[test]
fn a_text_is_read_to_its_end(rt: HostRuntime) -> Result<(), Fail> {
    assert!(rt; read(rt.alloc(), BLOCK) == Some((14, Ending::Whole)));
    Ok(())
}

#[test]
fn a_text_is_read_to_its_first_wrong_line(rt: HostRuntime) -> Result<(), Fail> {
    let alloc = rt.alloc();
    assert!(rt; read(alloc, b"") == Some((0, Ending::Broken { line: 1 })));
    assert!(rt; read(alloc, CUT) == Some((2, Ending::Broken { line: 3 })));
    assert!(rt; read(alloc, STUCK) == Some((2, Ending::Broken { line: 3 })));
    Ok(())
}
