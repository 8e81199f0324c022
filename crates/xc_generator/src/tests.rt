use crate::{generate, summary};
use std::test::Fail;

// What the text of seed 7 has from its byte 831 on, as another program computed it from the format.
const FIRST_TRANSFERS: &[u8] = b"file log\n\
job g1\n\
tx\n\
load 30 -> x\n\
abort if x < 4\n\
store 30 x - 4\n\
load 63 -> y\n\
store 63 y + 4\n\
x_open log -> f\n\
x_write_seq f \"4\\n\"\n\
x_close f\n\
commit\n\
tx\n\
load 17 -> x\n\
abort if x < 10\n\
store 17 x - 10\n\
load 41 -> y\n\
store 41 y + 10\n\
x_open log -> f\n\
x_write_seq f \"10\\n\"\n\
x_close f\n\
commit\n";

// What it ends with, by the last of its 1,500 draws.
const LAST_TRANSFER: &[u8] = b"commit\n\
tx\n\
load 38 -> x\n\
abort if x < 8\n\
store 38 x - 8\n\
load 27 -> y\n\
store 27 y + 8\n\
x_open log -> f\n\
x_write_seq f \"8\\n\"\n\
x_close f\n\
commit\n\
end\n";

#[test]
fn a_seed_has_its_script(rt: HostRuntime) -> Result<(), Fail> {
    let text = generate(rt.alloc(), 7)?;
    let bytes = text.as_slice();
    assert_eq!(rt; bytes.len(), 64491);
    assert!(rt; bytes.starts_with(b"words 64\nword 0 1000\nword 1 1000\n"));
    assert!(rt;
        bytes
            .get(831..)
            .is_some_and(|rest| rest.starts_with(FIRST_TRANSFERS))
    );
    assert!(rt; bytes.ends_with(LAST_TRANSFER));
    Ok(())
}

#[test]
fn a_sum_may_be_more_than_a_word_holds(rt: HostRuntime) -> Result<(), Fail> {
    let text = summary(rt.alloc(), &[], &[u64::MAX, 5], 7)?;
    let line =
        "seed 7: 0 committed, 0 aborted, 0 faults, 0 remains, words sum 18446744073709551620\n";
    assert!(rt; text.as_slice() == line.as_bytes());
    Ok(())
}
