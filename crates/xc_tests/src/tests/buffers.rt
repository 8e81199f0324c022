use std::alloc::Global;
use std::test::Fail;
use xc_buffers::{Kept, Taken};
use xc_data::{Chunk, KeptItem, NoMemory, Num, Object};

const PIPE: Num = Num { tx: 0, k: 0 };

// A pipe after it, and a pair.
const OTHER: Num = Num { tx: 3, k: 1 };

// What is kept of two pipes and of a side of a pair: given back in this order, each in front.
fn kept(alloc: Global) -> Result<Kept, NoMemory> {
    let mut kept = Kept::new(alloc);
    kept.reserve(6)?;
    for (pipe, bytes) in [(OTHER, b"other"), (PIPE, b"there"), (PIPE, b"hello")] {
        if kept.spare() >= 2 {
            kept.give_back(pipe, Chunk::new(alloc, bytes)?);
        }
    }
    if kept.spare() >= 1 {
        kept.give_msg(OTHER, 1, Chunk::new(alloc, b"")?);
    }
    Ok(kept)
}

fn is_chunk(found: &Option<Chunk>, wanted: &[u8]) -> bool {
    match found {
        Some(bytes) => bytes.as_slice() == wanted,
        None => false,
    }
}

#[test]
fn what_is_kept_is_taken_in_order(rt: HostRuntime) -> Result<(), Fail> {
    let mut kept = kept(rt.alloc())?;
    assert_eq!(rt; kept.held(&Object::Pipe(PIPE), 0), 10);
    assert_eq!(rt; kept.held(&Object::Pair(OTHER), 1), 1);
    assert_eq!(rt; kept.held(&Object::Pair(OTHER), 0), 0);
    assert!(rt; is_chunk(&kept.take_front(PIPE, 2)?, b"he"));
    assert!(rt; is_chunk(&kept.take_front(PIPE, 9)?, b"llo"));
    assert_eq!(rt; kept.held(&Object::Pipe(PIPE), 0), 5);
    assert!(rt; is_chunk(&kept.take_front(OTHER, 9)?, b"other"));
    assert!(rt; kept.take_front(OTHER, 9)?.is_none());
    assert!(rt; is_chunk(&kept.take_msg(OTHER, 1), b""));
    assert!(rt; kept.take_msg(OTHER, 1).is_none());
    Ok(())
}

#[test]
fn what_is_kept_is_listed(rt: HostRuntime) -> Result<(), Fail> {
    let items = kept(rt.alloc())?.into_items();
    let mut text = String::new(rt.alloc());
    for item in items.as_slice() {
        match item {
            KeptItem::Bytes { pipe, .. } => text.push_str(if *pipe == PIPE { "p" } else { "o" })?,
            KeptItem::Message { .. } => text.push_str("m")?,
        }
    }
    assert_eq!(rt; text.as_str(), "ppom");
    Ok(())
}

fn noted(taken: &mut Taken, bytes: Chunk) -> Result<(), NoMemory> {
    taken.reserve()?;
    if !bytes.is_empty() {
        taken.note(KeptItem::Bytes { pipe: PIPE, bytes });
    }
    Ok(())
}

#[test]
fn all_is_given_back_in_the_old_order(rt: HostRuntime) -> Result<(), Fail> {
    let mut taken = Taken::new(rt.alloc());
    noted(&mut taken, Chunk::new(rt.alloc(), b"one")?)?;
    noted(&mut taken, Chunk::new(rt.alloc(), b"two")?)?;
    assert_eq!(rt; taken.count(), 2);
    let mut kept = kept(rt.alloc())?;
    kept.reserve(2)?;
    taken.give_all(&mut kept);
    assert_eq!(rt; taken.count(), 0);
    assert!(rt; is_chunk(&kept.take_front(PIPE, 9)?, b"one"));
    assert!(rt; is_chunk(&kept.take_front(PIPE, 9)?, b"two"));
    assert!(rt; is_chunk(&kept.take_front(PIPE, 9)?, b"hello"));
    Ok(())
}

// What was taken before the mark stays noted.
#[test]
fn what_was_taken_above_a_mark_is_given_back(rt: HostRuntime) -> Result<(), Fail> {
    let mut taken = Taken::new(rt.alloc());
    noted(&mut taken, Chunk::new(rt.alloc(), b"one")?)?;
    assert_eq!(rt; taken.mark(), 1);
    noted(&mut taken, Chunk::new(rt.alloc(), b"two")?)?;
    noted(&mut taken, Chunk::new(rt.alloc(), b"six")?)?;
    assert_eq!(rt; taken.count(), 3);
    let mut kept = kept(rt.alloc())?;
    kept.reserve(2)?;
    taken.give_to(&mut kept, 1);
    assert_eq!(rt; taken.count(), 1);
    assert!(rt; is_chunk(&kept.take_front(PIPE, 9)?, b"two"));
    assert!(rt; is_chunk(&kept.take_front(PIPE, 9)?, b"six"));
    assert!(rt; is_chunk(&kept.take_front(PIPE, 9)?, b"hello"));
    Ok(())
}
