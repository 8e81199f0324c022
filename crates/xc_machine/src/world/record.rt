ghost use Rattle.std.specs.Prelude.{◌≡◌, ◌≤◌, [], ◌∷◌, ℕ, length, take, drop, IfOk, MatchOption};
ghost use Rattle.xc_data.specs.Private.{place_of};
ghost use Rattle.xc_data.specs.declared.object.Num.{Num as PlainNum};
ghost use Rattle.xc_world.specs.Act.Names.{next_num};
ghost use Rattle.xc_world.specs.Sound.{IsSound};
ghost use Rattle.xc_world.specs.World.{file_of};
ghost use Rattle.xc_world.specs.Trail.{append_record, done_of, overwrite_record, recorded};

use super::World;
use super::parts::{behind, front};
use xc_data::{Call, Chunk, NoMemory, Num, Place, Private, Reply, Undo};

// How many bytes a write with this reply did. No call carries as many as don't fit: more are lack of memory.
fn done_of(bytes: &Chunk, reply: &Reply) -> Result<u32, NoMemory>
    ensures { IfOk result (λ n. n ≡ done_of (length bytes.now) reply.now) }
{
    match reply {
        Reply::Done if bytes.len() <= u32::MAX as usize => Ok(bytes.len() as u32),
        Reply::Done => Err(NoMemory),
        Reply::Fault(n) => Ok(*n),
        // With any other reply nothing was done, also with one yet to come.
        _ => Ok(0),
    }
}

fn next_num(me: &Private, tx: u32) -> Num
    ensures { result ≡ next_num me.now tx }
{
    Num { tx, k: me.made }
}

impl World {
    // An overwrite that did `n` bytes.
    fn overwrite_record(
        &self,
        bytes: &Chunk,
        n: u32,
        place: Place,
    ) -> Result<Option<Undo>, NoMemory>
        ensures { IfOk result (λ found. MatchOption found (overwrite_record self.now bytes.now n place ≡ [])
            (λ undo. overwrite_record self.now bytes.now n place ≡ undo ∷ [])) }
    {
        let Place::File { num, at } = place else {
            return Ok(None);
        };
        if n == 0 {
            return Ok(None);
        }
        let file = self.file(num)?;
        let under = front(behind(file.as_slice(), at as usize), bytes.len());
        let before = Chunk::new(self.alloc, under)?;
        let after = bytes.share()?;
        Ok(Some(Undo::Overwrite {
            file: num,
            at,
            before,
            after,
            n,
        }))
    }

    // An append that did `n` bytes.
    fn append_record(&self, bytes: &Chunk, n: u32, place: Place) -> Result<Option<Undo>, NoMemory>
        requires fit { (num : PlainNum) → length (file_of self.now num) ≤ 65536 }
        ensures { IfOk result (λ found. MatchOption found (append_record self.now bytes.now n place ≡ [])
            (λ undo. append_record self.now bytes.now n place ≡ undo ∷ [])) }
    {
        let Place::File { num, .. } = place else {
            return Ok(None);
        };
        if n == 0 {
            return Ok(None);
        }
        let from = self.file_len(num) as u32;
        let after = bytes.share()?;
        Ok(Some(Undo::Append {
            file: num,
            from,
            after,
            n,
        }))
    }

    /// The record that a call with this reply leaves, in the world before it.
    pub fn record_of(
        &self,
        me: &Private,
        tx: u32,
        call: &Call,
        reply: &Reply,
    ) -> Result<Option<Undo>, NoMemory>
        requires sound { IsSound self.now me.now tx }
        ensures { IfOk result (λ found. MatchOption found (recorded self.now me.now tx call.now reply.now ≡ [])
            (λ undo. recorded self.now me.now tx call.now reply.now ≡ undo ∷ [])) }
    {
        match (call, reply) {
            (Call::XWriteOvr { h, bytes }, _) => {
                self.overwrite_record(bytes, done_of(bytes, reply)?, me.place(*h))
            }
            (Call::XWriteSeq { h, bytes }, _) => {
                self.append_record(bytes, done_of(bytes, reply)?, me.place(*h))
            }
            (Call::XCreate { name }, Reply::Made(_)) => Ok(Some(Undo::Create {
                name: name.again(),
                num: next_num(me, tx),
            })),
            (Call::XRename { from, to }, Reply::Done) => Ok(Some(Undo::Rename {
                from: from.again(),
                to: to.again(),
            })),
            (Call::XPipe, Reply::Made(_)) => Ok(Some(Undo::NewPipe(next_num(me, tx)))),
            (Call::XPair, Reply::MadePair(..)) => Ok(Some(Undo::NewPair(next_num(me, tx)))),
            // With any other reply nothing was done, and no other call leaves a record.
            _ => Ok(None),
        }
    }
}
