ghost use Rattle.std.specs.Prelude.{◌≡◌, ◌⊎◌, ◌<◌, ◌≤◌, ◌+◌, ◌^◌, ◌++◌, ◌∷◌, [], ℕ, true, false, List, All, length, take, drop, Contains};
ghost use Rattle.std.specs.Prelude.{IfOk, Ok, OnOk, OnErr, IsTrue, None};
ghost use Rattle.xc_buffers.specs.Items.{AreKept, is_fit};
ghost use Rattle.xc_compensate.specs.Records.{Records};
ghost use Rattle.xc_data.specs.Calls.{is_late};
ghost use Rattle.xc_data.specs.declared.call.Call.TheVariants.{XReadPipe, XRecvmsg};
ghost use Rattle.xc_data.specs.declared.entry.KeptItem.{KeptItem};
ghost use Rattle.xc_calls.specs.Calls.{IsHostCall};
ghost use Rattle.xc_host.specs.Fronted.{before, fronted};
ghost use Rattle.xc_host.specs.Kept.{KeepsData, with_kept};
ghost use Rattle.xc_calls.specs.Taking.{Notes, HasTaken};
ghost use Rattle.xc_world.specs.Checks.{refusal_of};
ghost use Rattle.xc_world.specs.Run.{given_back, gives};
ghost use Rattle.xc_world.specs.World.{World};
ghost use Rattle.xc_station.specs.Acting.{IsSidedFor, IsSourceIn, StopsTaking};
ghost use Rattle.xc_station.specs.Lent.{StaysBacked};

use std::alloc::Global;
use std::marker::Model;
use xc_buffers::{Kept, Taken};
use xc_data::{KeptList, NoMemory, Private, Reply};
use xc_host::Host;
use xc_pipe::x_read_pipe;
use xc_socket::x_recvmsg;

/// What aborted transactions gave back to pipes and pairs, with room for all that active ones have taken, and two more.
#[derive(Drop)]
pub struct Buffers {
    kept: Kept,
    // How many notes active transactions have of what they took.
    noted: u32,
}

impl Model for Buffers {
    ghost use Rattle.std.specs.Prelude.{◌≤◌, ◌+◌};
    ghost use Rattle.xc_buffers.specs.Items.{AreKept};
    ghost use Rattle.xc_station.specs.Lent.{Lent};

    ghost Value = { Lent };

    ghost view = { λ b. record { kept = b.kept.items; noted = b.noted } };

    ghost invariant = { λ b. (b.noted + 2 ≤ b.kept.spare) × AreKept b.kept.items };
}

// Room to give back `noted` notes and what one call more takes, as two pieces, and two more.
fn make_room(kept: &mut Kept, noted: u32) -> Result<(), NoMemory>
    ensures room { OnOk result (noted + 4 ≤ kept.new.spare) }
    ensures counted { OnOk result (noted + 4 < 2 ^ 32) }
    ensures items { kept.new.items ≡ kept.old.items }
    ensures spare { kept.old.spare ≤ kept.new.spare }
{
    if noted > u32::MAX - 4 {
        return Err(NoMemory);
    }
    kept.reserve(noted + 4)
}

impl Buffers {
    /// Nothing is kept, and nothing is taken.
    pub fn new(alloc: Global) -> Result<Buffers, NoMemory>
        ensures { IfOk result (λ buffers. buffers ≡ record { kept = []; noted = 0 }) }
    {
        let mut kept = Kept::new(alloc);
        kept.reserve(2)?;
        Ok(Buffers { kept, noted: 0 })
    }

    /// Reads from an open pipe, what is kept first, with room to give back what is read. It answers `NoMemory` too
    /// where more would be noted than can be counted.
    pub fn read_pipe<H: Host>(
        &mut self,
        alloc: Global,
        host: &mut H,
        taken: &mut Taken,
        me: &mut Private,
        h: u16,
        n: u64,
    ) -> Result<Reply, NoMemory>
        requires stored { me.old.stored ≤ 16384 }
        requires noted { length taken.old.items ≤ self.old.noted }
        requires there { IsTrue H.model.tells → refusal_of (XReadPipe h n) me.old ≡ None
            → IsSourceIn (H.model.contents host.old) me.old (XReadPipe h n) }
        ensures call { (number : ℕ) (undo : Records) → IfOk result (λ reply. IsHostCall (fronted H.model) (XReadPipe h n)
            (record { host = before host.old self.old.kept; number = number; me = me.old; undo = undo })
            (record { host = before host.new self.new.kept; number = number; me = me.new; undo = undo }) (Ok reply)) }
        ensures stops { OnErr result
            (StopsTaking H.model (XReadPipe h n) (record { old = host.old; new = host.new }) (record { old = me.old; new = me.new })) }
        ensures err { IsTrue H.model.tells → OnErr result
            (with_kept (H.model.contents host.new) self.new.kept ≡ with_kept (H.model.contents host.old) self.old.kept) }
        ensures notes { Notes (XReadPipe h n) me.old (record { old = taken.old.items; new = taken.new.items }) result }
        ensures kept { HasTaken (XReadPipe h n) me.old (record { old = self.old.kept; new = self.new.kept }) result }
        ensures noted { self.new.noted + length taken.old.items ≡ self.old.noted + length taken.new.items }
        ensures backs { IsTrue H.model.tells → StaysBacked (H.model.contents host.old) self.old.kept self.new.kept }
        ensures fit_taken { IfOk result (λ reply. All (λ t. is_fit t ≡ true) taken.new.items) }
        ensures stored { me.new.stored ≤ 16384 }
        ensures now { IfOk result (λ reply. is_late reply ≡ false) }
        ensures keeps { IsTrue H.model.tells → KeepsData (H.model.contents host.old) (H.model.contents host.new) }
    {
        make_room(&mut self.kept, self.noted)?;
        let before = taken.count();
        let reply = x_read_pipe(alloc, host, &mut self.kept, taken, me, h, n)?;
        self.noted += taken.count() - before;
        Ok(reply)
    }

    /// Receives the first message for a side of a pair, what is kept first, with room to give it back. It is out of
    /// memory also where more is noted than can be counted.
    pub fn receive<H: Host>(
        &mut self,
        host: &mut H,
        taken: &mut Taken,
        me: &mut Private,
        h: u16,
    ) -> Result<Reply, NoMemory>
        requires stored { me.old.stored ≤ 16384 }
        requires noted { length taken.old.items ≤ self.old.noted }
        requires sided { IsSidedFor me.old (XRecvmsg h) }
        requires there { IsTrue H.model.tells → refusal_of (XRecvmsg h) me.old ≡ None
            → IsSourceIn (H.model.contents host.old) me.old (XRecvmsg h) }
        ensures call { (number : ℕ) (undo : Records) → IfOk result (λ reply. IsHostCall (fronted H.model) (XRecvmsg h)
            (record { host = before host.old self.old.kept; number = number; me = me.old; undo = undo })
            (record { host = before host.new self.new.kept; number = number; me = me.new; undo = undo }) (Ok reply)) }
        ensures stops { OnErr result
            (StopsTaking H.model (XRecvmsg h) (record { old = host.old; new = host.new }) (record { old = me.old; new = me.new })) }
        ensures err { IsTrue H.model.tells → OnErr result
            (with_kept (H.model.contents host.new) self.new.kept ≡ with_kept (H.model.contents host.old) self.old.kept) }
        ensures notes { Notes (XRecvmsg h) me.old (record { old = taken.old.items; new = taken.new.items }) result }
        ensures kept { HasTaken (XRecvmsg h) me.old (record { old = self.old.kept; new = self.new.kept }) result }
        ensures noted { self.new.noted + length taken.old.items ≡ self.old.noted + length taken.new.items }
        ensures backs { IsTrue H.model.tells → StaysBacked (H.model.contents host.old) self.old.kept self.new.kept }
        ensures fit_taken { IfOk result (λ reply. All (λ t. is_fit t ≡ true) taken.new.items) }
        ensures stored { me.new.stored ≤ 16384 }
        ensures now { IfOk result (λ reply. is_late reply ≡ false) }
        ensures keeps { IsTrue H.model.tells → KeepsData (H.model.contents host.old) (H.model.contents host.new) }
    {
        make_room(&mut self.kept, self.noted)?;
        let before = taken.count();
        let reply = x_recvmsg(host, &mut self.kept, taken, me, h)?;
        self.noted += taken.count() - before;
        Ok(reply)
    }

    /// What the last call of a transaction took is in front again. It takes no memory.
    pub fn give_last(&mut self, taken: &mut Taken)
        requires noted { 1 ≤ self.old.noted }
        ensures given { (notes : List KeptItem) (last : KeptItem) → taken.old.items ≡ notes ++ last ∷ [] → (taken.new.items ≡ notes)
            × ((w : World) → given_back w self.new.kept ≡ gives (given_back w self.old.kept) last) }
        ensures among { (notes : List KeptItem) (last : KeptItem) → taken.old.items ≡ notes ++ last ∷ []
            → (item : KeptItem) → Contains self.new.kept item → (item ≡ last) ⊎ Contains self.old.kept item }
        ensures noted { self.new.noted + 1 ≡ self.old.noted }
    {
        taken.give_last(&mut self.kept);
        self.noted -= 1;
    }

    /// What a transaction has taken behind its first `mark` notes is in front again of what is there. It takes no memory.
    pub fn give_to(&mut self, taken: &mut Taken, mark: u32)
        requires { length taken.old.items ≤ self.old.noted }
        ensures given { (w : World) → given_back w self.new.kept ≡ given_back (given_back w self.old.kept) (drop mark taken.old.items) }
        ensures among { (item : KeptItem) → Contains self.new.kept item
            → Contains (drop mark taken.old.items) item ⊎ Contains self.old.kept item }
        ensures noted { self.new.noted + length taken.old.items ≡ self.old.noted + length taken.new.items }
        ensures left { taken.new.items ≡ take mark taken.old.items }
    {
        let before = taken.count();
        taken.give_to(&mut self.kept, mark);
        self.noted -= before - taken.count();
    }

    /// What an aborted transaction took is in front again of what is there. It takes no memory.
    pub fn give_back(&mut self, taken: &mut Taken)
        requires { length taken.old.items ≤ self.old.noted }
        ensures given { (w : World) → given_back w self.new.kept ≡ given_back (given_back w self.old.kept) taken.old.items }
        ensures among { (item : KeptItem) → Contains self.new.kept item → Contains taken.old.items item ⊎ Contains self.old.kept item }
        ensures noted { self.new.noted + length taken.old.items ≡ self.old.noted }
        ensures none { taken.new.items ≡ [] }
    {
        self.noted -= taken.count();
        taken.give_all(&mut self.kept);
    }

    /// What a committed transaction took is gone. It takes no memory.
    pub fn let_go(&mut self, alloc: Global, taken: &mut Taken)
        requires { length taken.old.items ≤ self.old.noted }
        ensures kept { self.new.kept ≡ self.old.kept }
        ensures noted { self.new.noted + length taken.old.items ≡ self.old.noted }
        ensures none { taken.new.items ≡ [] }
    {
        self.noted -= taken.count();
        *taken = Taken::new(alloc);
    }

    /// How much active transactions have taken.
    pub fn noted(&self) -> u32
        ensures value { result ≡ self.now.noted }
        ensures kept { AreKept self.now.kept }
    {
        self.noted
    }

    /// What is kept.
    pub fn kept(&self) -> &Kept
        ensures { result.now.items ≡ self.now.kept }
    {
        &self.kept
    }

    /// All that is kept, in the order in which a journal prints it. It takes no memory.
    pub fn into_items(self) -> KeptList
        ensures items { result ≡ self.kept }
        ensures kept { AreKept result }
    {
        self.kept.into_items()
    }
}
