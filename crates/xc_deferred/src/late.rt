ghost use Rattle.std.specs.Prelude.{◌-◌, ◌^◌, min, take, ◌≡◌, ◌<◌, ◌++◌, ◌∷◌, [], List, true, length, None, MatchBool, OnOk, OnErr, IsTrue};
ghost use Rattle.xc_data.specs.Calls.{thread_in};
ghost use Rattle.xc_data.specs.declared.call.LateCall.{LateCall as PlainCall};
ghost use Rattle.xc_deferred.specs.Does.{EndsNext, IsThereFor};
ghost use Rattle.xc_deferred.specs.Queue.{is_late_fit, late_calls_left, next_thread};
ghost use Rattle.xc_host.specs.Fronted.{before, fronted};
ghost use Rattle.xc_host.specs.Kept.{KeepsData};

use crate::doing::do_late;
use std::alloc::Global;
use std::marker::Model;
use xc_buffers::Kept;
use xc_data::{Ident, LateCall, LateEnd, LateList, NoMemory};
use xc_host::Host;
use xc_roomy::Roomy;

// The block of the job that a call starts, where it starts one.
fn thread_in(call: &LateCall) -> Option<Ident>
    ensures { result ≡ thread_in call.now }
{
    match call {
        LateCall::Thread(block) => Some(*block),
        LateCall::Unlink(_) | LateCall::Sync(_) | LateCall::WritePipe(..) => None,
        LateCall::Shutdown(_) | LateCall::Send { .. } => None,
    }
}

/// A transaction's calls that are kept for its commit, in the order in which they were made, with the ends
/// of those that are done.
///
/// Room for each call's end is made with the call, so that a commit takes no memory of its own.
#[derive(Drop)]
pub struct Late {
    calls: Roomy<LateCall>,
    ends: Roomy<LateEnd>,
}

impl Model for Late {
    ghost use Rattle.xc_deferred.specs.Queue.{Queue, IsQueue};

    ghost Value = { Queue };

    ghost view = { λ a. record { calls = a.calls.items; ends = a.ends.items } };

    ghost invariant = { λ a. IsQueue a.calls.items a.ends.items a.ends.spare };
}

impl Late {
    /// No late call yet. It takes no memory.
    pub fn new(alloc: Global) -> Late
        ensures { result ≡ record { calls = []; ends = [] } }
    {
        Late {
            calls: Roomy::new(alloc),
            ends: Roomy::new(alloc),
        }
    }

    /// Keeps a call after the others.
    pub fn push(&mut self, call: LateCall) -> Result<(), NoMemory>
        requires fit { is_late_fit call ≡ true }
        ensures ok { OnOk result (self.new ≡ record self.old { calls = self.old.calls ++ call ∷ [] }) }
        ensures err { OnErr result (self.new ≡ self.old) }
    {
        let waiting = self.calls.len() - self.ends.len();
        // never reached in memory
        if waiting >= u32::MAX as usize {
            return Err(NoMemory);
        }
        self.ends.reserve(waiting as u32 + 1)?;
        self.calls.reserve(1)?;
        self.calls.enter(call);
        Ok(())
    }

    /// How many calls there are. It takes no memory.
    pub fn count(&self) -> u32
        ensures { result ≡ min (length self.now.calls) (2 ^ 32 - 1) }
    {
        self.calls.len().min(u32::MAX as usize) as u32
    }

    /// Keeps the first `n` calls, none of which is done. It takes no memory.
    pub fn cut(&mut self, n: u32)
        requires { self.old.ends ≡ [] }
        ensures { self.new ≡ record { calls = take n self.old.calls; ends = [] } }
    {
        self.calls.cut(n as usize);
    }

    /// Whether a call has no end yet.
    pub fn has_left(&self) -> bool
        ensures { MatchBool result (0 < length (late_calls_left self.now)) (late_calls_left self.now ≡ []) }
    {
        self.ends.len() < self.calls.len()
    }

    /// The block of the job that the first call without an end starts; None exactly where no such call is left or it is of
    /// another kind. It takes no memory.
    pub fn next_thread(&self) -> Option<Ident>
        ensures { result ≡ next_thread (late_calls_left self.now) }
    {
        if !self.has_left() {
            return None;
        }
        thread_in(self.calls.get(self.ends.len()))
    }

    /// Notes the end of the first call that has none, which starts a job. It takes no memory.
    pub fn end_thread(&mut self, end: LateEnd)
        requires left { 0 < length (late_calls_left self.old) }
        ensures { self.new ≡ record self.old { ends = self.old.ends ++ end ∷ [] } }
    {
        self.ends.enter(end)
    }

    /// Does the first call that has no end yet, which starts no job, at a host with kept items in front of it, and notes how
    /// it ended. It takes no memory of its own.
    pub fn do_one<H: Host>(&mut self, host: &mut H, kept: &Kept)
        requires left { 0 < length (late_calls_left self.old) }
        requires hosted { next_thread (late_calls_left self.old) ≡ None }
        requires there { IsTrue H.model.tells → (call : PlainCall) (calls : List PlainCall) → late_calls_left self.old ≡ call ∷ calls
            → IsThereFor (H.model.contents host.old) call }
        ensures ends { (call : PlainCall) (calls : List PlainCall) → late_calls_left self.old ≡ call ∷ calls
            → EndsNext (fronted H.model) call (record { host = before host.old kept.now.items; late = self.old })
            (record { host = before host.new kept.now.items; late = self.new }) }
        ensures keeps { IsTrue H.model.tells → KeepsData (H.model.contents host.old) (H.model.contents host.new) }
    {
        let end = do_late(host, kept, self.calls.get(self.ends.len()));
        self.ends.enter(end);
    }

    /// The ends of the calls that are done.
    pub fn ends(&self) -> &[LateEnd]
        ensures { result.now ≡ self.now.ends }
    {
        self.ends.as_slice()
    }

    /// The ends of the calls that are done, in the order in which the calls were made. It takes no memory.
    pub fn into_ends(self) -> LateList
        ensures { result ≡ self.ends }
    {
        self.ends.into_items()
    }
}
