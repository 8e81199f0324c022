ghost use Rattle.std.specs.Prelude.{◌≡◌, None, true, is_some};
ghost use Rattle.std.specs.Option.{option_copied};
ghost use Rattle.xc_live.specs.Called.{IsBegunSo, IsCalledSo};
ghost use Rattle.xc_live.specs.Clients.{may_ask};
ghost use Rattle.xc_live.specs.Ended.{IsEndedSo};
ghost use Rattle.xc_script.specs.declared.ask.Ask.TheVariants as PlainAsk;
ghost use Rattle.xc_station.specs.HandedTold.{last_reply_at};
ghost use Rattle.xc_live.specs.Told.{tx_at};
ghost use Rattle.xc_station.specs.Jobs.{job_views};
ghost use Rattle.xc_station.specs.Stations.{entries_held, live_at};

mod closing;
mod handing;
mod opening;
mod quiet;

use crate::answers::{Began, Called, Ended};
use crate::going::{finish, make};
pub use opening::{NotOpened, WhyNotOpened};
use std::marker::Model;
use xc_data::{Call, Entry, Reply, Turn};
use xc_host::Host;
use xc_script::Ask;
use xc_station::Station;

/// Clients over one station, numbered from 1. Each is one of its jobs, and none of their calls waits. Between two calls each client has
/// no transaction, or one that runs, or has ended.
#[derive(Drop)]
pub struct Desk<H: Host> {
    station: Station<H>,
}

impl<H: Host> Model for Desk<H> {
    ghost use Rattle.std.specs.Coded.{codes};
    ghost use Rattle.xc_live.specs.Calm.{IsDesk};
    ghost use Rattle.xc_script.specs.Position.{coded_position};
    ghost use Rattle.xc_sentinel.specs.Seated.{coded_seats};
    ghost use Rattle.xc_station.specs.Stations.{StationView, now_of, setting_of};

    ghost Value = { StationView H };

    ghost coded = { Prim.hlevel (codes, coded_position, coded_seats) };

    ghost view = { λ d. d.station };

    ghost invariant = { λ d. IsDesk (setting_of H.model d.station) (now_of H.model d.station) };
}

// Whether a client may make the call, within an open block or outside.
fn may_ask(within: bool, call: &Call) -> bool
    ensures { result ≡ may_ask within call.now }
{
    match call {
        Call::Save => !within,
        Call::Keep | Call::Back => within,
        Call::XThreadCreate { .. } => false,
        Call::Load { .. } | Call::Store { .. } | Call::XOpen { .. } | Call::XCreate { .. } => true,
        Call::XRead { .. } | Call::XWriteOvr { .. } | Call::XWriteSeq { .. } => true,
        Call::XSeek { .. } | Call::XLen { .. } | Call::XRename { .. } | Call::XClose { .. } => true,
        Call::XPipe | Call::XReadPipe { .. } | Call::XPair | Call::XRecvmsg { .. } => true,
        Call::XUnlink { .. } | Call::XSync { .. } | Call::XWritePipe { .. } => true,
        Call::XShutdown { .. } | Call::XSendmsg { .. } => true,
    }
}

impl<H: Host> Desk<H> {
    /// Whether the client of this number is there and hasn't ended.
    pub fn live(&self, client: u32) -> bool
        ensures { result ≡ live_at self.now.jobs client }
    {
        self.station.live(client)
    }

    /// Whether the client has a transaction.
    pub fn is_active(&self, client: u32) -> bool
        ensures { result ≡ is_some (tx_at (job_views self.now.jobs) client) }
    {
        self.station.phase(client).is_some()
    }

    /// The entries of the journal that weren't handed out yet.
    pub fn journal(&self) -> &[Entry]
        ensures { result.now ≡ entries_held self.now }
    {
        self.station.journal()
    }

    /// The reply to the last call of the client's transaction.
    pub fn reply(&self, client: u32) -> Option<&Reply>
        ensures { option_copied result ≡ last_reply_at (job_views self.now.jobs) client }
    {
        self.station.last_reply(client)
    }

    /// Begins a transaction of a client that has none. Want of memory ends no client, and neither do entries that nobody has handed out.
    pub fn begin(&mut self, client: u32) -> Began
        requires live { live_at self.old.jobs client ≡ true }
        requires none { tx_at (job_views self.old.jobs) client ≡ None }
        ensures { IsBegunSo H.model client (record { old = self.old; new = self.new }) result }
    {
        // First, since the turn of a client that finds no room in the journal would end it.
        if !self.station.has_room() {
            return Began::Full;
        }
        match self.station.turn(client) {
            Turn::Went => Began::Went,
            Turn::Busy { holder, .. } => Began::Waits { holder },
            Turn::Ended(end) => Began::Ended(end),
            Turn::NoMemory => Began::NoMemory,
        }
    }

    /// Makes a call of a client's transaction.
    pub fn call(&mut self, client: u32, call: Call) -> Called
        ensures { IsCalledSo H.model client call (record { old = self.old; new = self.new }) result }
    {
        if !self.is_active(client) {
            return Called::Gone;
        }
        if !may_ask(self.station.within(client), &call) {
            return Called::Refused;
        }
        make(&mut self.station, client, call)
    }

    /// Ends a client's transaction: it commits, late calls and all. Only want of memory aborts it.
    pub fn commit(&mut self, client: u32) -> Ended
        ensures { IsEndedSo H.model client PlainAsk.Commit (record { old = self.old; new = self.new }) result }
    {
        if !self.is_active(client) {
            return Ended::Gone;
        }
        finish(&mut self.station, client, Ask::Commit)
    }

    /// Ends a client's transaction: it is undone.
    pub fn abort(&mut self, client: u32) -> Ended
        ensures { IsEndedSo H.model client PlainAsk.Abort (record { old = self.old; new = self.new }) result }
    {
        if !self.is_active(client) {
            return Ended::Gone;
        }
        finish(&mut self.station, client, Ask::Abort)
    }
}
