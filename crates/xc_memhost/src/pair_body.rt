ghost use Rattle.std.specs.Prelude.{◌≡◌, ◌<◌, true, length, OnOk, OnErr};
ghost use Rattle.xc_host.specs.Pairs.{IsMessage, side_state};
ghost use Rattle.xc_memhost.specs.Pairs.{IsSmall, received_of, pair_without_first};
ghost use Rattle.xc_world.specs.Late.{sent_to};
ghost use Rattle.xc_world.specs.World.{empty_pair, other_side, waiting};

use crate::messages::Messages;
use std::alloc::Global;
use std::marker::Model;
use xc_data::{Chunk, NoMemory};
use xc_host::{HostState, Took};

/// A pair's messages that wait for side 0 and for side 1, and whether it is shut.
#[derive(Drop)]
pub(crate) struct PairBody {
    first: Messages,
    second: Messages,
    shut: bool,
}

impl Model for PairBody {
    ghost use Rattle.xc_world.specs.World.{Pair, coded_pair};

    ghost Value = { Pair };

    ghost coded = { coded_pair };

    ghost view = { λ a. record { first = a.first; second = a.second; shut = a.shut } };
}

impl PairBody {
    pub(crate) fn empty(alloc: Global) -> PairBody
        ensures { result ≡ empty_pair }
    {
        PairBody {
            first: Messages::none(alloc),
            second: Messages::none(alloc),
            shut: false,
        }
    }

    pub(crate) fn state(&self, side: u8) -> HostState
        ensures { result ≡ side_state self.now side }
    {
        let held = if side == 0 {
            self.first.len()
        } else {
            self.second.len()
        };
        HostState {
            held,
            shut: self.shut,
        }
    }

    // The first message that waits for a side leaves.
    pub(crate) fn take(&mut self, side: u8) -> Took
        ensures bound { IsMessage result }
        ensures first { result ≡ received_of self.old side }
        ensures rest { self.new ≡ pair_without_first self.old side }
    {
        let first = if side == 0 {
            self.first.take()
        } else {
            self.second.take()
        };
        match first {
            Some(message) => Took::Bytes(message),
            None => if self.shut { Took::End } else { Took::Empty },
        }
    }

    // Puts a message of a side after those that wait for the other side.
    pub(crate) fn send(&mut self, side: u8, message: Chunk) -> Result<(), NoMemory>
        requires few { length (waiting self.old (other_side side)) < 8 }
        requires small { IsSmall message }
        ensures ok { OnOk result (self.new ≡ sent_to self.old (other_side side) message) }
        ensures err { OnErr result (self.new ≡ self.old) }
    {
        if side == 0 {
            self.second.push(message)
        } else {
            self.first.push(message)
        }
    }

    pub(crate) fn shut(&mut self)
        ensures { self.new ≡ record self.old { shut = true } }
    {
        self.shut = true;
    }
}
