ghost use Rattle.std.specs.Prelude.{◌≡◌, ◌↔◌, ◌<◌, ◌≤◌, ◌⊎◌, [], Contains, IsErr, IsTrue, Some, IfOk, OnErr, length};
ghost use Rattle.std.specs.Io.{ReadsAtMost};
ghost use Rattle.std.specs.Io.KnownBytes.{Keeps, ReadConsumes, WriteAppends};
ghost use Rattle.xc_data.specs.Counts.{counted};
ghost use Rattle.xc_edge.specs.Counts.{HasCause};
ghost use Rattle.xc_links.specs.Links.{GivesLink, KeepsLinks, HasLinkCause};
ghost use Rattle.xc_links.specs.MemLinks.{link_view, links_view};
ghost use Rattle.xc_links.specs.Wires.{giving, taking};

use crate::{Duplex, Links};
use std::marker::Model;
use xc_data::{CallNumbers, Items};
use xc_edge::{Failed, MemSink, MemSource, Sink, Source};

/// A link in memory: what it sends, and what it takes.
#[derive(Drop)]
pub struct MemLink {
    source: MemSource,
    sink: MemSink,
}

impl Model for MemLink {
    ghost use Rattle.xc_links.specs.MemLinks.{MemLink as Linked};

    ghost Value = { Linked };

    ghost view = { λ a. record { source = a.source; sink = a.sink } };
}

impl MemLink {
    /// A link that sends what the source gives. Its count is that of both.
    pub fn new(source: MemSource, sink: MemSink) -> MemLink
        ensures { result ≡ record { source = source; sink = sink } }
    {
        MemLink { source, sink }
    }

    /// All bytes that it took, in order.
    pub fn taken(&self) -> &[u8]
        ensures { result.now ≡ self.now.sink.taken }
    {
        self.sink.taken()
    }
}

impl Duplex for MemLink {
    ghost told = { link_view };

    fn faults(&self) -> u64 {
        self.source.faults().saturating_add(self.sink.faults())
    }

    fn read(&mut self, into: &mut [u8]) -> Result<usize, Failed> {
        self.source.read(into)
    }

    fn write(&mut self, piece: &[u8]) -> Result<usize, Failed> {
        self.sink.write(piece)
    }

    fn finish(&mut self) {}
}

/// Links in memory, in the order in which they come.
pub type MemLinkList = Items<MemLink>;

/// Links in memory. Its listed accepts fail, counted from 1, and so does each where no link is left.
#[derive(Drop)]
pub struct MemLinks {
    // The next one last.
    links: Vec<MemLink>,
    fails: CallNumbers,
    accepts: u64,
    faults: u64,
}

impl Model for MemLinks {
    ghost use Rattle.std.specs.Prelude.{reverse};
    ghost use Rattle.xc_links.specs.MemLinks.{MemLinks as Coming};

    ghost Value = { Coming };

    ghost view = { λ a. record { left = reverse a.links.items; fails = a.fails; accepts = a.accepts; faults = a.faults } };
}

impl MemLinks {
    /// These links are given one after another.
    pub fn new(links: MemLinkList, fails: CallNumbers) -> MemLinks
        ensures { result ≡ record { left = links; fails = fails; accepts = 0; faults = 0 } }
    {
        let mut links = links.into_vec();
        links.reverse();
        MemLinks {
            links,
            fails,
            accepts: 0,
            faults: 0,
        }
    }
}

impl Links for MemLinks {
    type Link = MemLink;

    ghost told = { links_view };

    fn faults(&self) -> u64 {
        self.faults
    }

    fn accept(&mut self) -> Result<MemLink, Failed>
        ensures given { IfOk result (GivesLink (Some self.old.left) (Some self.new.left)) }
        ensures kept { OnErr result (KeepsLinks (Some self.old.left) (Some self.new.left)) }
        ensures cause { HasLinkCause self.old.faults self.new.faults result }
        ensures fails { IsErr result ↔ (Contains self.old.fails (counted self.old.accepts) ⊎ (self.old.left ≡ [])) }
    {
        self.accepts = self.accepts.saturating_add(1);
        if !self.fails.as_slice().contains(&self.accepts) {
            if let Some(link) = self.links.pop() {
                return Ok(link);
            }
        }
        self.faults = self.faults.saturating_add(1);
        Err(Failed)
    }
}
