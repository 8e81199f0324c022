ghost use Rattle.std.specs.Prelude.{◌≡◌, ◌<◌, ◌≤◌, length, IfOk, OnOk, OnErr};
ghost use Rattle.std.specs.Io.{ReadsAtMost};
ghost use Rattle.std.specs.Io.KnownBytes.{Keeps, ReadConsumes, WriteAppends};
ghost use Rattle.xc_edge.specs.Counts.{HasCause};
ghost use Rattle.xc_edge.specs.Streams.{AppendsPart, AppendsWhole};
ghost use Rattle.xc_links.specs.Wires.{Wire, giving, taking};

use xc_edge::Failed;

/// Both ways of a connection.
pub trait Duplex {
    /// The bytes that are left, those that it took, and how often a call failed.
    ghost told: { Self → Wire };

    /// How many calls have failed since it was made.
    fn faults(&self) -> u64
        ensures { result ≡ (told self.now).faults };

    /// Takes a front of what is left. 0 into a slice that isn't empty is the end, and a read that fails takes nothing.
    fn read(&mut self, into: &mut [u8]) -> Result<usize, Failed>
        ensures bound { ReadsAtMost result into.new }
        ensures bytes { ReadConsumes (told self.old).left (told self.new).left result into.new }
        ensures other { Keeps (told self.old).taken (told self.new).taken }
        ensures cause { HasCause (giving (told self.old)) (giving (told self.new)) result };

    /// Appends a front of the piece, at least one byte. A write that fails appends nothing.
    fn write(&mut self, piece: &[u8]) -> Result<usize, Failed>
        requires some { 0 < length piece.now }
        ensures bound { IfOk result (λ n. (0 < n) × (n ≤ length piece.now)) }
        ensures bytes { WriteAppends (told self.old).taken (told self.new).taken result piece.now }
        ensures other { Keeps (told self.old).left (told self.new).left }
        ensures cause { HasCause (taking (told self.old)) (taking (told self.new)) result };

    /// Nothing more is written: the peer may see the end.
    fn finish(&mut self)
        ensures { told self.new ≡ told self.old };
}

/// Writes a whole text to a link, in as many writes as it takes.
pub fn send_whole<L: Duplex>(link: &mut L, text: &[u8]) -> Result<(), Failed>
    ensures whole { OnOk result (AppendsWhole (taking (L.told link.old)) (taking (L.told link.new)) text.now) }
    ensures part { OnErr result (AppendsPart (taking (L.told link.old)) (taking (L.told link.new)) text.now) }
    ensures other { Keeps (L.told link.old).left (L.told link.new).left }
    ensures cause { HasCause (taking (L.told link.old)) (taking (L.told link.new)) result }
{
    let mut done = 0;
    while done < text.len() {
        done += link.write(&text[done..])?;
    }
    Ok(())
}
