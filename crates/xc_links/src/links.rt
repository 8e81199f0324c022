ghost use Rattle.std.specs.Prelude.{◌≡◌, IfOk, OnErr};
ghost use Rattle.xc_links.specs.Links.{GivesLink, KeepsLinks, LinksView, HasLinkCause};

use crate::Duplex;
use xc_edge::Failed;

/// Where connections come from.
pub trait Links {
    /// A connection.
    type Link: Duplex + Send + Drop;

    /// The links that are to come, and how often an accept failed.
    ghost told: { Self → LinksView Self.Link };

    /// How many calls have failed since it was made.
    fn faults(&self) -> u64
        ensures { result ≡ (told self.now).faults };

    /// Gives the first of the links that are to come. An accept that fails leaves them as they were.
    fn accept(&mut self) -> Result<Self::Link, Failed>
        ensures given { IfOk result (GivesLink (told self.old).left (told self.new).left) }
        ensures kept { OnErr result (KeepsLinks (told self.old).left (told self.new).left) }
        ensures cause { HasLinkCause (told self.old).faults (told self.new).faults result };
}
