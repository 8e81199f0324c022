ghost use Rattle.std.specs.Prelude.{◌≡◌};
ghost use Rattle.xc_sessions.specs.Headline.{serve_number};

use xc_meet::Session;
use xc_outcome::Status;
use xc_roomy::Roomy;
use xc_station::End;

/// How a run with sessions ended.
#[derive(Clone, Copy, Debug, PartialEq, Eq)]
pub enum ServeStatus {
    /// As a run without sessions does. `NoMemory` also where there was no memory for the sessions: then no link was accepted, and the
    /// text was written all the same.
    Ran(Status),
    /// An accept failed: the links behind it are left out, and the text was written all the same.
    AcceptFault,
}

impl ServeStatus {
    /// The exit status of the program.
    pub fn number(self) -> u8
        ensures { result ≡ serve_number self }
    {
        match self {
            ServeStatus::Ran(status) => status.number(),
            ServeStatus::AcceptFault => 9,
        }
    }
}

/// What a run with sessions leaves: its end once the script was started, and else the host as it was; the links that were accepted, in
/// their order, with the ends of their sessions; and where others come from.
#[derive(Drop)]
pub struct Serve<H, M, L> {
    pub status: ServeStatus,
    pub end: Option<End<H>>,
    pub host: Option<H>,
    pub sessions: Roomy<Session<M>>,
    pub links: L,
}
