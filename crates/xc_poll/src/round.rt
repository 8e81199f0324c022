ghost use Rattle.std.specs.Prelude.{◌≡◌, ◌≤◌};
ghost use Rattle.xc_poll.specs.Polls.{IsRound, stop_of};

use xc_data::{JobEnd, Object, Turn};
use xc_host::Host;
use xc_runner::{Tried, try_turn};
use xc_station::Station;
use xc_turnstile::{Pass, Turnstile};

/// Why a task has to be polled again.
#[derive(Debug, Drop, PartialEq, Eq)]
pub enum Waits {
    /// The job waits for the object's holder.
    Met { object: Object, holder: u32 },
    /// Another pass was inside; the word was this one.
    Held(u64),
    /// All turns of the share were taken.
    Spent,
    /// There was no memory for a turn.
    Memory,
}

impl Waits {
    /// The same reason. It takes no memory.
    pub fn again(&self) -> Self
        ensures { result ≡ self.now }
    {
        match self {
            Waits::Met { object, holder } => Waits::Met {
                object: object.again(),
                holder: *holder,
            },
            Waits::Held(word) => Waits::Held(*word),
            Waits::Spent => Waits::Spent,
            Waits::Memory => Waits::Memory,
        }
    }
}

/// Where the turns of a poll stop.
pub(crate) enum RoundStop {
    /// The job has ended; no end where it had ended before.
    Ended(Option<JobEnd>),
    Waits(Waits),
}

// Where the turns stop behind this answer; none where they go on.
fn stop_of(answer: &Option<Turn>) -> Option<RoundStop>
    ensures { result ≡ stop_of answer.now }
{
    match answer {
        None => Some(RoundStop::Ended(None)),
        Some(Turn::Went) => None,
        Some(Turn::Busy { object, holder }) => Some(RoundStop::Waits(Waits::Met {
            object: object.again(),
            holder: *holder,
        })),
        Some(Turn::NoMemory) => Some(RoundStop::Waits(Waits::Memory)),
        Some(Turn::Ended(end)) => Some(RoundStop::Ended(Some(end.again()))),
    }
}

// Takes turns of the job, at most `share`, up to the first that doesn't go on.
pub(crate) fn take_turns<H: Host>(
    shop: &Turnstile<Box<Station<H>>>,
    pass: Pass<Box<Station<H>>>,
    job: u32,
    share: u32,
) -> (Pass<Box<Station<H>>>, RoundStop)
    requires table { pass.table ≡ shop.now.table.shared.table_id }
    requires share { 1 ≤ share }
    ensures { IsRound pass result.0 job share result.1 }
{
    let mut mine = pass;
    let mut count: u32 = 0;
    while count < share {
        let (back, tried) = try_turn(shop, mine, job);
        mine = back;
        let answer = match tried {
            Tried::Held(word) => return (mine, RoundStop::Waits(Waits::Held(word))),
            Tried::Answered(answer) => answer,
        };
        if let Some(stop) = stop_of(&answer) {
            return (mine, stop);
        }
        count += 1;
    }
    (mine, RoundStop::Waits(Waits::Spent))
}
