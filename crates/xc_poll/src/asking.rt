ghost use Rattle.std.specs.Prelude.{◌≡◌};
ghost use Rattle.xc_poll.specs.Askings.{HasAsked, asked_from};

use xc_host::Host;
use xc_runner::{Tried, try_pick};
use xc_station::Station;
use xc_turnstile::{Pass, Turnstile};

/// What an asking for a job was answered.
#[derive(Clone, Copy, Debug, PartialEq, Eq)]
pub enum Asked {
    /// Another pass was inside; the word was this one.
    Held(u64),
    /// This job was handed out.
    Job(u32),
    /// No job was left.
    Nothing,
}

// What an asking was answered.
fn asked_of(tried: Tried<Option<u32>>) -> Asked
    ensures { result ≡ asked_from tried }
{
    match tried {
        Tried::Answered(Some(job)) => Asked::Job(job),
        Tried::Answered(None) => Asked::Nothing,
        Tried::Held(word) => Asked::Held(word),
    }
}

// Asks for a job, where nobody is inside.
pub(crate) fn ask<H: Host>(
    shop: &Turnstile<Box<Station<H>>>,
    pass: Pass<Box<Station<H>>>,
) -> (Pass<Box<Station<H>>>, Asked)
    requires { pass.table ≡ shop.now.table.shared.table_id }
    ensures { HasAsked pass result.0 result.1 }
{
    let (pass, tried) = try_pick(shop, pass);
    (pass, asked_of(tried))
}
