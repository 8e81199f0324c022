ghost use Rattle.std.specs.Prelude.{◌≡◌, None, IfOk, OnErr};
ghost use Rattle.xc_data.specs.declared.entry.Event.TheVariants.{Turned};
ghost use Rattle.xc_print.specs.Entries.{journal_text};
ghost use Rattle.xc_runner.specs.Walks.{is_last};
ghost use Rattle.xc_serve.specs.Answers.{block_or_none};
ghost use Rattle.xc_model.specs.Live.{IsScripted};
ghost use Rattle.xc_serve.specs.Gains.{Grows, IsOfScript, IsToldJob, IsToldTurn, TellsTurn, closing_if};
ghost use Rattle.xc_station.specs.Events.{IsEvent};

use std::alloc::Global;
use std::sync::Wait;
use xc_data::{Entry, Ident, NoMemory, Text, Turn};
use xc_host::Host;
use xc_print::{entry_text, job_text};
use xc_runner::enter;
use xc_station::Station;
use xc_turnstile::{Pass, Turnstile};

const ENDED: &str = "ended\n";

// A text with more bytes, where there is memory for them; it stays lost once it is.
fn with_bytes(text: Option<Text>, more: &[u8]) -> Option<Text>
    ensures { Grows text result more.now }
{
    let mut bytes = text?.into_vec();
    match bytes.extend_from_slice(more) {
        Ok(()) => Some(Text::from_vec(bytes)),
        Err(_) => None,
    }
}

// A text with another, where that one could be made.
fn with_text(text: Option<Text>, more: Result<Text, NoMemory>) -> Option<Text>
    ensures ok { IfOk more (λ added. Grows text result added) }
    ensures err { OnErr more (result ≡ None) }
{
    match more {
        Ok(more) => with_bytes(text, more.as_slice()),
        Err(_) => None,
    }
}

// A text with those of these entries.
fn with_entries(alloc: Global, text: Option<Text>, entries: &[Entry]) -> Option<Text>
    ensures { Grows text result (journal_text entries.now) }
{
    let mut text = text;
    for entry in entries {
        text = with_text(text, entry_text(alloc, entry));
    }
    text
}

// A text with what stands behind a job's entries, where this answer is the job's last. The text is lost where a line is due and no
// block is known, which never is: a job that took a turn was started.
fn with_closing(
    alloc: Global,
    text: Option<Text>,
    job: u32,
    block: Option<Ident>,
    answer: &Option<Turn>,
) -> Option<Text>
    ensures { Grows text result (closing_if (is_last answer.now) job (block_or_none block) answer.now) }
{
    match answer {
        None => with_bytes(text, ENDED.as_bytes()),
        Some(Turn::Ended(end)) => {
            let block = block?;
            with_text(text, job_text(alloc, job, block, end))
        }
        Some(Turn::Went | Turn::Busy { .. } | Turn::NoMemory) => text,
    }
}

// One turn of a job, with the text of the entries that it made and of how the job ended.
fn take_turn<H: Host>(
    alloc: Global,
    station: &mut Station<H>,
    job: u32,
    text: Option<Text>,
) -> (Option<Turn>, Option<Text>)
    requires { IsScripted station.old.opening.script }
    ensures event { IsEvent station.old station.new (Turned job result.0) }
    ensures tells { TellsTurn station.new.opening.script (record { old = station.old.journal; new = station.new.journal }) job result.0
        (record { old = text; new = result.1 }) }
{
    let block = station.name(job);
    let before = station.journal().len();
    let answer = station.try_turn(job);
    let text = with_entries(alloc, text, &station.journal()[before..]);
    let text = with_closing(alloc, text, job, block, &answer);
    (answer, text)
}

// The same in one entering. It may wait.
fn turn_told<H: Host, R: Wait>(
    rt: &R,
    alloc: Global,
    shop: &Turnstile<Box<Station<H>>>,
    pass: Pass<Box<Station<H>>>,
    job: u32,
    text: Option<Text>,
) -> (Pass<Box<Station<H>>>, Option<Turn>, Option<Text>)
    requires table { pass.table ≡ shop.now.table.shared.table_id }
    requires scripted { IsOfScript pass }
    ensures { IsToldTurn pass result.0 job result.1 (record { old = text; new = result.2 }) }
{
    let (mut station, hold) = enter(rt, shop, pass);
    let (answer, told) = take_turn(alloc, &mut station, job, text);
    (shop.leave(station, hold), answer, told)
}

// Whether a job takes no further turn after this answer.
fn ends(answer: &Option<Turn>) -> bool
    ensures { result ≡ is_last answer.now }
{
    match answer {
        None | Some(Turn::Ended(_)) => true,
        Some(Turn::Went | Turn::Busy { .. } | Turn::NoMemory) => false,
    }
}

/// Takes a job's turns to its end, one entering for each, and gives the text of the entries that they made and of how the job
/// ended, where there was memory for it. It may wait.
pub fn work_told<H: Host, R: Wait>(
    rt: &R,
    alloc: Global,
    shop: &Turnstile<Box<Station<H>>>,
    pass: Pass<Box<Station<H>>>,
    job: u32,
) -> (Pass<Box<Station<H>>>, Option<Text>)
    requires table { pass.table ≡ shop.now.table.shared.table_id }
    requires scripted { IsOfScript pass }
    ensures { IsToldJob pass result.0 job result.1 }
{
    let mut mine = pass;
    let mut text = Some(Text::new(alloc));
    for _ in rt.forever() {
        let (back, answer, told) = turn_told(rt, alloc, shop, mine, job, text);
        mine = back;
        text = told;
        if ends(&answer) {
            return (mine, text);
        }
    }
    unreachable!()
}
