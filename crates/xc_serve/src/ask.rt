ghost use Rattle.std.specs.Prelude.{◌≡◌, ◌≤◌, ℕ, List, [], ◌∷◌, IfOk, length, slice_get};
ghost use Rattle.xc_data.specs.declared.entry.Event.TheVariants.{Looked};
ghost use Rattle.xc_serve.specs.Answers.{seen_line, text_at};
ghost use Rattle.xc_model.specs.Live.{IsScripted};
ghost use Rattle.xc_serve.specs.Gains.{IsOfScript, IsOrderFollowed, IsMade, IsText, IsTold};
ghost use Rattle.xc_serve.specs.declared.order.Order.TheVariants as Asked;
ghost use Rattle.xc_station.specs.Events.{IsEvent};
ghost use Rattle.xc_turnstile.specs.Insides.{Gains};

use crate::answer::ServeAnswer;
use crate::job::work_told;
use crate::order::Order;
use std::alloc::Global;
use std::sync::Wait;
use xc_data::{Entry, NoMemory, Text};
use xc_host::Host;
use xc_print::entry_text;
use xc_runner::{enter, pick};
use xc_station::Station;
use xc_turnstile::{Pass, Turnstile};

// Looks how long the journal is, in one entering.
fn look_told<H: Host, R: Wait>(
    rt: &R,
    shop: &Turnstile<Box<Station<H>>>,
    pass: Pass<Box<Station<H>>>,
) -> (Pass<Box<Station<H>>>, u32)
    requires { pass.table ≡ shop.now.table.shared.table_id }
    ensures gains { Gains pass result.0 (Looked result.1 ∷ []) [] }
    ensures within { result.1 ≤ length result.0.view.seen }
{
    let (mut station, hold) = enter(rt, shop, pass);
    let length = station.look();
    (shop.leave(station, hold), length)
}

// The line that says how long the journal is.
fn seen_text(alloc: Global, length: u32) -> Result<Text, NoMemory>
    ensures { IfOk result (λ text. text ≡ seen_line length) }
{
    let mut text = String::new(alloc);
    write!(text, "seen {length}\n")?;
    Ok(Text::from_vec(text.into_bytes()))
}

// What is told, where there was memory for it.
fn told(text: Result<Text, NoMemory>) -> Option<ServeAnswer>
    ensures { IsMade text result }
{
    match text {
        Ok(text) => Some(ServeAnswer::Told(text)),
        Err(NoMemory) => None,
    }
}

// A text that was not lost is told.
fn all_told(text: Option<Text>) -> Option<ServeAnswer>
    ensures { (whole : List ℕ) → IsText text whole → IsTold result whole }
{
    match text {
        Some(text) => Some(ServeAnswer::Told(text)),
        None => None,
    }
}

// The text of the entry in this place.
fn entry_in(alloc: Global, entries: &[Entry], place: u64) -> Option<ServeAnswer>
    ensures { IsTold result (text_at (slice_get entries.now place)) }
{
    match entries.get(place as usize) {
        Some(entry) => told(entry_text(alloc, entry)),
        None => Some(ServeAnswer::NotYet),
    }
}

// A job, with all its turns.
fn work<H: Host, R: Wait>(
    rt: &R,
    alloc: Global,
    shop: &Turnstile<Box<Station<H>>>,
    pass: Pass<Box<Station<H>>>,
) -> (Pass<Box<Station<H>>>, Option<ServeAnswer>)
    requires table { pass.table ≡ shop.now.table.shared.table_id }
    requires scripted { IsOfScript pass }
    ensures { IsOrderFollowed pass result.0 Asked.Work result.1 }
{
    let (pass, job) = pick(rt, shop, pass);
    let Some(job) = job else {
        return (pass, Some(ServeAnswer::NoJob));
    };
    let (pass, text) = work_told(rt, alloc, shop, pass, job);
    (pass, all_told(text))
}

// How long the journal is.
fn seen<H: Host, R: Wait>(
    rt: &R,
    alloc: Global,
    shop: &Turnstile<Box<Station<H>>>,
    pass: Pass<Box<Station<H>>>,
) -> (Pass<Box<Station<H>>>, Option<ServeAnswer>)
    requires { pass.table ≡ shop.now.table.shared.table_id }
    ensures { IsOrderFollowed pass result.0 Asked.Seen result.1 }
{
    let (pass, length) = look_told(rt, shop, pass);
    (pass, told(seen_text(alloc, length)))
}

// A look, and what is told of the entry in this place of the journal.
fn look_for<H: Host>(
    alloc: Global,
    station: &mut Station<H>,
    place: u64,
) -> (u32, Option<ServeAnswer>)
    requires { IsScripted station.old.opening.script }
    ensures length { result.0 ≡ length station.old.journal }
    ensures same { station.new.journal ≡ station.old.journal }
    ensures event { IsEvent station.old station.new (Looked result.0) }
    ensures told { IsTold result.1 (text_at (slice_get station.old.journal place)) }
{
    let length = station.look();
    (length, entry_in(alloc, station.journal(), place))
}

// The entry in this place of the journal, by one look.
fn look_up<H: Host, R: Wait>(
    rt: &R,
    alloc: Global,
    shop: &Turnstile<Box<Station<H>>>,
    pass: Pass<Box<Station<H>>>,
    place: u64,
) -> (Pass<Box<Station<H>>>, Option<ServeAnswer>)
    requires table { pass.table ≡ shop.now.table.shared.table_id }
    requires scripted { IsOfScript pass }
    ensures { IsOrderFollowed pass result.0 (Asked.Entry place) result.1 }
{
    let (mut station, hold) = enter(rt, shop, pass);
    let (_length, answer) = look_for(alloc, &mut station, place);
    (shop.leave(station, hold), answer)
}

/// Follows an order, and gives its answer, where there was memory for that. It may wait.
pub fn follow<H: Host, R: Wait>(
    rt: &R,
    alloc: Global,
    shop: &Turnstile<Box<Station<H>>>,
    pass: Pass<Box<Station<H>>>,
    order: Order,
) -> (Pass<Box<Station<H>>>, Option<ServeAnswer>)
    requires table { pass.table ≡ shop.now.table.shared.table_id }
    requires scripted { IsOfScript pass }
    ensures { IsOrderFollowed pass result.0 order result.1 }
{
    match order {
        Order::Work => work(rt, alloc, shop, pass),
        Order::Seen => seen(rt, alloc, shop, pass),
        Order::Entry(place) => look_up(rt, alloc, shop, pass, place),
        Order::Quit => (pass, Some(ServeAnswer::Bye)),
        Order::Bad => (pass, Some(ServeAnswer::Bad)),
        Order::TooLong => (pass, Some(ServeAnswer::TooLong)),
    }
}
