ghost use Rattle.std.specs.Prelude.{◌≡◌, ◌≢◌, ◌<◌, ◌-◌, length, true, false, Some};
ghost use Rattle.xc_model.specs.Moment.{TxView};
ghost use Rattle.xc_model.specs.declared.phase.Phase.TheVariants as PlainPhase;
ghost use Rattle.xc_script.specs.declared.ask.Ask.{Ask as PlainAsk};
ghost use Rattle.xc_live.specs.Moving.{AsksAt, AskedAt, HasComeThrough, HasLeft, HasSettled, IsMoved, IsYielded, is_want};
ghost use Rattle.xc_station.specs.Finishing.{phase_at};
ghost use Rattle.xc_station.specs.Jobs.{job_views};
ghost use Rattle.std.specs.Prelude.{is_some};
ghost use Rattle.xc_live.specs.Calm.{IsDesk};
ghost use Rattle.xc_live.specs.Called.{IsCalledSo};
ghost use Rattle.xc_live.specs.Clients.{IsEndAsk, may_ask};
ghost use Rattle.xc_live.specs.Ended.{IsEndedSo};
ghost use Rattle.xc_live.specs.Told.{tx_at};
ghost use Rattle.xc_station.specs.Stations.{now_of, setting_of};

use crate::answers::{Called, Ended};
use xc_data::{Call, Cause, Turn};
use xc_host::Host;
use xc_model::Phase;
use xc_script::Ask;
use xc_station::Station;

// One turn of a client that has handed in a call. Where it is told to wait for a younger one, that one is rolled back; whether so
// it was.
fn push<H: Host>(station: &mut Station<H>, client: u32) -> bool
    requires first { 0 < client }
    requires asks { (tx : TxView) × (asked : PlainAsk) × AsksAt H.model client tx asked station.old }
    ensures yielded { result ≡ true → IsYielded H.model client (record { old = station.old; new = station.new }) }
    ensures moved { result ≡ false → IsMoved H.model client (record { old = station.old; new = station.new }) }
    ensures falls { result ≡ true → 4294967296 - length station.new.journal < 4294967296 - length station.old.journal }
{
    let Turn::Busy { holder, .. } = station.turn(client) else {
        return false;
    };
    let Some(victim) = station.job_of(holder) else {
        unreachable!()
    };
    station.turn(victim);
    station.finish_undo(victim);
    true
}

// Turns of a client that has handed in a call, until it isn't told to wait. Those in its way are rolled back.
fn go<H: Host>(station: &mut Station<H>, client: u32)
    requires first { 0 < client }
    requires asks { (tx : TxView) × (asked : PlainAsk) × AsksAt H.model client tx asked station.old }
    ensures { HasComeThrough H.model client (record { old = station.old; new = station.new }) }
{
    while push(station, client) {}
}

// Whether a block of the client goes back.
fn is_backing<H: Host>(station: &Station<H>, client: u32) -> bool
    ensures yes { result ≡ true → phase_at (job_views station.now.jobs) client ≡ Some PlainPhase.Backing }
    ensures no { result ≡ false → phase_at (job_views station.now.jobs) client ≢ Some PlainPhase.Backing }
{
    match station.phase(client) {
        Some(Phase::Backing) => true,
        Some(Phase::Running) | Some(Phase::Committing) | Some(Phase::Undoing(_)) | None => false,
    }
}

// Turns of a client while a block of it goes back.
fn settle<H: Host>(station: &mut Station<H>, client: u32)
    requires first { 0 < client }
    requires asked { (tx : TxView) × (asked : PlainAsk) × AskedAt H.model client tx asked station.old }
    ensures settled { HasSettled H.model client (record { old = station.old; new = station.new }) }
    ensures done { phase_at (job_views station.new.jobs) client ≢ Some PlainPhase.Backing }
{
    while is_backing(station, client) {
        station.turn(client);
    }
}

// Whether it is want of memory.
fn is_want(cause: &Cause) -> bool
    ensures { result ≡ is_want cause.now }
{
    match cause {
        Cause::NoMemory => true,
        Cause::Asked => false,
        Cause::Conflict { .. } | Cause::Revoked { .. } | Cause::Stuck { .. } => false,
    }
}

// The rollback of a client, to the entry; after want of memory one turn more, so that it may begin again. Gives the entry's place.
fn roll_back<H: Host>(station: &mut Station<H>, client: u32, cause: &Cause) -> u32
    requires undoes { phase_at (job_views station.old.jobs) client ≡ Some (PlainPhase.Undoing cause.now) }
    requires asked { (tx : TxView) × (asked : PlainAsk) × AskedAt H.model client tx asked station.old }
    ensures place { result ≡ length station.old.journal }
    ensures left { HasLeft H.model client (PlainPhase.Undoing cause.now) (record { old = station.old; new = station.new }) }
{
    if !is_want(cause) {
        return station.finish_undo(client);
    }
    let entry = station.finish_undo(client);
    station.turn(client);
    entry
}

// The commit of a client, to the entry. Gives the entry's place.
fn commit<H: Host>(station: &mut Station<H>, client: u32) -> u32
    requires commits { phase_at (job_views station.old.jobs) client ≡ Some PlainPhase.Committing }
    requires asked { (tx : TxView) × (asked : PlainAsk) × AskedAt H.model client tx asked station.old }
    ensures place { result ≡ length station.old.journal }
    ensures left { HasLeft H.model client PlainPhase.Committing (record { old = station.old; new = station.new }) }
{
    station.finish_commit(client)
}

/// A call of a client whose transaction runs.
pub fn make<H: Host>(station: &mut Station<H>, client: u32, call: Call) -> Called
    requires desk { IsDesk (setting_of H.model station.old) (now_of H.model station.old) }
    requires allowed { (tx : TxView) × (tx_at (job_views station.old.jobs) client ≡ Some tx) × (may_ask (is_some tx.saved) call ≡ true) }
    ensures calm { IsDesk (setting_of H.model station.new) (now_of H.model station.new) }
    ensures called { IsCalledSo H.model client call (record { old = station.old; new = station.new }) result }
{
    station.hand_in(client, Ask::Call(call));
    go(station, client);
    settle(station, client);
    match station.phase(client) {
        Some(Phase::Undoing(cause)) => {
            roll_back(station, client, &cause);
            Called::Again(cause)
        }
        Some(Phase::Running) => Called::Replied,
        // It was asked no commit.
        Some(Phase::Committing) => unreachable!(),
        // No block of it goes back any more.
        Some(Phase::Backing) => unreachable!(),
        // Its transaction is there yet.
        None => unreachable!(),
    }
}

/// The end of a client's transaction, which runs: a commit or its own abort.
pub fn finish<H: Host>(station: &mut Station<H>, client: u32, ask: Ask) -> Ended
    requires desk { IsDesk (setting_of H.model station.old) (now_of H.model station.old) }
    requires begun { (tx : TxView) × (tx_at (job_views station.old.jobs) client ≡ Some tx) }
    requires ends { IsEndAsk ask }
    ensures calm { IsDesk (setting_of H.model station.new) (now_of H.model station.new) }
    ensures ended { IsEndedSo H.model client ask (record { old = station.old; new = station.new }) result }
{
    station.hand_in(client, ask);
    station.turn(client);
    match station.phase(client) {
        Some(Phase::Undoing(cause)) => {
            let entry = roll_back(station, client, &cause);
            Ended::Aborted { entry, cause }
        }
        Some(Phase::Committing) => {
            let entry = commit(station, client);
            Ended::Committed { entry }
        }
        // It was asked no call.
        Some(Phase::Running) => unreachable!(),
        Some(Phase::Backing) => unreachable!(),
        // Its transaction is there yet.
        None => unreachable!(),
    }
}
