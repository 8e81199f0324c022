//! The turn of a running transaction that a client asks.

ghost use Rattle.std.specs.Prelude.{◌≡◌, ◌≤◌, ℕ, length, is_some, true, unwrap_or, IsTrue, None, Some};
ghost use Rattle.xc_script.specs.declared.ask.Ask.TheVariants as PlainAsk;
ghost use Rattle.xc_script.specs.declared.ask.Ask.TheVariants.{Call as AskedCall};
ghost use Rattle.xc_script.specs.Blocks.{ask_fits, fits_block};
ghost use Rattle.xc_model.specs.Live.{has_clients};
ghost use Rattle.xc_model.specs.declared.rules.Rules.{Rules as PlainRules};
ghost use Rattle.xc_model.specs.Moment.{JobView, Moment, Active};
ghost use Rattle.xc_data.specs.declared.object.Object.{Object};
ghost use Rattle.xc_model.specs.Setting.{setting};
ghost use Rattle.xc_model.specs.Movers.{mover};
ghost use Rattle.xc_station.specs.Acting.{AreReadyFor, MayGo};
ghost use Rattle.xc_station.specs.Backs.{CanGoBack, HasSave};
ghost use Rattle.xc_station.specs.Handed.{handed_tx};
ghost use Rattle.xc_station.specs.Jobs.{begun_of, tx_view};
ghost use Rattle.xc_station.specs.Moments.{AreTerms, HasNeeds, IsAt, IsRow, KeepsSeated, Lends};
ghost use Rattle.xc_station.specs.Moments.{busy_counted, front_of, moved, runs};
ghost use Rattle.xc_locks.specs.Table.{Holds};

use crate::backing::begin_back;
use crate::calls::Shared;
use crate::running::{
    Terms, abort_for_memory, enter_abort, enter_commit, hand_back, is_back, try_call,
};
use crate::tx::Tx;
use std::alloc::Global;
use xc_data::{Call, Turn};
use xc_host::Host;
use xc_script::{Ask, JobState};
use xc_text::Script;

// The turn of a call that a client has handed in, and that was taken out of there.
fn step_call<H: Host>(
    alloc: Global,
    shared: &mut Shared<H>,
    script: &Script,
    terms: Terms,
    place: &mut JobState,
    handed: &mut Option<Ask>,
    tx: &mut Tx,
    call: Call,
) -> Turn
    requires live { has_clients script.now ≡ true }
    requires taken { handed.old ≡ None }
    requires fits { fits_block (is_some tx.old.saved) call ≡ true }
    requires together { is_some place.old.saved ≡ is_some tx.old.saved }
    requires save { HasSave tx.old tx.old.saved }
    requires may { MayGo (length shared.old.words) (tx_view tx.old) }
    requires count { length shared.old.words ≤ 4096 }
    requires ready { IsTrue H.model.tells → AreReadyFor (tx_view tx.old) (H.model.contents shared.old.host) }
    requires needs { IsTrue H.model.tells → HasNeeds H.model shared.old (tx_view tx.old) }
    requires noted { length tx.old.taken.items ≤ shared.old.buffers.noted }
    requires holds { Holds shared.old.sentinels.claims tx.old.number tx.old.held.items }
    ensures count { length shared.new.words ≡ length shared.old.words }
    ensures started { shared.new.started ≡ shared.old.started }
    ensures plan { H.model.plan shared.new.host ≡ H.model.plan shared.old.host }
    ensures seats { KeepsSeated shared.old.sentinels.seats shared.new.sentinels.seats }
    ensures waits { (object : Object) (holder : ℕ) → result ≡ Turn.Busy object holder → terms.patient ≡ true }
    ensures lends { Lends H.model (record { old = front_of shared.old; new = front_of shared.new })
        (record { old = tx_view tx.old; new = tx_view tx.new }) }
    ensures begun { begun_of tx.new ≡ begun_of tx.old }
    ensures backs { runs tx.new.phase ≡ true → CanGoBack terms.tries tx.new }
    ensures row { (rules : PlainRules) (now : Moment) (at : ℕ) (job : JobView) → let s = setting script.now rules H.model.tells in
        IsAt H.model shared.old now at job → job.doing ≡ Active (tx_view tx.old) → job.place ≡ place.old
        → job.handed ≡ Some (AskedCall call)
        → AreTerms rules now job terms.patient terms.at
        → IsRow (mover s at now job)
        (moved H.model shared.new (busy_counted result (handed_tx job handed.new place.new (tx_view tx.new))) now at) result
        shared.new.sentinels.claims }
{
    if is_back(&call) {
        hand_back(script, handed, call);
        return begin_back(terms.tries, tx);
    }
    try_call(alloc, shared, script, terms, place, handed, tx, call)
}

/// What a running transaction of a client does next: what was handed in. A call is answered; all else stays handed in until the
/// transaction has ended. Where nothing was handed in, or the job's end, it undoes as for lack of memory: nobody should take such a turn.
pub fn step_client<H: Host>(
    alloc: Global,
    shared: &mut Shared<H>,
    script: &Script,
    terms: Terms,
    place: &mut JobState,
    handed: &mut Option<Ask>,
    tx: &mut Tx,
) -> Turn
    requires live { has_clients script.now ≡ true }
    requires fits { ask_fits (is_some tx.old.saved) (unwrap_or handed.old PlainAsk.End) ≡ true }
    requires together { is_some place.old.saved ≡ is_some tx.old.saved }
    requires save { HasSave tx.old tx.old.saved }
    requires may { MayGo (length shared.old.words) (tx_view tx.old) }
    requires count { length shared.old.words ≤ 4096 }
    requires ready { IsTrue H.model.tells → AreReadyFor (tx_view tx.old) (H.model.contents shared.old.host) }
    requires needs { IsTrue H.model.tells → HasNeeds H.model shared.old (tx_view tx.old) }
    requires noted { length tx.old.taken.items ≤ shared.old.buffers.noted }
    requires holds { Holds shared.old.sentinels.claims tx.old.number tx.old.held.items }
    ensures count { length shared.new.words ≡ length shared.old.words }
    ensures started { shared.new.started ≡ shared.old.started }
    ensures plan { H.model.plan shared.new.host ≡ H.model.plan shared.old.host }
    ensures seats { KeepsSeated shared.old.sentinels.seats shared.new.sentinels.seats }
    ensures waits { (object : Object) (holder : ℕ) → result ≡ Turn.Busy object holder → terms.patient ≡ true }
    ensures lends { Lends H.model (record { old = front_of shared.old; new = front_of shared.new })
        (record { old = tx_view tx.old; new = tx_view tx.new }) }
    ensures begun { begun_of tx.new ≡ begun_of tx.old }
    ensures backs { runs tx.new.phase ≡ true → CanGoBack terms.tries tx.new }
    ensures row { (rules : PlainRules) (now : Moment) (at : ℕ) (job : JobView) → let s = setting script.now rules H.model.tells in
        IsAt H.model shared.old now at job → job.doing ≡ Active (tx_view tx.old) → job.place ≡ place.old → job.handed ≡ handed.old
        → AreTerms rules now job terms.patient terms.at
        → IsRow (mover s at now job)
        (moved H.model shared.new (busy_counted result (handed_tx job handed.new place.new (tx_view tx.new))) now at) result
        shared.new.sentinels.claims }
{
    match handed.take() {
        Some(Ask::Call(call)) => step_call(alloc, shared, script, terms, place, handed, tx, call),
        Some(Ask::Commit) => {
            *handed = Some(Ask::Commit);
            enter_commit(&mut shared.words, tx);
            Turn::Went
        }
        Some(Ask::Abort) => {
            *handed = Some(Ask::Abort);
            enter_abort(tx);
            Turn::Went
        }
        Some(Ask::End) => {
            *handed = Some(Ask::End);
            abort_for_memory(tx)
        }
        None => abort_for_memory(tx),
    }
}
