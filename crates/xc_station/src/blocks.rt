//! The two ends of an inner block.

ghost use Rattle.std.specs.Prelude.{◌≡◌, ◌<◌, [], IfOk, OnOk, OnErr, None, is_some, true};
ghost use Rattle.xc_script.specs.Answers.{answered};
ghost use Rattle.xc_script.specs.Blocks.{fits_block};
ghost use Rattle.xc_script.specs.Position.{walk_of, IsAskedCall, IsPastSilent};
ghost use Rattle.xc_data.specs.declared.call.Reply.TheVariants as PlainReply;
ghost use Rattle.xc_model.specs.Live.{IsScripted};
ghost use Rattle.xc_model.specs.Movers.{IsSameBegin};
ghost use Rattle.xc_model.specs.PlainSteps.{copied, saved_by};
ghost use Rattle.xc_model.specs.RunningRows.{opens_or_closes};
ghost use Rattle.xc_station.specs.Acting.{in_no_block};
ghost use Rattle.xc_station.specs.Backs.{HasSave};
ghost use Rattle.xc_station.specs.Jobs.{begun_of, tx_view};

use crate::tx::{Saved, Tx};
use std::alloc::Global;
use xc_data::{Call, NoMemory, Reply};
use xc_script::JobState;
use xc_text::Script;

// Opens a block: what a back brings back is kept. Without memory nothing is, and no block is open.
fn open(alloc: Global, place: &mut JobState, tx: &mut Tx) -> Result<(), NoMemory>
    requires shut { tx.old.saved ≡ None }
    requires none { tx.old.undo.ended ≡ [] }
    ensures tx { in_no_block (tx_view tx.new) ≡ in_no_block (tx_view tx.old) }
    ensures saved { OnOk result ((tx_view tx.new).saved ≡ Some (copied (tx_view tx.new))) }
    ensures err { OnErr result ((tx.new.saved ≡ None) × (place.new ≡ place.old)) }
    ensures place { OnOk result (place.new ≡ record place.old { saved = Some place.old.variables.values }) }
    ensures save { HasSave tx.new tx.new.saved }
    ensures begun { begun_of tx.new ≡ begun_of tx.old }
    ensures notes { (tx.new.calls ≡ tx.old.calls) × (tx.new.replies ≡ tx.old.replies) }
{
    let taken = tx.taken.count();
    let late = tx.late.count();
    // never reached in memory
    if taken == u32::MAX || late == u32::MAX {
        return Err(NoMemory);
    }
    let me = Box::new(alloc, *tx.me)?;
    tx.writes.save()?;
    place.save()?;
    tx.saved = Some(Saved {
        me,
        records: tx.undo.mark(),
        taken,
        late,
    });
    Ok(())
}

// Closes the block that is open: what its save kept is dropped.
fn close(place: &mut JobState, tx: &mut Tx)
    requires together { (is_some tx.old.saved ≡ true) × (is_some place.old.saved ≡ true) }
    requires save { HasSave tx.old tx.old.saved }
    ensures tx { tx_view tx.new ≡ in_no_block (tx_view tx.old) }
    ensures place { place.new ≡ record place.old { saved = None } }
    ensures save { HasSave tx.new tx.new.saved }
    ensures begun { begun_of tx.new ≡ begun_of tx.old }
    ensures notes { (tx.new.calls ≡ tx.old.calls) × (tx.new.replies ≡ tx.old.replies) }
{
    tx.saved = None;
    tx.writes.keep();
    place.keep();
}

/// Does the save or the keep that is asked, and goes on after its reply. Without memory the place is as it was.
pub fn do_block_call(
    alloc: Global,
    script: &Script,
    place: &mut JobState,
    tx: &mut Tx,
    call: &Call,
) -> Result<Reply, NoMemory>
    requires ends { opens_or_closes call.now ≡ true }
    requires asked { IsScripted script.now → IsAskedCall script.now place.old }
    requires settled { IsPastSilent script.now place.old }
    requires none { tx.old.undo.ended ≡ [] }
    requires fits { fits_block (is_some tx.old.saved) call.now ≡ true }
    requires together { is_some place.old.saved ≡ is_some tx.old.saved }
    requires save { HasSave tx.old tx.old.saved }
    ensures done { IfOk result (λ reply. reply ≡ PlainReply.Done) }
    ensures tx { in_no_block (tx_view tx.new) ≡ in_no_block (tx_view tx.old) }
    ensures saved { OnOk result ((tx_view tx.new).saved ≡ saved_by call.now (tx_view tx.old).saved (copied (tx_view tx.new))) }
    ensures err_saved { OnErr result ((tx_view tx.new).saved ≡ (tx_view tx.old).saved) }
    ensures save { HasSave tx.new tx.new.saved }
    ensures begun { begun_of tx.new ≡ begun_of tx.old }
    ensures notes { (tx.new.calls ≡ tx.old.calls) × (tx.new.replies ≡ tx.old.replies) }
    ensures walk { OnOk result (walk_of script.now place.new ≡ answered (walk_of script.now place.old) PlainReply.Done) }
    ensures nearer { IsScripted script.now → OnOk result (place.old.at < place.new.at) }
    ensures begin { IsSameBegin place.old place.new }
    ensures values { OnOk result (place.new.saved ≡ saved_by call.now place.old.saved (walk_of script.now place.old).variables.values) }
    ensures together { OnOk result (is_some place.new.saved ≡ is_some tx.new.saved) }
    ensures err_place { OnErr result (place.new ≡ place.old) }
{
    if matches!(call, Call::Save) {
        open(alloc, place, tx)?;
    } else {
        close(place, tx);
    }
    place.answer(script, &Reply::Done)?;
    Ok(Reply::Done)
}
