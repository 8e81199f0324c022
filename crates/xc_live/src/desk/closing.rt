ghost use Rattle.std.specs.Prelude.{◌≡◌, ◌<◌, sum_by};
ghost use Rattle.xc_buffers.specs.Items.{AreKept};
ghost use Rattle.xc_data.specs.Counts.{RisesBy};
ghost use Rattle.xc_data.specs.Faults.{entry_faults};
ghost use Rattle.xc_host.specs.Kept.{with_kept};
ghost use Rattle.xc_host.specs.Model.{plan_of};
ghost use Rattle.xc_model.specs.Ending.{IsTrueEnd};
ghost use Rattle.xc_model.specs.Setting.{setting};
ghost use Rattle.xc_live.specs.Closing.{AreQuiet, HasDismissed, NobodyIsActive};
ghost use Rattle.xc_journal.specs.Told.{waiting_of};
ghost use Rattle.xc_station.specs.Stations.{NobodyLives, entries_held, now_of, setting_of};

use crate::Desk;
use xc_host::Host;
use xc_script::Ask;
use xc_station::{End, Station};

// Ends a client, where it hasn't ended.
fn dismiss<H: Host>(station: &mut Station<H>, client: u32)
    requires first { 0 < client }
    requires quiet { AreQuiet (setting_of H.model station.old) (now_of H.model station.old) }
    ensures quiet { AreQuiet (setting_of H.model station.new) (now_of H.model station.new) }
    ensures dismissed { HasDismissed client (record { old = station.old; new = station.new }) }
{
    if !station.live(client) {
        return;
    }
    station.hand_in(client, Ask::End);
    station.turn(client);
}

// Ends all clients.
fn dismiss_all<H: Host>(station: &mut Station<H>)
    requires { AreQuiet (setting_of H.model station.old) (now_of H.model station.old) }
    ensures ended { NobodyLives station.new.jobs }
    ensures same { (station.new.journal ≡ station.old.journal) × (station.new.gone ≡ station.old.gone)
        × (station.new.words ≡ station.old.words)
        × (station.new.opening ≡ station.old.opening) × (station.new.rules ≡ station.old.rules) }
{
    let mut client = 0;
    while client < station.count() {
        client += 1;
        dismiss(station, client);
    }
}

impl<H: Host> Desk<H> {
    /// Ends all clients, and gives what the run leaves. It takes no memory.
    pub fn close(self) -> End<H>
        requires { NobodyIsActive self }
        ensures opening { result.opening ≡ self.opening }
        ensures same { (result.journal.items ≡ self.journal) × (result.words ≡ self.words) }

        // Its journal holds the entries that weren't handed out yet.
        ensures held { waiting_of result.journal ≡ entries_held self }

        // What `Station::finish` says: the journal is true of the plain machine, and leads to the words and to the host.
        ensures whole { IsTrueEnd (setting self.opening.script self.rules H.model.tells) result.journal.items
            (record { words = result.words; contents = with_kept (H.model.contents result.host) result.kept; lines = result.jobs }) }
        ensures kept { AreKept result.kept }
        ensures faults { RisesBy (sum_by entry_faults result.journal.items) self.opening.faults (H.model.fault_count result.host) }
        ensures plan { H.model.plan result.host ≡ plan_of result.opening.script.outline.prologue }
    {
        let Desk { station } = self;
        let mut station = station;
        dismiss_all(&mut station);
        station.finish()
    }
}
