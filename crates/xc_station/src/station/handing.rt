//! The journal handed out.

ghost use Rattle.std.specs.Prelude.{◌≡◌, ◌<◌, ◌≤◌, [], length, true, false, IfOk, IsOk, OnErr, OnOk};
ghost use Rattle.xc_model.specs.Live.{has_clients};
ghost use Rattle.xc_model.specs.Moment.{actives};
ghost use Rattle.xc_station.specs.Jobs.{job_views};
ghost use Rattle.xc_station.specs.Stations.{entries_due, entries_held};

use crate::Station;
use crate::begin_tx::MOST_WAITING;
use xc_data::{Entry, Items, NoMemory};
use xc_host::Host;

impl<H: Host> Station<H> {
    /// Whether one more transaction may begin, by the entries that wait to be handed out: 10,000 wait at most, those of the active
    /// transactions among them. It takes no memory.
    pub fn has_room(&self) -> bool
        ensures room { result ≡ true → entries_due self.now < 10000 }
        ensures full { result ≡ false → 10000 ≤ entries_due self.now }
    {
        self.journal.waiting() + (self.active as usize) < MOST_WAITING
    }

    /// Hands out the entries that weren't handed out yet, where clients ask. All turns go on as before. It takes memory for the entries
    /// of the active transactions alone; without it nothing changes.
    pub fn hand_out(&mut self) -> Result<Items<Entry>, NoMemory>
        requires { has_clients self.old.opening.script ≡ true }
        ensures out { IfOk result (λ entries. entries ≡ entries_held self.old) }
        ensures ok { OnOk result (self.new ≡ record self.old { gone = length self.old.journal }) }
        ensures err { OnErr result (self.new ≡ self.old) }
        ensures succeeds { actives (job_views self.old.jobs) ≡ [] → IsOk result }
    {
        let entries = self.journal.hand_out(self.alloc, self.active)?;
        Ok(entries)
    }
}
