ghost use Rattle.std.specs.Prelude.{◌≡◌, IfOk, IsOk, OnErr};
ghost use Rattle.xc_live.specs.Closing.{NobodyIsActive};
ghost use Rattle.xc_live.specs.HandingOut.{AreHandedOut};

use crate::Desk;
use xc_data::{Entry, Items, NoMemory};
use xc_host::Host;

impl<H: Host> Desk<H> {
    /// Hands out the entries of the journal that weren't handed out yet, in their order: each entry is handed out once. Nothing else
    /// changes. Where 10,000 wait a begin answers that the journal is full, until they are handed out. It takes memory where a
    /// transaction is active; without it nothing changes.
    pub fn hand_out(&mut self) -> Result<Items<Entry>, NoMemory>
        ensures out { IfOk result (λ entries. AreHandedOut entries (record { old = self.old; new = self.new })) }
        ensures err { OnErr result (self.new ≡ self.old) }
        ensures succeeds { NobodyIsActive self.old → IsOk result }
    {
        Ok(self.station.hand_out()?)
    }
}
