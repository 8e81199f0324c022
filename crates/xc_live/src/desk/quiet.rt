ghost use Rattle.std.specs.Prelude.{◌≡◌, true, false, is_some};
ghost use Rattle.xc_live.specs.Closing.{NobodyIsActive, SomebodyIsActive};
ghost use Rattle.xc_live.specs.Told.{tx_at};
ghost use Rattle.xc_station.specs.Jobs.{job_views};

use crate::Desk;
use xc_host::Host;
use xc_station::Station;

// Whether a client has a transaction.
fn has_one<H: Host>(station: &Station<H>, client: u32) -> bool
    ensures { result ≡ is_some (tx_at (job_views station.now.jobs) client) }
{
    station.phase(client).is_some()
}

// Whether no client has one.
#[tactic(auto, using(crate::proofs::Quiet::nobody_at_all))]
fn nobody_has_one<H: Host>(station: &Station<H>) -> bool
    ensures yes { result ≡ true → NobodyIsActive station.now }
    ensures no { result ≡ false → SomebodyIsActive station.now }
{
    let mut client = 0;
    while client < station.count() {
        client += 1;
        if has_one(station, client) {
            return false;
        }
    }
    true
}

impl<H: Host> Desk<H> {
    /// Whether no client has a transaction, so that the desk may be closed.
    pub fn is_quiet(&self) -> bool
        ensures yes { result ≡ true → NobodyIsActive self.now }
        ensures no { result ≡ false → SomebodyIsActive self.now }
    {
        nobody_has_one(&self.station)
    }
}
