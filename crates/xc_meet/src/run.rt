ghost use Rattle.std.specs.Prelude.{◌≡◌, ◌≤◌, [], IfOk, IfErr, length};
ghost use Rattle.xc_meet.specs.Members.{AreAll};
ghost use Rattle.xc_model.specs.Live.{IsScripted};
ghost use Rattle.xc_station.specs.Stations.{IsFrontOf, KeepsOrigin};

use crate::all::serve_all;
use crate::session::Session;
use std::alloc::{AllocFailed, Global};
use std::sync::Wait;
use std::thread::Threads;
use xc_host::Host;
use xc_links::{Duplex, Links};
use xc_roomy::Roomy;
use xc_station::Station;
use xc_turnstile::Turnstile;

// The same with the station in its box, and with room for the sessions.
fn serve_boxed<
    L: Duplex + Send + Drop,
    Ls: Links<Link = L> + Send + Drop,
    H: Host + Send,
    R: Threads + Wait + Sync,
>(
    rt: &R,
    alloc: Global,
    boxed: Box<Station<H>>,
    links: Ls,
    backwards: Roomy<Session<L>>,
    count: u32,
) -> Result<(Box<Station<H>>, Ls, Roomy<Session<L>>), (Box<Station<H>>, Ls)>
    requires scripted { IsScripted boxed.value.opening.script }
    requires few { length boxed.value.journal ≤ 4294967295 }
    requires at_most { count ≤ 64 }
    requires room { (backwards.items ≡ []) × (count ≤ backwards.spare) }
    ensures origin { IfOk result (λ r. KeepsOrigin boxed.value r.0.value) }
    ensures front { IfOk result (λ r. IsFrontOf boxed.value.journal r.0.value.journal) }
    ensures sessions { IfOk result (λ r.
        AreAll L.told r.0.value.journal (record { old = Ls.told links; new = Ls.told r.1 }) count r.2.items) }
    ensures err { IfErr result (λ r. (r.0 ≡ boxed) × (r.1 ≡ links)) }
{
    match Turnstile::new(alloc, boxed) {
        Ok((shop, pass)) => {
            let (pass, links, sessions) = serve_all(
                rt, alloc, &shop, pass, links, backwards, count,
            );
            let mut sessions = sessions;
            sessions.reverse();
            Ok((shop.close(pass), links, sessions))
        }
        Err(boxed) => Err((boxed, links)),
    }
}

/// Hands a station of a script to the sessions of some links, and takes it back when all have ended. Where there is no memory for the
/// list of sessions, the station's box or a turnstile, no link is accepted and both come back as they were. It may wait.
pub fn serve_sessions<
    L: Duplex + Send + Drop,
    Ls: Links<Link = L> + Send + Drop,
    H: Host + Send,
    R: Threads + Wait + Sync,
>(
    rt: &R,
    alloc: Global,
    station: Station<H>,
    links: Ls,
    count: u32,
) -> Result<(Station<H>, Ls, Roomy<Session<L>>), (Station<H>, Ls)>
    requires scripted { IsScripted station.opening.script }
    requires few { length station.journal ≤ 4294967295 }
    requires at_most { count ≤ 64 }
    ensures origin { IfOk result (λ r. KeepsOrigin station r.0) }
    ensures front { IfOk result (λ r. IsFrontOf station.journal r.0.journal) }
    ensures sessions { IfOk result (λ r. AreAll L.told r.0.journal (record { old = Ls.told links; new = Ls.told r.1 }) count r.2.items) }
    ensures err { IfErr result (λ r. (r.0 ≡ station) × (r.1 ≡ links)) }
{
    let mut backwards = Roomy::new(alloc);
    if backwards.reserve(count).is_err() {
        return Err((station, links));
    }
    match Box::new(alloc, station) {
        Ok(boxed) => match serve_boxed(rt, alloc, boxed, links, backwards, count) {
            Ok((boxed, links, sessions)) => Ok((Box::into_inner(boxed), links, sessions)),
            Err((boxed, links)) => Err((Box::into_inner(boxed), links)),
        },
        Err(failed) => {
            let AllocFailed { value } = failed;
            Err((value, links))
        }
    }
}
