ghost use Rattle.std.specs.Prelude.{◌≡◌, ◌≤◌, [], None, map, string_bytes};
ghost use Rattle.xc_sessions.specs.Headline.{AreServed, IsServedRun, status_of, wanted_of};
ghost use Rattle.xc_sessions.specs.Options.{serve_settings_of};
ghost use Rattle.xc_sessions.specs.Parts.{AreWorked, sessions_in};
ghost use Rattle.xc_model.specs.Live.{IsScripted};
ghost use Rattle.xc_station.specs.Stations.{KeepsOrigin, NobodyLives};

use crate::start::{ServeStarted, start};
use crate::{Serve, ServeStatus, Status};
use std::alloc::{AllocGlobal, Global};
use std::sync::Wait;
use std::thread::Threads;
use xc_edge::{Sink, Source};
use xc_host::Host;
use xc_links::{Duplex, Links};
use xc_meet::{Session, serve_sessions};
use xc_outcome::{Finish, finish_run, finish_without};
use xc_roomy::Roomy;
use xc_station::{Station, drain};

// The sessions of a station, and what is left of its jobs run to its end.
struct Worked<H: Host, M, L> {
    station: Station<H>,
    links: L,
    // None where there was no memory for them.
    sessions: Option<Roomy<Session<M>>>,
}

// Hands a station to the sessions of some links, and runs what is left of its jobs to the end. Where there is no memory for
// sessions, no link is accepted.
fn work<
    R: AllocGlobal + Threads + Wait + Sync,
    H: Host + Send,
    M: Duplex + Send + Drop,
    L: Links<Link = M> + Send + Drop,
>(rt: &R, station: Station<H>, links: L, count: u32) -> Worked<H, M, L>
    requires scripted { IsScripted station.opening.script }
    requires journal { station.journal ≡ [] }
    requires at_most { count ≤ 64 }
    ensures origin { KeepsOrigin station result.station }
    ensures ended { NobodyLives result.station.jobs }
    ensures sessions { AreWorked M.told count (record { old = L.told links; new = L.told result.links })
        result.station.journal result.sessions }
{
    match serve_sessions(rt, rt.alloc(), station, links, count) {
        Ok((served, links, sessions)) => {
            let mut station = served;
            drain(&mut station);
            Worked {
                station,
                links,
                sessions: Some(sessions),
            }
        }
        Err((unserved, links)) => {
            let mut station = unserved;
            drain(&mut station);
            Worked {
                station,
                links,
                sessions: None,
            }
        }
    }
}

// The status where a run was ended: a sink that failed comes first, then an accept that failed, then memory that ran out for the
// sessions.
fn status_of(ran: Status, has_sessions: bool, has_failed: bool) -> ServeStatus
    ensures { result ≡ status_of ran has_sessions has_failed }
{
    if ran == Status::WriteFault {
        return ServeStatus::Ran(ran);
    }
    if has_failed {
        return ServeStatus::AcceptFault;
    }
    if !has_sessions {
        return ServeStatus::Ran(Status::NoMemory);
    }
    ServeStatus::Ran(ran)
}

// The sessions that there were.
fn listed<M>(alloc: Global, sessions: Option<Roomy<Session<M>>>) -> Roomy<Session<M>>
    ensures { result.items ≡ sessions_in sessions }
{
    match sessions {
        Some(sessions) => sessions,
        None => Roomy::new(alloc),
    }
}

/// Reads a script from the source, accepts as many links as the words say, one after another, and serves each in a thread of its own,
/// or in this one where none can be had. Then it runs to the end what is left of the jobs, and writes the text to the sink.
///
/// `words` are those of the command line after the program's name. With a script that isn't run, one line is written that says why, no
/// link is accepted, and the host is given back. The links come back with what is to come of them. It may wait, for links too.
pub fn serve_run<
    R: AllocGlobal + Threads + Wait + Sync,
    S: Source,
    K: Sink,
    H: Host + Send,
    M: Duplex + Send + Drop,
    L: Links<Link = M> + Send + Drop,
>(rt: &R, words: &[String], source: &mut S, sink: &mut K, host: H, links: L) -> Serve<H, M, L>
    // The headline, a status with its cause, completeness, and the host that is given back: all as without sessions. The status is
    // another one only where an accept failed, or memory ran out for the sessions.
    ensures served { IsServedRun H.model (map string_bytes words.now) (record {
      edges = record {
        source = record { old = S.told source.old; new = S.told source.new };
        sink = record { old = K.told sink.old; new = K.told sink.new };
      };
      links = record { old = L.told links; new = L.told result.links };
    }) host result }

    // The sessions are those of the links in the order of accepting, as many as were wanted, unless an accept failed. Each link got
    // the answers to its lines; the entries in them stand at their places in the journal, none in the answers of two sessions.
    ensures sessions { AreServed M.told (wanted_of (serve_settings_of (map string_bytes words.now)))
        (record { old = L.told links; new = L.told result.links }) result }

    // Nothing is read if the words are refused.
    ensures unread { serve_settings_of (map string_bytes words.now) ≡ None → source.new ≡ source.old }
{
    let alloc = rt.alloc();
    let failed_before = links.faults();
    match start(alloc, words, source, host) {
        Ok(started) => {
            let ServeStarted { station, chosen } = started;
            let worked = work(rt, station, links, chosen.sessions);
            let Worked {
                station,
                links,
                sessions,
            } = worked;
            let finish = finish_run(alloc, sink, station, None);
            let has_failed = links.faults() > failed_before;
            let status = status_of(finish.status, sessions.is_some(), has_failed);
            Serve {
                status,
                end: finish.end,
                host: finish.host,
                sessions: listed(alloc, sessions),
                links,
            }
        }
        Err(not_run) => {
            let finish = finish_without(sink, not_run);
            Serve {
                status: ServeStatus::Ran(finish.status),
                end: finish.end,
                host: finish.host,
                sessions: Roomy::new(alloc),
                links,
            }
        }
    }
}
