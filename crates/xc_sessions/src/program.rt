ghost use Rattle.std.specs.Prelude.{◌≡◌, IfOk, None, Ok, OnErr, map, string_bytes};
ghost use Rattle.xc_outcome.specs.Said.{IsWordless};
ghost use Rattle.xc_sessions.specs.Headline.{AreServed, IsServedRun, IsWordlessRun, wanted_of};
ghost use Rattle.xc_sessions.specs.Lines.{serve_usage_line};
ghost use Rattle.xc_sessions.specs.Options.{port_of, serve_settings_of};
ghost use Rattle.xc_sessions.specs.declared.serve.Serve.{Serve as Served};

use crate::usage::usage;
use crate::{Serve, ServeStatus, Status, serve_port, serve_run};
use std::alloc::{AllocGlobal, Global};
use std::sync::Wait;
use std::thread::Threads;
use std::{io, mem};
use xc_data::NoMemory;
use xc_edge::{Sink, Source};
use xc_host::Host;
use xc_links::{Duplex, Links};
use xc_outcome::{Due, write_due};

const DEFAULT_PORT: u16 = 7040;

// The words could not be had: for lack of memory, or since one is no text, which no option takes.
fn say_wordless<K: Sink>(sink: &mut K, error: io::Error) -> Status
    ensures { IsWordless serve_usage_line result (record { old = K.told sink.old; new = K.told sink.new }) }
{
    if error.kind() == io::ErrorKind::OutOfMemory {
        return write_due(sink, Status::NoMemory, &Due::NoMemory);
    }
    write_due(sink, Status::Usage, &usage())
}

/// The words with the port on which links are awaited: 7040 where they can't be had, are refused or name none. Where memory runs out
/// to read them, they are handed on as words that could not be had, so that no link is awaited on another port.
pub fn with_port(alloc: Global, words: io::Result<Vec<String>>) -> (io::Result<Vec<String>>, u16)
    ensures words { IfOk result.0 (λ given. words ≡ Ok given) }
    ensures port { IfOk result.0 (λ given. result.1 ≡ port_of (serve_settings_of (map string_bytes given.items))) }
    ensures wordless { OnErr words (result.0 ≡ words) }
{
    let Ok(words) = words else {
        return (words, DEFAULT_PORT);
    };
    match serve_port(alloc, words.as_slice()) {
        Ok(port) => (Ok(words), port),
        Err(NoMemory) => (
            Err(io::Error::from(io::ErrorKind::OutOfMemory)),
            DEFAULT_PORT,
        ),
    }
}

/// Runs the whole program, with the words of its command line if they could be had. What the run leaves
/// is not freed: the system takes all memory back at once, right after. Links are closed.
///
/// Only `main` may wait and start threads; it hands that on as `rt`.
pub fn run_program<
    R: AllocGlobal + Threads + Wait + Sync,
    S: Source,
    K: Sink,
    H: Host + Send,
    M: Duplex + Send + Drop,
    L: Links<Link = M> + Send + Drop,
>(
    rt: &R,
    words: io::Result<Vec<String>>,
    source: &mut S,
    sink: &mut K,
    host: H,
    links: L,
) -> ServeStatus
    // It is as `serve_run` finishes, of which only the status is left.
    ensures finished { IfOk words (λ words. (serve : Served H M L) × (serve.status ≡ result)
        × IsServedRun H.model (map string_bytes words.items) (record {
          edges = record {
            source = record { old = S.told source.old; new = S.told source.new };
            sink = record { old = K.told sink.old; new = K.told sink.new };
          };
          links = record { old = L.told links; new = L.told serve.links };
        }) host serve
        × AreServed M.told (wanted_of (serve_settings_of (map string_bytes words.items)))
        (record { old = L.told links; new = L.told serve.links }) serve) }

    // Nothing is read if the words are refused.
    ensures unread { IfOk words (λ words. serve_settings_of (map string_bytes words.items) ≡ None → source.new ≡ source.old) }

    // Without its words nothing is read.
    ensures wordless { OnErr words (
        IsWordlessRun result (record { old = K.told sink.old; new = K.told sink.new }) × (source.new ≡ source.old)) }
{
    match words {
        Ok(words) => {
            let served = serve_run(rt, words.as_slice(), source, sink, host, links);
            let Serve {
                status,
                end,
                host,
                ..
            } = served;
            mem::forget(end);
            mem::forget(host);
            status
        }
        Err(error) => ServeStatus::Ran(say_wordless(sink, error)),
    }
}
