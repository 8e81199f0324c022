ghost use Rattle.std.specs.Prelude.{◌≡◌, ◌≤◌, true, IfErr, IfOk, IsTrue};
ghost use Rattle.xc_data.specs.Limits.{KeepsLimits};
ghost use Rattle.xc_host.specs.Contents.{opened};
ghost use Rattle.xc_text.specs.Scripts.{IsScript};
ghost use Rattle.xc_model.specs.Opened.{IsOpening};
ghost use Rattle.xc_station.specs.Stations.{now_of};
ghost use Rattle.xc_live.specs.Opening.{IsOpenedBy};

use crate::Desk;
use std::alloc::Global;
use xc_data::Chunk;
use xc_host::{Host, OpenErr};
use xc_model::Rules;
use xc_station::{NotStarted, Station};
use xc_text::{ParseErr, Script, parse};

/// Why a desk was not opened: its text is no script, or the host can't open what the text names.
#[derive(Drop)]
pub enum WhyNotOpened {
    Text(ParseErr),
    Host(OpenErr),
}

/// A host that a desk was not opened over, as it was, and why.
#[derive(Drop)]
pub struct NotOpened<H> {
    pub host: H,
    pub why: WhyNotOpened,
}

impl<H: Host> Desk<H> {
    /// A desk before its first call, over a script that clients ask. Each of its jobs is a client.
    pub fn start(
        alloc: Global,
        host: H,
        script: Script,
        rules: Rules,
    ) -> Result<Desk<H>, NotStarted<H>>
        requires clients { script.clients ≡ true }
        requires script { IsScript script }
        requires limits { KeepsLimits script.outline }
        requires rules { (1 ≤ rules.attempts) × (1 ≤ rules.undo_tries) }
        ensures ok { IfOk result (λ d. (d.opening ≡ record { script = script; faults = H.model.fault_count host }) × (d.rules ≡ rules)) }
        ensures opening { IfOk result (λ d. IsOpening script (now_of H.model d)) }
        ensures told { IsTrue H.model.tells
            → IfOk result (λ d. H.model.contents d.host ≡ opened script.outline.prologue.objects) }
        ensures err { IfErr result (λ n. n.host ≡ host) }
    {
        match Station::start(alloc, host, script, rules) {
            Ok(station) => Ok(Desk { station }),
            Err(not) => Err(not),
        }
    }

    /// The desk of a text: a script, each job of which is a client, numbered from 1 in the order of the text. The words, files, pipes
    /// and pairs are those of its prologue. What its blocks ask is not looked at.
    pub fn open(alloc: Global, host: H, text: &Chunk, rules: Rules) -> Result<Desk<H>, NotOpened<H>>
        requires rules { (1 ≤ rules.attempts) × (1 ≤ rules.undo_tries) }
        ensures ok { IfOk result (λ d. IsOpenedBy H.model text.now d × (d.rules ≡ rules)) }
        ensures err { IfErr result (λ n. n.host ≡ host) }
    {
        let script = match parse(alloc, text) {
            Ok(script) => script,
            Err(why) => {
                return Err(NotOpened {
                    host,
                    why: WhyNotOpened::Text(why),
                });
            }
        };
        match Desk::start(alloc, host, script.for_clients(), rules) {
            Ok(desk) => Ok(desk),
            Err(not) => Err(NotOpened {
                host: not.host,
                why: WhyNotOpened::Host(not.why),
            }),
        }
    }
}
