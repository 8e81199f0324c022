//! From the words of a command line to a station before its first turn.

ghost use Rattle.std.specs.Prelude.{◌≡◌, IfErr, IfOk, None, map, string_bytes};
ghost use Rattle.xc_outcome.specs.Due.{due_bytes};
ghost use Rattle.xc_outcome.specs.Said.{IsCaused, IsDueAlone};
ghost use Rattle.xc_sessions.specs.Headline.{serve_choice_of};
ghost use Rattle.xc_sessions.specs.Lines.{serve_usage_line};
ghost use Rattle.xc_sessions.specs.Options.{serve_settings_of};
ghost use Rattle.xc_sessions.specs.Parts.{IsServeStarted};

use crate::usage::usage;
use crate::{ServeChosen, SettingsErr, Status, serve_settings};
use std::alloc::Global;
use xc_edge::Source;
use xc_host::Host;
use xc_outcome::{Choice, NotRun, no_memory, prepare};
use xc_station::Station;

/// A station before its first turn, and what the words of the command line chose for its run.
#[derive(Drop)]
pub struct ServeStarted<H: Host> {
    pub station: Station<H>,
    pub chosen: ServeChosen,
}

/// Starts what the words and the source say.
pub fn start<S: Source, H: Host>(
    alloc: Global,
    words: &[String],
    source: &mut S,
    host: H,
) -> Result<ServeStarted<H>, NotRun<H>>
    ensures started { IfOk result (λ s. IsServeStarted H.model (map string_bytes words.now)
        (record { old = S.told source.old; new = S.told source.new }) host s) }
    ensures due { IfErr result (λ n. IsDueAlone serve_usage_line n.status (due_bytes n.due) × (n.host ≡ host)) }
    ensures caused { IfErr result (λ n. IsCaused (serve_choice_of (map string_bytes words.now)) H.model.takes_scripts
        (record { old = S.told source.old; new = S.told source.new }) n.status) }
    ensures unread { serve_settings_of (map string_bytes words.now) ≡ None → source.new ≡ source.old }
{
    let chosen = match serve_settings(alloc, words) {
        Ok(chosen) => chosen,
        Err(SettingsErr::Usage) => {
            return Err(NotRun {
                status: Status::Usage,
                due: usage(),
                host,
            });
        }
        Err(SettingsErr::NoMemory) => return Err(no_memory(host)),
    };
    let choice = Choice {
        rules: chosen.rules,
        seed: None,
    };
    match prepare(alloc, choice, source, host) {
        Ok(station) => Ok(ServeStarted { station, chosen }),
        Err(not_run) => Err(not_run),
    }
}
