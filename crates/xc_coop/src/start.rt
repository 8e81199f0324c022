//! From the words of a command line to a station before its first turn.

ghost use Rattle.std.specs.Prelude.{◌≡◌, IfErr, IfOk, None, map, string_bytes};
ghost use Rattle.xc_coop.specs.Headline.{coop_choice_of};
ghost use Rattle.xc_coop.specs.Lines.{coop_usage_line};
ghost use Rattle.xc_coop.specs.Options.{coop_settings_of};
ghost use Rattle.xc_coop.specs.Parts.{IsCoopStarted};
ghost use Rattle.xc_outcome.specs.Due.{due_bytes};
ghost use Rattle.xc_outcome.specs.Said.{IsCaused, IsDueAlone};

use crate::usage::usage;
use crate::{CoopChosen, SettingsErr, Status, coop_settings};
use std::alloc::Global;
use xc_edge::Source;
use xc_host::Host;
use xc_outcome::{Choice, NotRun, no_memory, prepare};
use xc_station::Station;

/// A station before its first turn, and what the words of the command line chose for its run.
#[derive(Drop)]
pub struct CoopStarted<H: Host> {
    pub station: Station<H>,
    pub chosen: CoopChosen,
}

/// Starts what the words and the source say.
pub fn start<S: Source, H: Host>(
    alloc: Global,
    words: &[String],
    source: &mut S,
    host: H,
) -> Result<CoopStarted<H>, NotRun<H>>
    ensures started { IfOk result (λ s. IsCoopStarted H.model (map string_bytes words.now)
        (record { old = S.told source.old; new = S.told source.new }) host s) }
    ensures due { IfErr result (λ n. IsDueAlone coop_usage_line n.status (due_bytes n.due) × (n.host ≡ host)) }
    ensures caused { IfErr result (λ n. IsCaused (coop_choice_of (map string_bytes words.now)) H.model.takes_scripts
        (record { old = S.told source.old; new = S.told source.new }) n.status) }
    ensures unread { coop_settings_of (map string_bytes words.now) ≡ None → source.new ≡ source.old }
{
    let chosen = match coop_settings(alloc, words) {
        Ok(chosen) => chosen,
        Err(SettingsErr::Usage) => {
            return Err(NotRun {
                status: Status::Usage,
                due: usage(),
                host,
            });
        }
        Err(SettingsErr::NoMemory) => return Err(no_memory(host)),
    };
    let choice = Choice {
        rules: chosen.rules,
        seed: None,
    };
    match prepare(alloc, choice, source, host) {
        Ok(station) => Ok(CoopStarted { station, chosen }),
        Err(not_run) => Err(not_run),
    }
}
