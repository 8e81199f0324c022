//! From a choice to a station before its first turn.

ghost use Rattle.std.specs.Prelude.{◌≡◌, ◌≢◌, ◌≤◌, ℕ, Ok, Err, Some};
ghost use Rattle.std.specs.Prelude.{IfOk, IfErr, IsErrOf, IsSome, true};
ghost use Rattle.xc_data.specs.Limits.{KeepsLimits};
ghost use Rattle.xc_edge.specs.View.{HasFailed};
ghost use Rattle.xc_text.specs.Scripts.{parse_of, IsScript};
ghost use Rattle.xc_text.specs.declared.script.Script.{Script};
ghost use Rattle.xc_tokens.specs.declared.why.Why.{Why};
ghost use Rattle.xc_outcome.specs.Due.{due_bytes};
ghost use Rattle.xc_outcome.specs.Outcomes.{IsOfBytes, IsPrepared, IsRefusedBy, IsStartOf};
ghost use Rattle.xc_outcome.specs.Runs.{is_refused_by, IsInput};
ghost use Rattle.xc_outcome.specs.Said.{IsCaused, IsDueAnyway};

use crate::lines::refused;
use crate::{Choice, Due, LIMIT, Status};
use std::alloc::Global;
use xc_data::{Chunk, NoMemory};
use xc_edge::{ReadErr, Source, read_up_to};
use xc_generator::generate;
use xc_host::{Host, OpenErr};
use xc_model::Rules;
use xc_station::{NotStarted, Station};
use xc_text::{ParseErr, Script, Why, parse};

/// Why nothing is run, what is to be written of it, and the host as it was handed in.
#[derive(Drop)]
pub struct NotRun<H> {
    pub status: Status,
    pub due: Due,
    pub host: H,
}

fn not_run<H>(host: H, status: Status, due: Due) -> NotRun<H>
    requires { IsDueAnyway status (due_bytes due) }
    ensures due { IsDueAnyway result.status (due_bytes result.due) }
    ensures same { (result.status ≡ status) × (result.host ≡ host) }
{
    NotRun { status, due, host }
}

/// Nothing is run, since there is no memory for it.
pub fn no_memory<H>(host: H) -> NotRun<H>
    ensures due { IsDueAnyway result.status (due_bytes result.due) }
    ensures same { (result.status ≡ Status.NoMemory) × (result.host ≡ host) }
{
    not_run(host, Status::NoMemory, Due::NoMemory)
}

fn of_refusal<H: Drop>(alloc: Global, host: H, line: u32, why: Why) -> NotRun<H>
    ensures due { IsDueAnyway result.status (due_bytes result.due) }
    ensures status { IsRefusedBy line why result.status }
    ensures host { result.host ≡ host }
{
    match refused(alloc, line, why) {
        Ok(text) => not_run(host, Status::Refused { line, why }, Due::Line(text)),
        Err(_) => no_memory(host),
    }
}

// Of a script that was not started.
fn of_refused_start<H: Drop>(not_started: NotStarted<H>) -> NotRun<H>
    ensures due { IsDueAnyway result.status (due_bytes result.due) }
    ensures host { result.host ≡ not_started.host }
    ensures scripted { result.status ≡ Status.NotScripted → not_started.why ≡ OpenErr.NotScripted }
    ensures refused { (line : ℕ) (why : Why) → result.status ≢ Status.Refused line why }
    ensures bytes { IsOfBytes result.status }
{
    let NotStarted { host, why } = not_started;
    match why {
        OpenErr::NotScripted => not_run(host, Status::NotScripted, Due::NotScripted),
        OpenErr::NoMemory => no_memory(host),
    }
}

// The script of these bytes, which its literals share.
fn script_in(alloc: Global, bytes: Vec<u8>) -> Result<Script, ParseErr>
    ensures ok { IfOk result (λ script. parse_of bytes.items ≡ Ok script) }
    ensures refused { (line : _) (why : _) → IsErrOf result (ParseErr.Refused line why) → parse_of bytes.items ≡ Err (line, why) }
    ensures script { IfOk result IsScript }
    ensures limits { IfOk result (λ script. KeepsLimits script.outline) }
{
    parse(alloc, &Chunk::from_vec(bytes)?)
}

// Starts the script of these bytes.
fn start_bytes<H: Host>(
    alloc: Global,
    host: H,
    bytes: Vec<u8>,
    rules: Rules,
) -> Result<Station<H>, NotRun<H>>
    requires rules { (1 ≤ rules.attempts) × (1 ≤ rules.undo_tries) }
    ensures started { IfOk result (λ s. IsStartOf H.model bytes.items rules host s) }
    ensures due { IfErr result (λ n. IsDueAnyway n.status (due_bytes n.due) × (n.host ≡ host)) }
    ensures refused { IfErr result (λ n. (line : ℕ) (why : Why) → n.status ≡ Status.Refused line why
        → parse_of bytes.items ≡ Err (line, why)) }
    ensures unscripted { IfErr result (λ n. n.status ≡ Status.NotScripted
        → (script : Script) × (parse_of bytes.items ≡ Ok script) × (is_refused_by H.model.takes_scripts script ≡ true)) }
    ensures bytes { IfErr result (λ n. IsOfBytes n.status) }
{
    let script = match script_in(alloc, bytes) {
        Ok(script) => script,
        Err(ParseErr::Refused { line, why }) => return Err(of_refusal(alloc, host, line, why)),
        Err(ParseErr::NoMemory) => return Err(no_memory(host)),
    };
    match Station::start(alloc, host, script, rules) {
        Ok(station) => Ok(station),
        Err(not_started) => Err(of_refused_start(not_started)),
    }
}

// The bytes that are run: with a seed those that are generated, and then nothing is read; otherwise those of the source.
fn input<S: Source>(alloc: Global, source: &mut S, seed: Option<u64>) -> Result<Vec<u8>, ReadErr>
    ensures ok { IfOk result (λ bytes. IsInput seed (record { old = S.told source.old; new = S.told source.new }) bytes.items) }
    ensures failed { IsErrOf result ReadErr.Failed → HasFailed (S.told source.old) (S.told source.new) }
    ensures unread { IsSome seed → source.new ≡ source.old }
{
    match seed {
        Some(seed) => match generate(alloc, seed) {
            Ok(text) => Ok(text.into_vec()),
            Err(NoMemory) => Err(ReadErr::NoMemory),
        },
        None => read_up_to(alloc, source, LIMIT),
    }
}

/// Reads or generates a script and starts it over the host, by the rules of the choice. What is run of it, and how, is the caller's.
pub fn prepare<S: Source, H: Host>(
    alloc: Global,
    choice: Choice,
    source: &mut S,
    host: H,
) -> Result<Station<H>, NotRun<H>>
    requires rules { (1 ≤ choice.rules.attempts) × (1 ≤ choice.rules.undo_tries) }
    ensures prepared { IfOk result (λ s. IsPrepared H.model choice (record { old = S.told source.old; new = S.told source.new }) host s) }
    ensures due { IfErr result (λ n. IsDueAnyway n.status (due_bytes n.due) × (n.host ≡ host)) }
    ensures caused { IfErr result (λ n. IsCaused (Some choice) H.model.takes_scripts
        (record { old = S.told source.old; new = S.told source.new }) n.status) }

    // With a seed nothing is read.
    ensures seeded { IsSome choice.seed → source.new ≡ source.old }
{
    match input(alloc, source, choice.seed) {
        Ok(bytes) => start_bytes(alloc, host, bytes, choice.rules),
        Err(ReadErr::Failed) => Err(not_run(host, Status::ReadFault, Due::ReadFault)),
        Err(ReadErr::NoMemory) => Err(no_memory(host)),
    }
}
