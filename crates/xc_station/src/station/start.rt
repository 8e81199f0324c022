ghost use Rattle.std.specs.Prelude.{◌≡◌, ◌<◌, ◌≤◌, ◌-◌, ◌+◌, length, [], ◌&&◌, not, None, true, false};
ghost use Rattle.std.specs.Prelude.{All, IfOk, IfErr, map, IsTrue, Some};
ghost use Rattle.xc_data.specs.Limits.{KeepsLimits};
ghost use Rattle.xc_host.specs.Contents.{needs_scripted, opened};
ghost use Rattle.xc_script.specs.Ask.{block_place};
ghost use Rattle.xc_text.specs.Scripts.{IsScript};
ghost use Rattle.xc_world.specs.Opening.{opening_handles};
ghost use Rattle.xc_world.specs.World.{beginning};
ghost use Rattle.xc_model.specs.Opened.{IsOpening, opened_job};
ghost use Rattle.xc_station.specs.declared.job.Job.{Job as PlainJob};
ghost use Rattle.xc_station.specs.Jobs.{job_view, job_views};
ghost use Rattle.xc_station.specs.Places.{IndexesBlocks};
ghost use Rattle.xc_station.specs.Stations.{AreAhead};
ghost use Rattle.xc_station.specs.Stations.{now_of};

use crate::Station;
use crate::buffers::Buffers;
use crate::calls::Shared;
use crate::job::{Activity, Job};
use crate::places::{block_at, places_of};
use crate::run_result::{NotStarted, Opening};
use crate::tx::Tx;
use std::alloc::Global;
use xc_data::{Ident, JobLine, NoMemory, Private};
use xc_host::{Host, OpenErr};
use xc_journal::Journal;
use xc_maps::IdentMap;
use xc_model::Rules;
use xc_roomy::Roomy;
use xc_script::JobState;
use xc_sentinel::Sentinels;
use xc_text::Script;
use xc_txmem::Words;
use xc_world::opening_private;

// The job of the block at this place, at the start of it, with the prologue's handles.
fn opened_job(
    alloc: Global,
    script: &Script,
    place: usize,
    block: Ident,
    me: &Private,
) -> Result<Job, NoMemory>
    requires script { IsScript script.now }
    requires place { place ≡ block_place script.now block }
    requires handles { me.now ≡ beginning (opening_handles script.now.outline) }
    ensures job { IfOk result (λ job. job_view job ≡ opened_job script.now block) }
    ensures alone { IfOk result (λ job. job.children.items ≡ []) }
{
    Ok(Job {
        block,
        place: JobState::new(alloc, script, place)?,
        attempts: None,
        busy: 0,
        handed: None,
        activity: Activity::Idle,
        tx: Tx::new(alloc, me)?,
        children: Vec::new(alloc),
    })
}

// The jobs of the script's job blocks, each at the start of its block.
fn opened_jobs(
    alloc: Global,
    script: &Script,
    places: &IdentMap<usize>,
) -> Result<Vec<Job>, NoMemory>
    requires script { IsScript script.now }
    requires limits { KeepsLimits script.now.outline }
    requires places { IndexesBlocks script.now places.now }
    ensures jobs { IfOk result (λ jobs. job_views jobs.items ≡ map (opened_job script.now) script.now.outline.jobs) }
    ensures alone { IfOk result (λ jobs. All (λ (job : PlainJob). job.children.items ≡ []) jobs.items) }
{
    let me = opening_private(alloc, script.outline())?;
    let mut jobs = Vec::with_capacity(alloc, script.outline().jobs.len())?;
    for block in script.outline().jobs.as_slice() {
        match block_at(script, places, *block) {
            Some(place) => jobs.push(opened_job(alloc, script, place, *block, &me)?)?,
            // Each job has a block of its name.
            None => unreachable!(),
        }
    }
    Ok(jobs)
}

// The blocks of the jobs that are started at the opening.
fn opened_names(alloc: Global, names: &[Ident]) -> Result<Roomy<Ident>, NoMemory>
    requires { length names.now ≤ 1000 }
    ensures { IfOk result (λ started. started.items ≡ names.now) }
{
    let mut started = Roomy::new(alloc);
    started.reserve(names.len() as u32)?;
    for name in names {
        started.enter(*name);
    }
    Ok(started)
}

// Room for a line of each job.
fn room_for(alloc: Global, jobs: &Vec<Job>) -> Result<Roomy<JobLine>, NoMemory>
    requires { length jobs.now.items ≤ 1000 }
    ensures { IfOk result (λ lines. (length jobs.now.items ≤ lines.spare) × (lines.items ≡ [])) }
{
    let mut lines = Roomy::new(alloc);
    lines.reserve(jobs.len() as u32)?;
    Ok(lines)
}

// For 0 and each of these jobs the next number.
fn ahead_of(alloc: Global, jobs: &Vec<Job>) -> Result<Vec<u32>, NoMemory>
    requires { length jobs.now.items ≤ 1000 }
    ensures { IfOk result (λ ahead. AreAhead jobs.now.items ahead.items) }
{
    let mut ahead = Vec::with_capacity(alloc, jobs.len() + 1)?;
    for number in 0..jobs.len() + 1 {
        ahead.push(number as u32 + 1)?;
    }
    Ok(ahead)
}

// What a start takes memory for.
#[derive(Drop)]
struct Rooms {
    places: IdentMap<usize>,
    words: Words,
    buffers: Buffers,
    jobs: Vec<Job>,
    started: Roomy<Ident>,
    lines: Roomy<JobLine>,
    ahead: Vec<u32>,
}

// The memory of a start.
fn make_rooms(alloc: Global, script: &Script) -> Result<Rooms, NoMemory>
    requires script { IsScript script.now }
    requires limits { KeepsLimits script.now.outline }
    ensures places { IfOk result (λ made. IndexesBlocks script.now made.places) }
    ensures words { IfOk result (λ made. made.words ≡ script.now.outline.words) }
    ensures buffers { IfOk result (λ made. made.buffers ≡ record { kept = []; noted = 0 }) }
    ensures jobs { IfOk result (λ made. job_views made.jobs.items ≡ map (opened_job script.now) script.now.outline.jobs) }
    ensures alone { IfOk result (λ made. All (λ (job : PlainJob). job.children.items ≡ []) made.jobs.items) }
    ensures started { IfOk result (λ made. made.started.items ≡ script.now.outline.jobs) }
    ensures lines { IfOk result (λ made. (length made.jobs.items ≤ made.lines.spare) × (made.lines.items ≡ [])) }
    ensures ahead { IfOk result (λ made. AreAhead made.jobs.items made.ahead.items) }
{
    let places = places_of(alloc, script)?;
    let words = Words::new(alloc, script.outline().words.as_slice())?;
    let buffers = Buffers::new(alloc)?;
    let jobs = opened_jobs(alloc, script, &places)?;
    let started = opened_names(alloc, script.outline().jobs.as_slice())?;
    let lines = room_for(alloc, &jobs)?;
    let ahead = ahead_of(alloc, &jobs)?;
    Ok(Rooms {
        places,
        words,
        buffers,
        jobs,
        started,
        lines,
        ahead,
    })
}

impl<H: Host> Station<H> {
    /// A station before its first turn: the script's words, its objects at the host, and its jobs started. Its
    /// memory is taken before the host is opened.
    pub fn start(
        alloc: Global,
        host: H,
        script: Script,
        rules: Rules,
    ) -> Result<Station<H>, NotStarted<H>>
        requires script { IsScript script }
        requires limits { KeepsLimits script.outline }
        requires rules { (1 ≤ rules.attempts) × (1 ≤ rules.undo_tries) }
        ensures ok { IfOk result (λ s. (s.opening ≡ record { script = script; faults = H.model.fault_count host }) × (s.rules ≡ rules)
            × (s.taken ≡ 0)) }
        ensures unturned { IfOk result (λ s. (s.events ≡ 0) × (s.last ≡ None)) }
        ensures opening { IfOk result (λ s. IsOpening script (now_of H.model s)) }
        ensures told { IsTrue H.model.tells
            → IfOk result (λ s. H.model.contents s.host ≡ opened script.outline.prologue.objects) }
        ensures scripted { IfOk result (λ s. not H.model.takes_scripts && needs_scripted script.outline.prologue ≡ false) }
        ensures refused { IfErr result
            (λ n. n.why ≡ OpenErr.NotScripted → not H.model.takes_scripts && needs_scripted script.outline.prologue ≡ true) }
        ensures err { IfErr result (λ n. n.host ≡ host) }
    {
        let mut host = host;
        let faults = host.faults();
        let Ok(rooms) = make_rooms(alloc, &script) else {
            return Err(NotStarted {
                host,
                why: OpenErr::NoMemory,
            });
        };
        if let Err(why) = host.open_with(&script.outline().prologue) {
            return Err(NotStarted { host, why });
        }
        let sentinels = Sentinels::new(alloc);
        let journal = Journal::new(alloc);
        Ok(Station {
            alloc,
            opening: Opening { script, faults },
            places: rooms.places,
            rules,
            shared: Shared {
                host,
                buffers: rooms.buffers,
                words: rooms.words,
                sentinels,
                started: rooms.started,
            },
            journal,
            active: 0,
            jobs: rooms.jobs,
            lines: rooms.lines,
            ahead: rooms.ahead,
            taken: 0,
            events: 0,
            last: None,
        })
    }
}
