ghost use Rattle.std.specs.Prelude.{◌≡◌, ◌≤◌, ◌<◌, ◌+◌, ◌++◌, [], List, slice_get, slice_set, vec_capacity, length};
ghost use Rattle.std.specs.Prelude.{All, IfOk, MatchOption, OnOk, OnErr, Some, false, map, true};
ghost use Rattle.xc_data.specs.declared.call.LateEnd.TheVariants as PlainEnds;
ghost use Rattle.xc_script.specs.Ask.{block_place};
ghost use Rattle.xc_station.specs.declared.job.Job.{Job as PlainJob};
ghost use Rattle.xc_station.specs.Jobs.{child_view, job_view, job_views};
ghost use Rattle.xc_station.specs.Starting.{StartsChild};
ghost use Rattle.xc_station.specs.Stations.{AreAhead};
ghost use Rattle.xc_model.specs.Starts.{IsStart, is_block_in};
ghost use Rattle.xc_model.specs.Entering.{behind_commit, started_job};
ghost use Rattle.xc_model.specs.Moment.{TxView, Active};

use crate::job::{Activity, Child, Job};
use crate::tx::Tx;
use std::alloc::Global;
use xc_data::{Ident, JobLine, LateEnd, NoMemory};
use xc_roomy::Roomy;
use xc_text::Script;

/// The most jobs that are started in a run, those of the opening included.
const MOST_JOBS: usize = 1000;

// A job that a committing job's transaction starts. It has the variables and the handles of the commit, and no slots.
fn child_of(
    alloc: Global,
    script: &Script,
    place: usize,
    block: Ident,
    job: &Job,
) -> Result<Child, NoMemory>
    requires { place ≡ block_place script.now block }
    ensures { (tx : TxView) → (job_view job.now).doing ≡ Active tx
        → IfOk result (λ child. child_view child ≡ started_job script.now (behind_commit (job_view job.now) tx) block) }
{
    let mut me = *job.tx.me;
    me.made = 0;
    me.stored = 0;
    Ok(Child {
        block,
        place: job.place.child(script, place)?,
        tx: Tx::new(alloc, &me)?,
    })
}

// Room for one started job more: for its name, for the jobs, their lines and their marks.
fn make_room(
    jobs: &mut Vec<Job>,
    lines: &mut Roomy<JobLine>,
    ahead: &mut Vec<u32>,
    started: &mut Roomy<Ident>,
) -> Result<(), NoMemory>
    requires few { length started.old.items < 1000 }
    requires jobs { length jobs.old.items ≤ length started.old.items }
    requires lines { lines.old.items ≡ [] }
    requires ahead { length ahead.old.items ≡ length jobs.old.items + 1 }
    ensures same { (jobs.new.items ≡ jobs.old.items) × (lines.new.items ≡ []) × (ahead.new.items ≡ ahead.old.items)
        × (started.new.items ≡ started.old.items) }
    ensures started { OnOk result (1 ≤ started.new.spare) }
    ensures jobs { OnOk result (length started.old.items + 1 ≤ vec_capacity jobs.new) }
    ensures more_jobs { vec_capacity jobs.old ≤ vec_capacity jobs.new }
    ensures lines { OnOk result (length started.old.items + 1 ≤ lines.new.spare) }
    ensures more_lines { lines.old.spare ≤ lines.new.spare }
    ensures ahead { OnOk result (length started.old.items + 2 ≤ vec_capacity ahead.new) }
    ensures more_ahead { vec_capacity ahead.old ≤ vec_capacity ahead.new }
{
    let count = started.len() + 1;
    started.reserve(1)?;
    jobs.reserve(count - jobs.len())?;
    lines.reserve(count as u32)?;
    ahead.reserve(count + 1 - ahead.len())?;
    Ok(())
}

/// What a thread call asks for: a block, and its place in the script, where a block has the name.
#[derive(Clone, Copy)]
pub struct Start {
    pub block: Ident,
    pub place: Option<usize>,
}

// The child of a job, after those that it has.
fn push_child(
    alloc: Global,
    script: &Script,
    place: usize,
    block: Ident,
    job: &mut Job,
) -> Result<(), NoMemory>
    requires { place ≡ block_place script.now block }
    ensures same { job_view job.new ≡ job_view job.old }
    ensures ok { OnOk result (StartsChild script.now job.old block PlainEnds.Done job.new.children.items) }
    ensures err { OnErr result (job.new.children.items ≡ job.old.children.items) }
{
    let child = child_of(alloc, script, place, block, job)?;
    job.children.push(child)?;
    Ok(())
}

/// The next late call of the job in this place starts a job: how it ends. A job that is started waits with it, and has room in the
/// list of jobs, for its line and for its mark.
pub fn start_job(
    alloc: Global,
    script: &Script,
    start: Start,
    jobs: &mut Vec<Job>,
    at: usize,
    lines: &mut Roomy<JobLine>,
    ahead: &mut Vec<u32>,
    started: &mut Roomy<Ident>,
) -> LateEnd
    requires within { at < length jobs.old.items }
    requires place { MatchOption start.place (is_block_in script.now start.block ≡ false)
        (λ place. (is_block_in script.now start.block ≡ true) × (place ≡ block_place script.now start.block)) }
    requires started { (length jobs.old.items ≤ length started.old.items) × (length started.old.items ≤ 1000) }
    requires lines { lines.old.items ≡ [] }
    requires ahead { length ahead.old.items ≡ length jobs.old.items + 1 }
    ensures end { IsStart script.now started.old.items start.block result started.new.items }
    ensures jobs { (job : PlainJob) → slice_get jobs.old.items at ≡ Some job → (next : PlainJob)
        × (jobs.new.items ≡ slice_set jobs.old.items at next) × (job_view next ≡ job_view job)
        × StartsChild script.now job start.block result next.children.items }
    ensures same { (lines.new.items ≡ []) × (ahead.new.items ≡ ahead.old.items) }
    ensures jobs_room { length started.old.items ≤ vec_capacity jobs.old → length started.new.items ≤ vec_capacity jobs.new }
    ensures lines_room { length started.old.items ≤ lines.old.spare → length started.new.items ≤ lines.new.spare }
    ensures ahead_room { length started.old.items + 1 ≤ vec_capacity ahead.old → length started.new.items + 1 ≤ vec_capacity ahead.new }
{
    // Before memory is asked for: both of these ends depend on the script and on the jobs so far, and on no memory.
    let Some(place) = start.place else {
        return LateEnd::NoScript;
    };
    if started.len() >= MOST_JOBS {
        return LateEnd::Full(0);
    }
    // All the room that the job will need, since nothing may fail in the turn of the entry.
    if make_room(jobs, lines, ahead, started).is_err() {
        return LateEnd::NoMemory(0);
    }
    match push_child(alloc, script, place, start.block, &mut jobs[at]) {
        Ok(()) => {
            // Only now it has a number: a start that ends otherwise takes none.
            started.enter(start.block);
            LateEnd::Done
        }
        Err(NoMemory) => LateEnd::NoMemory(0),
    }
}

// A job that is live from now on.
fn live(alloc: Global, child: Child) -> Job
    ensures seen { job_view result ≡ child_view child }
    ensures alone { result.children.items ≡ [] }
{
    Job {
        block: child.block,
        attempts: None,
        busy: 0,
        place: child.place,
        handed: None,
        activity: Activity::Idle,
        tx: child.tx,
        children: Vec::new(alloc),
    }
}

/// Jobs that were started are live, after the others. It takes no memory.
pub fn join(alloc: Global, jobs: &mut Vec<Job>, ahead: &mut Vec<u32>, children: Vec<Child>)
    requires jobs { length jobs.old.items + length children.items ≤ vec_capacity jobs.old }
    requires few { length jobs.old.items + length children.items ≤ 1000 }
    requires ahead { length ahead.old.items + length children.items ≤ vec_capacity ahead.old }
    requires marks { AreAhead jobs.old.items ahead.old.items }
    ensures jobs { (more : List PlainJob) × (jobs.new.items ≡ jobs.old.items ++ more)
        × (job_views more ≡ map child_view children.items) × All (λ (job : PlainJob). job.children.items ≡ []) more }
    ensures marks { AreAhead jobs.new.items ahead.new.items }
    ensures rooms { (vec_capacity jobs.new ≡ vec_capacity jobs.old) × (vec_capacity ahead.new ≡ vec_capacity ahead.old) }
{
    for child in children {
        jobs.push_reserved(live(alloc, child));
        ahead.push_reserved(jobs.len() as u32 + 1);
    }
}
