ghost use Rattle.std.specs.Bool.{Decides};
ghost use Rattle.std.specs.Prelude.{◌≡◌, ◌<◌, [], ◌∷◌, ◌++◌, ◌^◌, List, ℕ, IfOk, None, OnOk, true};
ghost use Rattle.std.specs.Prelude.{is_some, length, map, slice_get, slice_set};
ghost use Rattle.std.specs.declared.option.Option.TheVariants.{Some};
ghost use Rattle.xc_asked.specs.Walking.{AreFew, children, job_entered, last_told, opened_script_job};
ghost use Rattle.xc_model.specs.Asked.{IsAskedBy, IsAskedEntry, ScriptJob as PlainJob, StartsJobs, after_jobs};
ghost use Rattle.xc_model.specs.Asked.{opening_jobs, script_job_of, script_started};
ghost use Rattle.xc_script.specs.Ask.{next_body};
ghost use Rattle.xc_text.specs.Scripts.{IsScript};

use crate::clients::client_end;
use crate::kept::started;
use crate::script_job::{Followed, ScriptJob};
use crate::starts::are_starts;
use std::alloc::Global;
use std::marker::Model;
use xc_data::{Entry, Ident, LateEnd, NoMemory, Outcome};
use xc_script::Ask;
use xc_text::Script;

/// The started jobs of a script in the order of their numbers, each before its next transaction.
#[derive(Drop)]
pub struct ScriptJobs {
    jobs: Vec<ScriptJob>,
}

impl Model for ScriptJobs {
    ghost use Rattle.std.specs.Prelude.{List};
    ghost use Rattle.xc_model.specs.Asked.{ScriptJob as PlainJob};

    ghost Value = { List PlainJob };

    ghost view = { λ a. a.jobs.items };
}

// The jobs of the opening, of the blocks of these names.
fn opened_jobs(alloc: Global, script: &Script, blocks: &[Ident]) -> Result<Vec<ScriptJob>, NoMemory>
    requires { IsScript script.now }
    ensures { IfOk result (λ jobs. jobs.items ≡ map (opened_script_job script.now) blocks.now) }
{
    let mut jobs = Vec::new(alloc);
    for block in blocks {
        jobs.push(ScriptJob::opened(alloc, script, *block)?)?;
    }
    Ok(jobs)
}

// The job at a place starts one of this block, behind all others.
#[tactic(auto, using(std::proofs::lemmas::Option::get_or_from_slice_get))]
fn start_one(
    jobs: &mut Vec<ScriptJob>,
    script: &Script,
    at: usize,
    block: Ident,
) -> Result<(), NoMemory>
    requires { at < length jobs.old.items }
    ensures child { (j : PlainJob) → slice_get jobs.old.items at ≡ Some j
        → OnOk result (jobs.new.items ≡ jobs.old.items ++ script_started script.now j.job block ∷ []) }
    ensures more { OnOk result (length jobs.old.items < length jobs.new.items) }
{
    let child = jobs[at].start(script, block)?;
    jobs.push(child)?;
    Ok(())
}

// The job at a place starts jobs of these blocks, behind all others.
fn start_jobs(
    jobs: &mut Vec<ScriptJob>,
    script: &Script,
    at: usize,
    blocks: &[Ident],
) -> Result<(), NoMemory>
    requires { at < length jobs.old.items }
    ensures { (j : PlainJob) → slice_get jobs.old.items at ≡ Some j
        → OnOk result (jobs.new.items ≡ jobs.old.items ++ map (script_started script.now j.job) blocks.now) }
{
    for block in blocks {
        start_one(jobs, script, at, *block)?;
    }
    Ok(())
}

// What was asked last of an entry whose job isn't started.
fn last_of_none(script: &Script, entry: &Entry) -> Ask
    ensures { result ≡ last_told script.now None entry.now }
{
    if script.clients {
        return client_end(&entry.outcome);
    }
    Ask::End
}

// Follows an entry of the job at a place.
#[tactic(auto, using(std::proofs::lemmas::Option::get_or_from_slice_get))]
fn follow_at(
    jobs: &mut Vec<ScriptJob>,
    script: &Script,
    at: usize,
    entry: &Entry,
) -> Result<Followed, NoMemory>
    requires read { IsScript script.now }
    requires place { at < length jobs.old.items }
    requires few { (count : ℕ) × AreFew count jobs.old.items × (count < 2 ^ 32) }
    ensures count { length jobs.new.items ≡ length jobs.old.items }
    ensures followed { (j : PlainJob) → slice_get jobs.old.items at ≡ Some j
        → IfOk result (λ f. (f.last ≡ last_told script.now (Some j) entry.now)
        × Decides f.is_asked (IsAskedBy script.now j.job f.last entry.now)
        × (f.is_asked ≡ true → jobs.new.items ≡ slice_set jobs.old.items at (job_entered script.now j entry.now))) }
{
    jobs[at].follow(script, entry)
}

// The calls of an entry that start jobs ended as the script has it, where so many jobs are started.
fn has_starts(script: &Script, started: usize, entry: &Entry) -> bool
    ensures { (blocks : List (List ℕ)) → length blocks ≡ started
        → Decides result (StartsJobs script.now blocks entry.now entry.now.outcome) }
{
    let (calls, replies) = (entry.calls.as_slice(), entry.replies.as_slice());
    match &entry.outcome {
        Outcome::Committed { late } => are_starts(script, started, calls, replies, late.as_slice()),
        Outcome::Aborted(_) => true,
    }
}

// The jobs that an entry's commit started come behind all others; its job stands at this place.
fn start_children(
    jobs: &mut Vec<ScriptJob>,
    script: &Script,
    at: usize,
    entry: &Entry,
) -> Result<(), NoMemory>
    requires { at < length jobs.old.items }
    ensures { (j : PlainJob) → slice_get jobs.old.items at ≡ Some j
        → OnOk result (jobs.new.items ≡ jobs.old.items ++ children script.now j.job entry.now entry.now.outcome) }
{
    let (calls, replies) = (entry.calls.as_slice(), entry.replies.as_slice());
    match &entry.outcome {
        Outcome::Committed { late } => {
            let alloc = *jobs.allocator();
            let blocks = started(alloc, calls, replies, late.as_slice())?;
            start_jobs(jobs, script, at, blocks.as_slice())
        }
        Outcome::Aborted(_) => Ok(()),
    }
}

impl ScriptJobs {
    /// Those of the opening.
    pub fn new(alloc: Global, script: &Script) -> Result<ScriptJobs, NoMemory>
        requires { IsScript script.now }
        ensures { IfOk result (λ jobs. jobs ≡ opening_jobs script.now) }
    {
        let jobs = opened_jobs(alloc, script, script.outline().jobs.as_slice())?;
        Ok(ScriptJobs { jobs })
    }

    /// How many jobs are started.
    pub fn len(&self) -> usize
        ensures { result ≡ length self.now }
    {
        self.jobs.len()
    }

    /// Whether a transaction is left to the job at this place.
    pub fn has_next(&self, script: &Script, at: usize) -> bool
        requires { at < length self.now }
        ensures { (j : PlainJob) → slice_get self.now at ≡ Some j → result ≡ is_some (next_body script.now j.job) }
    {
        self.jobs[at].has_next(script)
    }

    /// The name of the block of the job at this place.
    pub fn block(&self, at: usize) -> Ident
        requires { at < length self.now }
        ensures { (j : PlainJob) → slice_get self.now at ≡ Some j → result ≡ j.block }
    {
        self.jobs[at].block
    }

    /// Follows an entry: what was asked last, whether the script asked each call, and on to what the entry leads to. Where the script
    /// didn't, the jobs may stand anywhere.
    pub fn follow(&mut self, script: &Script, entry: &Entry) -> Result<Followed, NoMemory>
        requires read { IsScript script.now }
        requires few { (count : ℕ) × AreFew count self.old × (count < 2 ^ 32) }
        ensures last { IfOk result (λ f. f.last ≡ last_told script.now (script_job_of self.old entry.now) entry.now) }
        ensures asked { IfOk result (λ f. Decides f.is_asked (IsAskedEntry script.now self.old f.last entry.now)) }
        ensures after { IfOk result (λ f. f.is_asked ≡ true → self.new ≡ after_jobs script.now self.old entry.now) }
    {
        let at = entry.job.saturating_sub(1) as usize;
        if self.jobs.len() <= at {
            return Ok(Followed {
                last: last_of_none(script, entry),
                is_asked: false,
            });
        }
        let followed = follow_at(&mut self.jobs, script, at, entry)?;
        if !followed.is_asked || !has_starts(script, self.jobs.len(), entry) {
            return Ok(Followed {
                last: followed.last,
                is_asked: false,
            });
        }
        start_children(&mut self.jobs, script, at, entry)?;
        Ok(followed)
    }
}
