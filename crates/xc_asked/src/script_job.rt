ghost use Rattle.std.specs.Bool.{Decides};
ghost use Rattle.std.specs.Prelude.{◌≡◌, ◌+◌, ◌<◌, ◌^◌, if◌then◌else◌, IfOk, IsSome, List, OnOk, Some, is_some, true, ℕ};
ghost use Rattle.xc_asked.specs.Walking.{IsBehindReplies, job_outcome, last_told};
ghost use Rattle.xc_model.specs.Asked.{AsksEach, IsAskedBy, asked_after, job_abort, script_started};
ghost use Rattle.xc_script.specs.Ask.{Job, block_place, fresh_job, next_body};
ghost use Rattle.xc_script.specs.Blocks.{block_from};
ghost use Rattle.xc_script.specs.Position.{at_begin, job_of};
ghost use Rattle.xc_text.specs.Scripts.{IsScript};
ghost use Rattle.xc_text.specs.declared.script.Script.{Script as PlainScript};

use crate::blocks::block_place;
use crate::clients::client_end;
use crate::walk::follow;
use std::alloc::Global;
use std::marker::Model;
use xc_data::{Cause, Entry, Ident, NoMemory, Outcome};
use xc_script::{Ask, JobState};
use xc_text::Script;

/// What a script asked of an entry's transaction.
#[derive(Drop)]
pub struct Followed {
    /// What was asked after its last reply, also where the calls aren't the script's; of a client as far as a text tells it.
    pub last: Ask,
    /// Each of its calls was asked. Clients may ask any.
    pub is_asked: bool,
}

/// A started job before its next transaction: the name of its block, and where it stands in the script.
#[derive(Drop)]
pub(crate) struct ScriptJob {
    pub(crate) block: Ident,
    place: JobState,
}

impl Model for ScriptJob {
    ghost use Rattle.std.specs.Prelude.{◌≡◌};
    ghost use Rattle.std.specs.Coded.{codes};
    ghost use Rattle.xc_model.specs.Asked.{ScriptJob as PlainJob};
    ghost use Rattle.xc_script.specs.Position.{at_begin, job_of};

    ghost Value = { PlainJob };

    ghost view = { λ a. record { block = a.block; job = job_of a.place } };

    ghost invariant = { λ a. a.place ≡ at_begin (job_of a.place) };
}

// Follows an entry of the job at this place, which has a transaction left, by its block.
fn walk_block(place: &mut JobState, script: &Script, entry: &Entry) -> Result<Followed, NoMemory>
    requires read { IsScript script.now }
    requires left { IsSome (next_body script.now (job_of place.old)) }
    requires begin { place.old ≡ at_begin (job_of place.old) }
    ensures last { IfOk result (λ f. f.last ≡ asked_after script.now (job_of place.old) entry.now.replies) }
    ensures asked { IfOk result (λ f. Decides f.is_asked
        (AsksEach (block_from script.now (job_of place.old)) entry.now.calls entry.now.replies)) }
    ensures behind { OnOk result (IsBehindReplies script.now (job_of place.old) entry.now.replies place.new) }
{
    place.begin()?;
    let is_asked = follow(
        place,
        script,
        entry.calls.as_slice(),
        entry.replies.as_slice(),
    )?;
    let last = place.ask(script)?;
    Ok(Followed { last, is_asked })
}

// Follows an entry of the job at this place, which has a transaction left. What a client asked is what the entry tells.
fn walk(place: &mut JobState, script: &Script, entry: &Entry) -> Result<Followed, NoMemory>
    requires read { IsScript script.now }
    requires left { IsSome (next_body script.now (job_of place.old)) }
    requires begin { place.old ≡ at_begin (job_of place.old) }
    ensures last { (block : List ℕ) → IfOk result (λ f. f.last
        ≡ last_told script.now (Some (record { block = block; job = job_of place.old })) entry.now) }
    ensures asked { IfOk result (λ f. Decides f.is_asked (IsAskedBy script.now (job_of place.old) f.last entry.now)) }
    ensures behind { OnOk result (IsBehindReplies script.now (job_of place.old) entry.now.replies place.new) }
{
    let followed = walk_block(place, script, entry)?;
    if script.clients {
        return Ok(Followed {
            last: client_end(&entry.outcome),
            is_asked: true,
        });
    }
    Ok(followed)
}

// An abort for this cause is the end of its transaction.
fn is_end(cause: &Cause) -> bool
    ensures { (job : Job) → job_abort job cause.now ≡ (if result then record job { next = job.next + 1 } else job) }
{
    match cause {
        Cause::Asked | Cause::Stuck { .. } => true,
        Cause::NoMemory | Cause::Conflict { .. } | Cause::Revoked { .. } => false,
    }
}

// Goes to the start of the next transaction, after an entry that was followed.
fn end(place: &mut JobState, entry: &Entry)
    requires { place.old.next < 2 ^ 32 }
    ensures { (script : PlainScript) (job : Job) → IsBehindReplies script job entry.now.replies place.old
        → place.new ≡ at_begin (job_outcome script job entry.now entry.now.outcome) }
{
    match &entry.outcome {
        Outcome::Committed { late } => {
            place.set_ends(
                entry.calls.as_slice(),
                entry.replies.as_slice(),
                late.as_slice(),
            );
            place.pass();
        }
        Outcome::Aborted(report) => {
            place.back();
            if is_end(&report.cause) {
                place.pass();
            }
        }
    }
}

impl ScriptJob {
    /// A job of the opening, of the block of this name.
    pub(crate) fn opened(
        alloc: Global,
        script: &Script,
        block: Ident,
    ) -> Result<ScriptJob, NoMemory>
        requires { IsScript script.now }
        ensures { IfOk result (λ j. j ≡ record { block = block; job = fresh_job script.now (block_place script.now block) }) }
    {
        let place = block_place(script, &block);
        Ok(ScriptJob {
            block,
            place: JobState::new(alloc, script, place)?,
        })
    }

    /// A job that this one starts, of the block of this name.
    pub(crate) fn start(&self, script: &Script, block: Ident) -> Result<ScriptJob, NoMemory>
        ensures { IfOk result (λ j. j ≡ script_started script.now self.now.job block) }
    {
        let place = block_place(script, &block);
        Ok(ScriptJob {
            block,
            place: self.place.child(script, place)?,
        })
    }

    /// Whether a transaction is left.
    pub(crate) fn has_next(&self, script: &Script) -> bool
        ensures { result ≡ is_some (next_body script.now self.now.job) }
    {
        self.place.has_next(script)
    }

    /// Follows an entry of the job. Where a call isn't the script's it goes back to where it was.
    pub(crate) fn follow(&mut self, script: &Script, entry: &Entry) -> Result<Followed, NoMemory>
        requires read { IsScript script.now }
        requires few { self.old.job.next < 2 ^ 32 }
        ensures last { IfOk result (λ f. f.last ≡ last_told script.now (Some self.old) entry.now) }
        ensures asked { IfOk result (λ f. Decides f.is_asked (IsAskedBy script.now self.old.job f.last entry.now)) }
        ensures after { IfOk result (λ f. f.is_asked ≡ true
            → self.new ≡ record self.old { job = job_outcome script.now self.old.job entry.now entry.now.outcome }) }
    {
        if !self.place.has_next(script) {
            return Ok(Followed {
                last: Ask::Commit,
                is_asked: false,
            });
        }
        let followed = walk(&mut self.place, script, entry);
        match &followed {
            Ok(Followed { is_asked: true, .. }) => end(&mut self.place, entry),
            Ok(
                Followed {
                    is_asked: false,
                    ..
                },
            )
            | Err(_) => self.place.back(),
        }
        followed
    }
}
