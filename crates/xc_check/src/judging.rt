ghost use Rattle.std.specs.Prelude.{◌≡◌, ◌<◌, ◌+◌, ◌^◌, ℕ, [], ◌∷◌, ◌++◌, List, IfOk, MatchResult, length, map};
ghost use Rattle.xc_check.specs.Fronts.{begins_shown};
ghost use Rattle.xc_check.specs.Judging.{IsJudged};
ghost use Rattle.xc_check.specs.Refusals.{IsRefusedIn};
ghost use Rattle.xc_check.specs.TrueTexts.{telling};
ghost use Rattle.xc_data.specs.Limits.{KeepsLimits};
ghost use Rattle.xc_grounds.specs.Numbered.{AreNumbered};
ghost use Rattle.xc_model.specs.EntryEnds.{cause_in};
ghost use Rattle.xc_model.specs.declared.rules.Rules.{Rules as PlainRules};
ghost use Rattle.xc_shown.specs.Shown.{bare};
ghost use Rattle.xc_shown.specs.declared.shown.Shown.{Shown as PlainShown};
ghost use Rattle.xc_text.specs.Scripts.{IsScript};

use arrayvec::ArrayVec;
use std::alloc::Global;
use xc_asked::ScriptJobs;
use xc_data::{Cause, Claim, Entry, NoMemory, Outcome, Report};
use xc_grounds::Part;
use xc_judge::{Basis, Progress, Reason, Step};
use xc_model::Rules;
use xc_shown::Shown;
use xc_text::Script;

/// Where the entries that were judged so far led the machine and the script, and what their conflicts are judged by.
#[derive(Drop)]
pub(crate) struct Judging {
    pub(crate) progress: Progress,
    pub(crate) jobs: ScriptJobs,
    pub(crate) parts: Vec<Part>,
}

// Why an entry was aborted, if it was.
fn cause_of(outcome: Outcome) -> Option<Cause>
    ensures { result ≡ cause_in outcome }
{
    match outcome {
        Outcome::Committed { late: _late } => None,
        Outcome::Aborted(report) => {
            let Report {
                cause,
                records: _records,
            } = report;
            Some(cause)
        }
    }
}

// What a true entry's conflict or revocation is judged by, where the call that was asked last claims this.
fn part_of(entry: Entry, wanted: ArrayVec<Claim, 2>) -> Part
    ensures { result ≡ record {
      number = entry.tx;
      job = entry.job;
      rank = entry.rank;
      began = entry.began;
      held = entry.held;
      wanted = wanted.items;
      cause = cause_in entry.outcome;
    } }
{
    let Entry {
        tx,
        job,
        rank,
        began,
        calls: _calls,
        replies: _replies,
        held,
        outcome,
    } = entry;
    Part {
        number: tx,
        job,
        rank,
        began,
        held,
        wanted,
        cause: cause_of(outcome),
    }
}

impl Judging {
    /// Before the first entry.
    pub(crate) fn new(alloc: Global, script: &Script) -> Result<Judging, NoMemory>
        requires script { IsScript script.now }
        requires limits { KeepsLimits script.now.outline }
        ensures { (rules : PlainRules) (count : ℕ) → IfOk result (IsJudged (telling script.now rules) count []) }
    {
        Ok(Judging {
            progress: Progress::new(alloc, &script.outline)?,
            jobs: ScriptJobs::new(alloc, script)?,
            parts: Vec::new(alloc),
        })
    }

    /// Judges one entry more, whose number goes on in order.
    pub(crate) fn judge(
        self,
        script: &Script,
        rules: &Rules,
        shown: Shown,
    ) -> Result<Result<Judging, Reason>, NoMemory>
        requires script { IsScript script.now }
        requires bare { bare shown.entry ≡ shown.entry }
        requires judged { (count : ℕ) × (before : List PlainShown) × IsJudged (telling script.now rules.now) count before self
            × AreNumbered count (begins_shown (before ++ shown ∷ [])) × (length before + 1 < 2 ^ 32) }
        ensures { (count : ℕ) (before : List PlainShown) → IsJudged (telling script.now rules.now) count before self
            → AreNumbered count (begins_shown (before ++ shown ∷ []))
            → IfOk result (λ r. MatchResult r (IsJudged (telling script.now rules.now) count (before ++ shown ∷ []))
            (IsRefusedIn (telling script.now rules.now) count before shown)) }
    {
        let Judging {
            progress,
            mut jobs,
            mut parts,
        } = self;
        let basis = Basis {
            rules: *rules,
            clients: script.clients,
        };
        let followed = jobs.follow(script, &shown.entry)?;
        let stepped = match progress.step(&basis, &followed.last, shown)? {
            Step::Entered(stepped) => stepped,
            Step::Refused(reason) => return Ok(Err(reason)),
        };
        if !followed.is_asked {
            return Ok(Err(Reason::Story));
        }
        parts.push(part_of(stepped.entry, stepped.wanted))?;
        Ok(Ok(Judging {
            progress: stepped.progress,
            jobs,
            parts,
        }))
    }
}
