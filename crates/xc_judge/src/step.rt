ghost use Rattle.std.specs.Bool.{Decides};
ghost use Rattle.std.specs.Prelude.{◌≡◌, ◌≢◌, ◌<◌, ◌+◌, ◌^◌, [], ℕ, IfOk, MatchOption, MatchResult};
ghost use Rattle.xc_judge.specs.Judged.{IsInSomeTurn, IsOpenTo, IsToldBy, telling_terms};
ghost use Rattle.xc_judge.specs.Ran.{IsLedOnBy};
ghost use Rattle.xc_judge.specs.Judgement.{FailsToRun, HasNoRecords, IsFoundSo, IsJudgedSo, IsRunSo};
ghost use Rattle.xc_judge.specs.Stepped.{IsRefusedSo, IsSteppedTo, WhereEntered, WhereRefused};
ghost use Rattle.xc_model.specs.Machine.{HasReplies};
ghost use Rattle.xc_model.specs.Progress.{body_of};
ghost use Rattle.xc_shown.specs.Shown.{bare};

use crate::ran::Ran;
use crate::{Basis, Progress, Reason, Step, Stepped};
use arrayvec::ArrayVec;
use xc_data::{Claim, Entry, NoMemory, Outcome, UndoEnd};
use xc_lines::{EffectShown, UndoKind};
use xc_script::Ask;
use xc_shown::Shown;

/// An entry that was judged true, where its calls led if it committed, and what the next call claims.
#[derive(Drop)]
pub(crate) struct Judged {
    pub(crate) entry: Entry,
    pub(crate) kept: Option<Ran>,
    pub(crate) wanted: ArrayVec<Claim, 2>,
}

// No record is shown, as it is where a transaction was committed.
fn are_none(records: &[(UndoKind, UndoEnd)], effects: &[EffectShown]) -> bool
    ensures { Decides result ((records.now ≡ []) × (effects.now ≡ [])) }
{
    records.is_empty() && effects.is_empty()
}

impl Progress {
    // An entry with the records that are shown of it, and where its calls led if it committed. None where no entry that is shown so
    // has true ones.
    fn with_records(
        &self,
        basis: &Basis,
        ran: Ran,
        last: &Ask,
        shown: Shown,
    ) -> Result<Option<(Entry, Option<Ran>)>, NoMemory>
        requires ran { IsLedOnBy ran (body_of self.now.state shown.entry) shown.entry.tx shown.entry.outcome }
        requires replies { HasReplies (telling_terms basis.now) self.now shown.entry }
        requires bare { bare shown.entry ≡ shown.entry }
        ensures { IfOk result (λ found. MatchOption found (HasNoRecords basis.now self.now last.now shown)
            (IsFoundSo basis.now self.now last.now shown)) }
    {
        let Outcome::Aborted(report) = &shown.entry.outcome else {
            if are_none(shown.records.as_slice(), shown.effects.as_slice()) {
                return Ok(Some((shown.entry, Some(ran))));
            }
            return Ok(None);
        };
        let Some(report) = self.report(basis, ran, last, &report.cause, &shown)? else {
            return Ok(None);
        };
        let Shown { mut entry, .. } = shown;
        entry.outcome = Outcome::Aborted(report);
        Ok(Some((entry, None)))
    }

    // An entry's body, run again, where its job is started and its replies are true.
    fn judge_body(&self, basis: &Basis, entry: &Entry) -> Result<Result<Ran, Reason>, NoMemory>
        requires open { IsOpenTo self.now entry.now.tx }
        ensures { IfOk result (λ r. MatchResult r (λ ran. IsRunSo basis.now self.now entry.now ran)
            (FailsToRun basis.now self.now entry.now)) }
    {
        let Some(_) = self.standing_of(entry) else {
            return Ok(Err(Reason::Numbers));
        };
        let Some(ran) = self.run_again(basis, entry)? else {
            return Ok(Err(Reason::Reply));
        };
        Ok(Ok(ran))
    }

    // An entry whose job is started told its story.
    fn is_told(&self, basis: &Basis, last: &Ask, entry: &Entry) -> bool
        requires numbered { IsInSomeTurn self.now entry.now }
        ensures { Decides result (IsToldBy basis.now self.now last.now entry.now) }
    {
        match self.standing_of(entry) {
            Some(standing) => standing.is_told(basis, last, entry),
            None => false,
        }
    }

    // An entry as its text shows it: with its records, and what the next call claims, or the first reason for which it is false.
    fn judge(
        &self,
        basis: &Basis,
        last: &Ask,
        shown: Shown,
    ) -> Result<Result<Judged, Reason>, NoMemory>
        requires open { IsOpenTo self.now shown.entry.tx }
        requires bare { bare shown.entry ≡ shown.entry }
        ensures { IfOk result (λ r. MatchResult r (IsJudgedSo basis.now self.now last.now shown)
            (IsRefusedSo basis.now self.now last.now shown)) }
    {
        let mut ran = match self.judge_body(basis, &shown.entry)? {
            Ok(ran) => ran,
            Err(why) => return Ok(Err(why)),
        };
        let holds = self.has_held(&ran, last, &shown.entry)?;
        let wanted = ran.wanted(last);
        if !self.has_lates(basis, &mut ran, &shown.entry)? {
            return Ok(Err(Reason::Late));
        }
        let Some((entry, kept)) = self.with_records(basis, ran, last, shown)? else {
            return Ok(Err(Reason::Records));
        };
        if !holds {
            return Ok(Err(Reason::Held));
        }
        if !self.is_told(basis, last, &entry) {
            return Ok(Err(Reason::Story));
        }
        Ok(Ok(Judged {
            entry,
            kept,
            wanted,
        }))
    }

    /// An entry as its text shows it, judged and entered: where it leads, or the first reason for which it is false. `last` was asked
    /// after its replies.
    pub fn step(self, basis: &Basis, last: &Ask, shown: Shown) -> Result<Step, NoMemory>
        requires open { IsOpenTo self shown.entry.tx }
        requires room { self.entered + 1 < 2 ^ 32 }
        requires bare { bare shown.entry ≡ shown.entry }
        ensures entered { IfOk result (λ step. WhereEntered step (IsSteppedTo basis.now self last.now shown)) }
        ensures refused { IfOk result (λ step. WhereRefused step (IsRefusedSo basis.now self last.now shown)) }
        ensures open { (ty : ℕ) → (ty ≢ shown.entry.tx) → IsOpenTo self ty
            → IfOk result (λ step. WhereEntered step (λ to. IsOpenTo to.progress ty)) }
    {
        match self.judge(basis, last, shown)? {
            Err(why) => Ok(Step::Refused(why)),
            Ok(judged) => {
                let Judged {
                    entry,
                    kept,
                    wanted,
                } = judged;
                let progress = self.enter(&entry, kept)?;
                Ok(Step::Entered(Stepped {
                    progress,
                    entry,
                    wanted,
                }))
            }
        }
    }
}
