ghost use Rattle.std.specs.Bool.{Decides};
ghost use Rattle.std.specs.Prelude.{◌≡◌, ◌+◌, ◌∷◌, ◌++◌, [], true, length, IfOk, OnOk, MatchBool, MatchOption};
ghost use Rattle.xc_data.specs.declared.entry.Report.{Report as PlainReport};
ghost use Rattle.xc_judge.specs.Judged.{telling_terms};
ghost use Rattle.xc_judge.specs.Ran.{IsRan, is_memory_cause};
ghost use Rattle.xc_judge.specs.Traced.{AreNotTraced, AreTraced, IsShownSo, ReportShown, ends_of, report_shown, shown_ends, undos_of};
ghost use Rattle.xc_model.specs.Machine.{HasReplies, HasReport};
ghost use Rattle.xc_model.specs.Progress.{body_of};
ghost use Rattle.xc_world.specs.Run.{BodyResult};
ghost use Rattle.xc_world.specs.Sound.{IsSound};

use crate::effects::{have_effects, have_kinds};
use crate::faults::records_of;
use crate::ran::Ran;
use crate::records::is_starved;
use crate::{Basis, Progress};
use xc_data::{Cause, Items, NoMemory, RecordList, Report, Undo, UndoEnd};
use xc_lines::{EffectShown, UndoKind};
use xc_machine::Traced;
use xc_script::Ask;
use xc_shown::Shown;

// Without memory one record more than those of the calls may be shown.
fn is_one_more(cause: &Cause, count: usize, shown: usize) -> bool
    ensures { Decides result ((is_memory_cause cause.now ≡ true) × (shown ≡ count + 1)) }
{
    is_starved(cause) && shown > count && shown - count == 1
}

// A record with its end comes behind others.
fn push_record(records: &mut Vec<(Undo, UndoEnd)>, undo: Undo, end: UndoEnd) -> Result<(), NoMemory>
    ensures { OnOk result (records.new.items ≡ records.old.items ++ (undo, end) ∷ []) }
{
    records.push((undo, end))?;
    Ok(())
}

// The records with the ends that are shown.
fn ended(undos: Items<Undo>, shown: &[(UndoKind, UndoEnd)]) -> Result<RecordList, NoMemory>
    requires { length undos ≡ length shown.now }
    ensures undos { IfOk result (λ records. undos_of records ≡ undos) }
    ensures ends { IfOk result (λ records. ends_of records ≡ shown_ends shown.now) }
{
    let undos = undos.into_vec();
    let mut records = Vec::new(*undos.allocator());
    for undo in undos {
        let end = shown[records.len()].1;
        push_record(&mut records, undo, end)?;
    }
    Ok(Items::from_vec(records))
}

impl Ran {
    // Puts behind the records of the calls that of the next call, where one more is shown. False where no true records are shown so.
    fn trace_last(
        &mut self,
        tx: u32,
        last: &Ask,
        cause: &Cause,
        shown: &[(UndoKind, UndoEnd)],
        effects: &[EffectShown],
    ) -> Result<bool, NoMemory>
        requires sound { IsSound self.old.world self.old.me.value tx }
        ensures { (b : BodyResult) → self.old.world ≡ b.world → self.old.me.value ≡ b.me → self.old.traced.trail ≡ b.trail
            → let seen : ReportShown = record { cause = cause.now; records = shown.now; effects = effects.now } in
            IfOk result (λ yes. MatchBool yes (AreTraced b tx last.now seen self.new.traced.trail) (AreNotTraced b tx last.now seen)) }
    {
        let count = self.traced.trail.len();
        if shown.len() == count {
            return Ok(true);
        }
        if !is_one_more(cause, count, shown.len()) {
            return Ok(false);
        }
        let Ask::Call(call) = last else {
            return Ok(false);
        };
        let Some(left) = self.left(tx, call, shown[count].1, effects.last())? else {
            return Ok(false);
        };
        self.traced.trail.push(left)?;
        Ok(true)
    }

    // The records of its calls, and that of the next one where it was put behind them.
    fn into_trail(self) -> Items<Undo>
        ensures { result ≡ self.traced.trail }
    {
        let Ran { traced, .. } = self;
        let Traced { trail, .. } = traced;
        trail
    }
}

impl Progress {
    /// The report of an aborted entry for this cause, by what is shown of its records; none where no true one is shown so.
    pub(crate) fn report(
        &self,
        basis: &Basis,
        ran: Ran,
        last: &Ask,
        cause: &Cause,
        shown: &Shown,
    ) -> Result<Option<Report>, NoMemory>
        requires ran { IsRan ran (body_of self.now.state shown.now.entry) shown.now.entry.tx }
        requires replies { HasReplies (telling_terms basis.now) self.now shown.now.entry }
        ensures { let seen = report_shown cause.now shown.now in IfOk result (λ found. MatchOption found
            ((report : PlainReport) → IsShownSo seen report → HasReport (telling_terms basis.now) self.now last.now shown.now.entry report
            → ⊥)
            (λ report. IsShownSo seen report × HasReport (telling_terms basis.now) self.now last.now shown.now.entry report)) }
    {
        let mut ran = ran;
        let entry = &shown.entry;
        let (kinds, effects) = (shown.records.as_slice(), shown.effects.as_slice());
        if !ran.trace_last(entry.tx, last, cause, kinds, effects)? {
            return Ok(None);
        }
        let records = ended(ran.into_trail(), kinds)?;
        if !have_kinds(records.as_slice(), kinds) {
            return Ok(None);
        }
        if !have_effects(records.as_slice(), effects) {
            return Ok(None);
        }
        let report = Report {
            cause: cause.again(),
            records,
        };
        let counted = records_of(entry.calls.as_slice(), entry.replies.as_slice());
        let alloc = *self.jobs.allocator();
        if !counted.is_report(alloc, basis.rules.undo_tries, &report) {
            return Ok(None);
        }
        Ok(Some(report))
    }
}
