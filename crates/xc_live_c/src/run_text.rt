ghost use Rattle.std.specs.Prelude.{◌≡◌, ◌≤◌, ◌-◌, ◌++◌, IfOk, drop, length, take};
ghost use Rattle.xc_journal.specs.Told.{waiting_of};
ghost use Rattle.xc_live_c.specs.Finished.{IsCopied, last_text};
ghost use Rattle.xc_print.specs.Text.{rendered};
ghost use Rattle.xc_print.specs.Totals.{totals_line};

use crate::counts::{both_totals, held_totals};
use crate::growing::Growing;
use std::alloc::Global;
use xc_data::{NoMemory, Text};
use xc_memhost::MemHost;
use xc_print::{Page, Totals, push_totals, write_text};
use xc_station::End;

/// The text of a whole run, or of entries that were handed out.
#[derive(Drop)]
pub struct RunText {
    pub(crate) bytes: Text,
}

// The last line of a text.
fn totals_text(alloc: Global, totals: Totals) -> Result<Text, NoMemory>
    ensures { IfOk result (λ line. line ≡ totals_line totals) }
{
    let mut out = Page::new(alloc);
    push_totals(&mut out, totals)?;
    Ok(out.into_text())
}

// The text of an end, with the totals of the entries that weren't handed out.
fn end_text(alloc: Global, end: &End<MemHost>) -> Result<Text, NoMemory>
    requires few { length (waiting_of end.now.journal) ≤ 10000 }
    ensures { IfOk result (λ text. text ≡ rendered (waiting_of end.now.journal) end.now.jobs end.now.words end.now.kept) }
{
    let mut out = Growing::new(alloc);
    let written = write_text(
        alloc,
        &mut out,
        end.journal.as_slice(),
        end.jobs.as_slice(),
        end.words.as_slice(),
        end.kept.as_slice(),
    )?;
    match written {
        Ok(()) => Ok(out.into_text()),
        Err(_) => Err(NoMemory),
    }
}

// A text with another last line in the place of its own.
fn with_last(text: Text, last: &[u8], other: &[u8]) -> Result<Text, NoMemory>
    ensures { IfOk result (λ new. new ≡ take (length text - length last.now) text ++ other.now) }
{
    let mut bytes = text.into_vec();
    let left = bytes.len().saturating_sub(last.len());
    bytes.truncate(left);
    bytes.extend_from_slice(other)?;
    Ok(Text::from_vec(bytes))
}

impl RunText {
    /// The text of a run with this end, where so much was counted of the entries that were handed out.
    #[tactic(auto, using(crate::proofs::Lasts::last_from))]
    pub(crate) fn of(
        alloc: Global,
        end: &End<MemHost>,
        counted: Totals,
    ) -> Result<RunText, NoMemory>
        ensures { IfOk result (λ text. text.bytes ≡ last_text counted end.now) }
    {
        let Some(held) = held_totals(end.journal.as_slice()) else {
            return Err(NoMemory);
        };
        let Some(all) = both_totals(counted, held) else {
            return Err(NoMemory);
        };
        let text = end_text(alloc, end)?;
        let last = totals_text(alloc, held)?;
        let other = totals_text(alloc, all)?;
        let bytes = with_last(text, last.as_slice(), other.as_slice())?;
        Ok(RunText { bytes })
    }

    /// Copies the bytes from a place on, as many as there is room for, and says how many.
    pub(crate) fn copy(&self, from: usize, into: &mut [u8]) -> usize
        ensures { IsCopied (drop from self.now.bytes) (record { old = into.old; new = into.new }) result }
    {
        if from >= self.bytes.len() {
            return 0;
        }
        let left = &self.bytes.as_slice()[from..];
        let count = left.len().min(into.len());
        into[..count].copy_from_slice(&left[..count]);
        count
    }
}
