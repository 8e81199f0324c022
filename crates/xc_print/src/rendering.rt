ghost use Rattle.std.specs.Prelude.{◌≡◌, ◌++◌, ◌≤◌, [], length, IfOk, OnErr, OnOk};
ghost use Rattle.std.specs.Fmt.{decimal};
ghost use Rattle.xc_edge.specs.Streams.{AppendsPart, AppendsWhole};
ghost use Rattle.xc_edge.specs.View.{HasFailed};
ghost use Rattle.xc_print.specs.Entries.{entry_text};
ghost use Rattle.xc_print.specs.Text.{job_end_text, job_line, job_lines, word_line, word_lines, rendered};
ghost use Rattle.xc_print.specs.Totals.{totals_line};

use crate::Totals;
use crate::entries::{push_entry, push_journal};
use crate::kept::push_kept;
use crate::page::Page;
use crate::paper::{Paper, push_wide};
use crate::sheet::{Sheet, room_of_piece};
use std::alloc::Global;
use xc_data::{Entry, Ident, JobEnd, JobLine, KeptItem, NoMemory, Text};
use xc_edge::{Failed, Sink};

fn push_job_end<P: Paper>(out: &mut P, end: &JobEnd) -> Result<(), P::Error>
    ensures { OnOk result (P.said out.new ≡ P.said out.old ++ job_end_text end.now) }
{
    match end {
        JobEnd::Done => out.text("done"),
        JobEnd::GaveUp(_) => out.text("gave up"),
        JobEnd::JournalFull => out.text("journal full"),
        JobEnd::NoMemory => out.text("no memory"),
    }
}

fn push_job<P: Paper>(out: &mut P, number: usize, job: &JobLine) -> Result<(), P::Error>
    ensures { OnOk result (P.said out.new ≡ P.said out.old ++ job_line number job.now) }
{
    out.labelled("job ", number as u64)?;
    out.text(" ")?;
    out.push(job.block.as_slice())?;
    out.text(" ")?;
    push_job_end(out, &job.end)?;
    out.text("\n")
}

fn push_jobs<P: Paper>(out: &mut P, jobs: &[JobLine]) -> Result<(), P::Error>
    ensures { OnOk result (P.said out.new ≡ P.said out.old ++ job_lines 1 jobs.now) }
{
    for (at, job) in jobs.iter().enumerate() {
        push_job(out, at + 1, job)?;
    }
    Ok(())
}

fn push_word<P: Paper>(out: &mut P, at: usize, value: u64) -> Result<(), P::Error>
    ensures { OnOk result (P.said out.new ≡ P.said out.old ++ word_line at value) }
{
    if value == 0 {
        return Ok(());
    }
    out.labelled("word ", at as u64)?;
    out.labelled(" ", value)?;
    out.text("\n")
}

fn push_words<P: Paper>(out: &mut P, words: &[u64]) -> Result<(), P::Error>
    ensures { OnOk result (P.said out.new ≡ P.said out.old ++ word_lines 0 words.now) }
{
    for (at, value) in words.iter().enumerate() {
        push_word(out, at, *value)?;
    }
    Ok(())
}

fn push_labelled_wide<P: Paper>(out: &mut P, label: &str, number: u128) -> Result<(), P::Error>
    ensures { OnOk result (P.said out.new ≡ P.said out.old ++ (label.now ++ decimal number)) }
{
    out.text(label)?;
    push_wide(out, number)
}

/// The last line of a text.
pub fn push_totals<P: Paper>(out: &mut P, totals: Totals) -> Result<(), P::Error>
    ensures { OnOk result (P.said out.new ≡ P.said out.old ++ totals_line totals) }
{
    let Totals {
        committed,
        aborted,
        faults,
        remains,
    } = totals;
    out.labelled("total ", committed as u64)?;
    out.labelled(" committed, ", aborted as u64)?;
    push_labelled_wide(out, " aborted, ", faults)?;
    push_labelled_wide(out, " faults, ", remains)?;
    out.text(" remains\n")
}

#[tactic(auto, using(crate::proofs::Pieces::five_pieces))]
fn push_text<P: Paper>(
    out: &mut P,
    journal: &[Entry],
    jobs: &[JobLine],
    words: &[u64],
    kept: &[KeptItem],
) -> Result<(), P::Error>
    requires { length journal.now ≤ 10000 }
    ensures { OnOk result (P.said out.new ≡ P.said out.old ++ rendered journal.now jobs.now words.now kept.now) }
{
    push_journal(out, journal)?;
    push_jobs(out, jobs)?;
    push_words(out, words)?;
    push_kept(out, kept)?;
    push_totals(out, Totals::of(journal))
}

// About how long the text of an entry is, with its calls and what it held: two words and a file in their usual length.
fn room_of(entry: &Entry) -> usize {
    let calls = entry.calls.len().saturating_mul(24);
    let held = entry.held.len().saturating_mul(12);
    calls.saturating_add(held).saturating_add(48)
}

/// The lines of an entry.
pub fn entry_text(alloc: Global, entry: &Entry) -> Result<Text, NoMemory>
    ensures { IfOk result (λ text. text ≡ entry_text entry.now) }
{
    let mut out = Page::with_room(alloc, room_of(entry));
    push_entry(&mut out, entry)?;
    Ok(out.into_text())
}

/// The line of a job.
pub fn job_text(alloc: Global, number: u32, block: Ident, end: &JobEnd) -> Result<Text, NoMemory>
    ensures { IfOk result (λ text. text ≡ job_line number (record { block = block; end = end.now })) }
{
    let mut out = Page::new(alloc);
    let line = JobLine {
        block,
        end: end.again(),
    };
    push_job(&mut out, number as usize, &line)?;
    Ok(out.into_text())
}

// The text of a run, on a sheet on which nothing stands, and then the last piece is written.
fn print_all<K: Sink>(
    sheet: &mut Sheet<'_, K>,
    journal: &[Entry],
    jobs: &[JobLine],
    words: &[u64],
    kept: &[KeptItem],
) -> Result<(), Failed>
    requires few { length journal.now ≤ 10000 }
    requires empty { sheet.old.said.bytes ≡ [] }
    ensures same { sheet.new.sink.ghost_name ≡ sheet.old.sink.ghost_name }
    ensures whole { OnOk result (AppendsWhole (K.told sheet.old.start.value) (K.told sheet.new.sink.now)
        (rendered journal.now jobs.now words.now kept.now)) }
    ensures part { OnErr result (AppendsPart (K.told sheet.old.start.value) (K.told sheet.new.sink.now)
        (rendered journal.now jobs.now words.now kept.now)) }
    ensures failed { OnErr result (HasFailed (K.told sheet.old.start.value) (K.told sheet.new.sink.now)) }
{
    match push_text(sheet, journal, jobs, words, kept) {
        Ok(()) => sheet.close(),
        Err(_never) => unreachable!(),
    }
}

/// Writes the text of a run in pieces: its journal, its jobs in the order of their numbers, its words, and the kept data in the order
/// in which it is printed. The memory for a piece is taken before the first is written. The inner answer says whether all was written.
pub fn write_text<K: Sink>(
    alloc: Global,
    sink: &mut K,
    journal: &[Entry],
    jobs: &[JobLine],
    words: &[u64],
    kept: &[KeptItem],
) -> Result<Result<(), Failed>, NoMemory>
    requires few { length journal.now ≤ 10000 }
    ensures starved { OnErr result (sink.new ≡ sink.old) }
    ensures whole { IfOk result (λ written. OnOk written
        (AppendsWhole (K.told sink.old) (K.told sink.new) (rendered journal.now jobs.now words.now kept.now))) }
    ensures part { IfOk result (λ written. OnErr written
        (AppendsPart (K.told sink.old) (K.told sink.new) (rendered journal.now jobs.now words.now kept.now))) }
    ensures failed { IfOk result (λ written. OnErr written (HasFailed (K.told sink.old) (K.told sink.new))) }
{
    let piece = room_of_piece(alloc)?;
    let mut sheet = Sheet::new(piece, sink);
    let written = print_all(&mut sheet, journal, jobs, words, kept);
    let _sink = sheet.into_sink();
    Ok(written)
}
