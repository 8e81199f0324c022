ghost use Rattle.std.specs.List.{AllByRecursion};
ghost use Rattle.std.specs.Prelude.{◌≡◌, ◌<◌, ◌≤◌, ◌^◌, length};
ghost use Rattle.xc_data.specs.declared.entry.Entry.{Entry as PlainEntry};
ghost use Rattle.xc_lines.specs.Ranges.{IsItemInRange};
ghost use Rattle.xc_print.specs.Text.{rendered};
ghost use Rattle.xc_sheet.specs.EndRanges.{IsEndInRange, IsJobInRange, IsWordInRange};

use crate::entries::entries;
use crate::parts::{byte, bytes, ident, num, wide};
use xc_data::{Entry, JobLine, KeptItem};

// A job's name is spelled as one.
fn job(job: &JobLine)
    ensures { IsJobInRange job.now }
{
    ident(&job.block);
}

// So is that of each job.
fn jobs(all: &[JobLine])
    ensures { AllByRecursion IsJobInRange all.now }
{
    let mut rest = all;
    while let [first, behind @ ..] = rest {
        job(first);
        rest = behind;
    }
}

// Words are within their range.
fn words(all: &[u64])
    ensures { AllByRecursion IsWordInRange all.now }
{
    let mut rest = all;
    while let [first, behind @ ..] = rest {
        wide(*first);
        rest = behind;
    }
}

// Kept data is.
fn item(item: &KeptItem)
    ensures { IsItemInRange item.now }
{
    match item {
        KeptItem::Bytes { pipe, bytes: all } => {
            num(pipe);
            bytes(all.as_slice());
        }
        KeptItem::Message {
            pair,
            side,
            bytes: all,
        } => {
            num(pair);
            byte(*side);
            bytes(all.as_slice());
        }
    }
}

// All of it is.
fn items(all: &[KeptItem])
    ensures { AllByRecursion IsItemInRange all.now }
{
    let mut rest = all;
    while let [first, behind @ ..] = rest {
        item(first);
        rest = behind;
    }
}

/// The end of a run is within the ranges of its types, where its text is short enough to be read. It looks at each item, and does
/// nothing.
pub fn end_in_range(journal: &[Entry], lines: &[JobLine], values: &[u64], kept: &[KeptItem])
    requires replies { AllByRecursion (λ (e : PlainEntry). length e.replies ≡ length e.calls) journal.now }
    requires words { length values.now < 2 ^ 32 }
    requires text { length (rendered journal.now lines.now values.now kept.now) ≤ 2 ^ 26 }
    ensures { IsEndInRange journal.now lines.now values.now kept.now }
{
    entries(journal);
    jobs(lines);
    words(values);
    items(kept);
}
