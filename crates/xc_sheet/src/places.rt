ghost use Rattle.std.specs.Prelude.{◌≡◌, ◌+◌, ◌-◌, ◌<◌, ◌^◌, ◌==◌, ◌&&◌, is_none, nat_lt, if◌then◌else◌, Some, None};
ghost use Rattle.xc_sheet.specs.Places.{closing, words_from, jobs_from, entry_from, held_from, lates_from};
ghost use Rattle.xc_sheet.specs.Places.{effect_line_from, undos_from, undone_from, commit_from, abort_from, behind_line};
ghost use Rattle.xc_sheet.specs.declared.places.LinePlace.TheVariants as place;

use crate::lines::Line;
use xc_lines::Head;

/// A place among the lines of a text: what may stand next.
#[derive(Clone, Copy, Debug)]
pub enum LinePlace {
    /// Behind an entry, or before the first.
    Between,
    /// Behind a call of a commit, or its first line.
    Commits,
    /// The same of an abort.
    Aborts,
    /// Behind ends of late calls; the next has this number.
    Lates(u64),
    /// Behind compensations, with so many to come.
    Undos(u64),
    /// Behind an effect that stands.
    Remaining,
    Jobs,
    Words,
    Kept,
    /// Behind the totals.
    Ended,
}

fn late_place(next: u64, number: u64) -> Option<LinePlace>
    ensures { result ≡ (if number == next && nat_lt number (2 ^ 32) then Some (place.Lates (next + 1)) else None) }
{
    if number == next && number < 4_294_967_296 {
        return Some(LinePlace::Lates(next + 1));
    }
    None
}

fn undo_place(left: u64, number: u64) -> Option<LinePlace>
    requires { 0 < left }
    ensures { result ≡ (if number == left then Some (place.Undos (left - 1)) else None) }
{
    if number == left {
        return Some(LinePlace::Undos(left - 1));
    }
    None
}

fn newest_place(number: u64) -> Option<LinePlace>
    ensures { result ≡ (if number == 0 then None else Some (place.Undos (number - 1))) }
{
    if number == 0 {
        return None;
    }
    Some(LinePlace::Undos(number - 1))
}

fn entry_place(head: &Head) -> LinePlace
    ensures { result ≡ (if is_none head.now.cause then place.Commits else place.Aborts) }
{
    match &head.cause {
        None => LinePlace::Commits,
        Some(_) => LinePlace::Aborts,
    }
}

fn closing(line: &Line) -> Option<LinePlace>
    ensures { result ≡ closing line.now }
{
    match line {
        Line::Kept(_) => Some(LinePlace::Kept),
        Line::Total { .. } => Some(LinePlace::Ended),
        Line::Head(_) | Line::Call(..) | Line::Late { .. } | Line::Undo { .. } => None,
        Line::Remains(_) | Line::Held(_) | Line::Job { .. } | Line::Word { .. } => None,
    }
}

fn words_from(line: &Line) -> Option<LinePlace>
    ensures { result ≡ words_from line.now }
{
    match line {
        Line::Word { .. } => Some(LinePlace::Words),
        _ => closing(line),
    }
}

fn jobs_from(line: &Line) -> Option<LinePlace>
    ensures { result ≡ jobs_from line.now }
{
    match line {
        Line::Job { .. } => Some(LinePlace::Jobs),
        _ => words_from(line),
    }
}

fn entry_from(line: &Line) -> Option<LinePlace>
    ensures { result ≡ entry_from line.now }
{
    match line {
        Line::Head(head) => Some(entry_place(head)),
        _ => jobs_from(line),
    }
}

fn held_from(line: &Line) -> Option<LinePlace>
    ensures { result ≡ held_from line.now }
{
    match line {
        Line::Held(_) => Some(LinePlace::Between),
        _ => entry_from(line),
    }
}

fn lates_from(next: u64, line: &Line) -> Option<LinePlace>
    ensures { result ≡ lates_from next line.now }
{
    match line {
        Line::Late { number, .. } => late_place(next, *number),
        _ => held_from(line),
    }
}

fn effect_from(line: &Line) -> Option<LinePlace>
    ensures { result ≡ effect_line_from line.now }
{
    match line {
        Line::Remains(_) => Some(LinePlace::Remaining),
        _ => held_from(line),
    }
}

fn undos_from(left: u64, line: &Line) -> Option<LinePlace>
    requires { 0 < left }
    ensures { result ≡ undos_from left line.now }
{
    match line {
        Line::Undo { number, .. } => undo_place(left, *number),
        Line::Head(_) | Line::Call(..) | Line::Late { .. } | Line::Remains(_) => None,
        Line::Held(_) | Line::Job { .. } | Line::Word { .. } => None,
        Line::Kept(_) | Line::Total { .. } => None,
    }
}

fn undone_from(left: u64, line: &Line) -> Option<LinePlace>
    ensures { result ≡ undone_from left line.now }
{
    if left == 0 {
        effect_from(line)
    } else {
        undos_from(left, line)
    }
}

fn commit_from(line: &Line) -> Option<LinePlace>
    ensures { result ≡ commit_from line.now }
{
    match line {
        Line::Call(..) => Some(LinePlace::Commits),
        _ => lates_from(1, line),
    }
}

fn abort_from(line: &Line) -> Option<LinePlace>
    ensures { result ≡ abort_from line.now }
{
    match line {
        Line::Call(..) => Some(LinePlace::Aborts),
        Line::Undo { number, .. } => newest_place(*number),
        _ => held_from(line),
    }
}

impl LinePlace {
    /// The place behind a line, none where it may not stand.
    pub fn behind(self, line: &Line) -> Option<LinePlace>
        ensures { result ≡ behind_line self line.now }
    {
        match self {
            LinePlace::Between => entry_from(line),
            LinePlace::Commits => commit_from(line),
            LinePlace::Aborts => abort_from(line),
            LinePlace::Lates(next) => lates_from(next, line),
            LinePlace::Undos(left) => undone_from(left, line),
            LinePlace::Remaining => effect_from(line),
            LinePlace::Jobs => jobs_from(line),
            LinePlace::Words => words_from(line),
            LinePlace::Kept => closing(line),
            LinePlace::Ended => None,
        }
    }
}
