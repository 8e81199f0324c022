ghost use Rattle.std.specs.Prelude.{◌≡◌, ◌++◌, ◌∷◌, ◌≤◌, length, min, is_none, count_by, IfOk, OnOk};
ghost use Rattle.std.specs.List.{list_any, prefix_len};
ghost use Rattle.std.specs.Option.{option_copied};
ghost use Rattle.xc_sheet.specs.declared.lines.Line.TheVariants as line;
ghost use Rattle.xc_picture.specs.Scenes.{head_in, is_head, is_inner, is_late_line, tells_fault, is_remains};
ghost use Rattle.xc_picture.specs.Scenes.{own_lines, texts_of, rival_of, bar_of, bars_from};
ghost use Rattle.xc_picture.specs.Scenes.{break_of, drawn_scene};

use crate::naming::{last_lane, names_of};
use crate::scene::{Bar, Scene};
use std::alloc::Global;
use xc_data::{Cause, Items, LateEnd, NoMemory, Reply, Text, UndoEnd};
use xc_lines::Head;
use xc_print::Page;
use xc_sheet::{Ending, Line, Sheet, push_line};

fn head_in(line: &Line) -> Option<&Head>
    ensures { option_copied result ≡ head_in line.now }
{
    match line {
        Line::Head(head) => Some(head),
        _ => None,
    }
}

fn is_head(line: &Line) -> bool
    ensures { result ≡ is_head line.now }
{
    matches!(line, Line::Head(_))
}

fn is_inner(line: &Line) -> bool
    ensures { result ≡ is_inner line.now }
{
    match line {
        Line::Call(_, _) | Line::Late { .. } | Line::Undo { .. } => true,
        Line::Remains(_) | Line::Held(_) => true,
        Line::Head(_) | Line::Job { .. } | Line::Word { .. } => false,
        Line::Kept(_) | Line::Total { .. } => false,
    }
}

fn is_late(line: &Line) -> bool
    ensures { result ≡ is_late_line line.now }
{
    matches!(line, Line::Late { .. })
}

fn tells_fault(line: &Line) -> bool
    ensures { result ≡ tells_fault line.now }
{
    match line {
        Line::Call(_, Reply::Fault(_)) => true,
        Line::Call(_, Reply::Undone(faults)) => *faults > 0,
        Line::Late { end, .. } => matches!(end, LateEnd::Fault(_)),
        Line::Undo { end, .. } => match end {
            UndoEnd::Undone { faults } | UndoEnd::Failed { faults, .. } => *faults > 0,
            UndoEnd::Blocked { .. } => false,
        },
        _ => false,
    }
}

fn is_remains(line: &Line) -> bool
    ensures { result ≡ is_remains line.now }
{
    matches!(line, Line::Remains(_))
}

fn inner_count(lines: &[Line]) -> usize
    ensures value { result ≡ prefix_len is_inner lines.now }
    ensures bound { result ≤ length lines.now }
{
    let mut n = 0;
    while n < lines.len() {
        if !is_inner(&lines[n]) {
            return n;
        }
        n += 1;
    }
    n
}

// The first line, and those behind it that are of the same entry.
fn own_lines(lines: &[Line]) -> &[Line]
    requires { 1 ≤ length lines.now }
    ensures { result.now ≡ own_lines lines.now }
{
    &lines[..1 + inner_count(&lines[1..])]
}

fn push_lines(out: &mut Page, lines: &[Line]) -> Result<(), NoMemory>
    ensures { OnOk result (out.new ≡ out.old ++ texts_of lines.now) }
{
    for line in lines {
        push_line(out, line)?;
    }
    Ok(())
}

fn text_of(alloc: Global, lines: &[Line]) -> Result<Text, NoMemory>
    ensures { IfOk result (λ text. text ≡ texts_of lines.now) }
{
    let mut page = Page::new(alloc);
    push_lines(&mut page, lines)?;
    Ok(page.into_text())
}

fn rival_of(cause: &Option<Cause>) -> Option<u32>
    ensures { result ≡ rival_of cause.now }
{
    match cause {
        Some(Cause::Conflict { holder, .. }) => Some(*holder),
        Some(Cause::Revoked { by, .. }) => Some(*by),
        _ => None,
    }
}

fn has_late(lines: &[Line]) -> bool
    ensures { result ≡ list_any is_late_line lines.now }
{
    lines.iter().any(is_late)
}

fn has_fault(lines: &[Line]) -> bool
    ensures { result ≡ list_any tells_fault lines.now }
{
    lines.iter().any(tells_fault)
}

fn has_remains(lines: &[Line]) -> bool
    ensures { result ≡ list_any is_remains lines.now }
{
    lines.iter().any(is_remains)
}

fn is_commit(head: &Head) -> bool
    ensures { result ≡ is_none head.now.cause }
{
    head.cause.is_none()
}

// The column in which a bar begins, which is at most that of its end.
fn begin(began: u32, number: u32) -> u32
    ensures { result ≡ min began number }
{
    began.min(number)
}

// The bar of the entry of this number, by its first line and all its lines.
fn bar_of(alloc: Global, number: u32, head: &Head, lines: &[Line]) -> Result<Bar, NoMemory>
    ensures { IfOk result (λ bar. bar ≡ bar_of number head.now lines.now) }
{
    Ok(Bar {
        tx: head.tx,
        job: head.job,
        from: begin(head.began, number),
        to: number,
        committed: is_commit(head),
        rival: rival_of(&head.cause),
        late: has_late(lines),
        faults: has_fault(lines),
        remains: has_remains(lines),
        tip: text_of(alloc, lines)?,
    })
}

// The first 2,000 entries.
#[tactic(auto, using(crate::proofs::Bars::bar_added, crate::proofs::Bars::no_bar_added, crate::proofs::Bars::no_entry))]
fn bars_of(alloc: Global, lines: &[Line]) -> Result<Items<Bar>, NoMemory>
    ensures { IfOk result (λ bars. bars ≡ bars_from 1 lines.now) }
{
    let mut bars = Items::new(alloc);
    let mut rest = lines;
    let mut number = 1;
    while let Some((line, behind)) = rest.split_first() {
        if let Some(head) = head_in(line) {
            if number > 2000 {
                return Ok(bars);
            }
            bars.push(bar_of(alloc, number, head, own_lines(rest))?)?;
            number += 1;
        }
        rest = behind;
    }
    Ok(bars)
}

fn count_entries(lines: &[Line]) -> usize
    ensures { result ≡ count_by is_head lines.now }
{
    let mut count = 0;
    for line in lines {
        if is_head(line) {
            count += 1;
        }
    }
    count
}

fn break_of(ending: Ending) -> Option<u32>
    ensures { result ≡ break_of ending }
{
    match ending {
        Ending::Whole => None,
        Ending::Broken { line } => Some(line),
    }
}

/// What a picture shows of a journal that was read.
#[tactic(auto, using(crate::proofs::Bars::few_bars))]
pub fn scene_of(alloc: Global, sheet: &Sheet) -> Result<Scene, NoMemory>
    ensures few { IfOk result (λ scene. length scene.bars ≤ 2000) }
    ensures scene { IfOk result (λ scene. scene ≡ drawn_scene sheet.now.lines sheet.now.ending) }
{
    let lines = sheet.lines.as_slice();
    Ok(Scene {
        bars: bars_of(alloc, lines)?,
        names: names_of(alloc, lines)?,
        lanes: last_lane(lines),
        left_out: (count_entries(lines) as u64).saturating_sub(2000),
        break_at: break_of(sheet.ending),
    })
}
