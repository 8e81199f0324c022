ghost use Rattle.std.specs.Prelude.{◌≡◌, ◌++◌, codes, IfOk, OnOk};
ghost use Rattle.xc_lines.specs.Tails.{job_end_name};
ghost use Rattle.xc_picture.specs.Scenes.{lane_of, lane_in, last_lane, lane_name_in, lane_names};

use crate::scene::LaneName;
use std::alloc::Global;
use xc_data::{Items, NoMemory, Text};
use xc_lines::JobShown;
use xc_print::Page;
use xc_sheet::Line;

fn lane_of(job: u64) -> u32
    ensures { result ≡ lane_of job }
{
    job.min(2001) as u32
}

fn lane_in(line: &Line) -> u32
    ensures { result ≡ lane_in line.now }
{
    match line {
        Line::Head(head) => lane_of(head.job as u64),
        Line::Job { number, .. } => lane_of(*number),
        _ => 0,
    }
}

/// The last lane that lines speak of, at most 2,001.
pub fn last_lane(lines: &[Line]) -> u32
    ensures { result ≡ last_lane lines.now }
{
    let mut last = 0;
    for line in lines {
        last = lane_in(line).max(last);
    }
    last
}

fn push_job_end(out: &mut Page, end: JobShown) -> Result<(), NoMemory>
    ensures { OnOk result (out.new ≡ out.old ++ job_end_name end) }
{
    match end {
        JobShown::Done => out.text("done"),
        JobShown::GaveUp => out.text("gave up"),
        JobShown::JournalFull => out.text("journal full"),
        JobShown::NoMemory => out.text("no memory"),
    }
}

fn name_of(alloc: Global, block: &[u8], end: JobShown) -> Result<Text, NoMemory>
    ensures { IfOk result (λ name. name ≡ block.now ++ (codes " " ++ job_end_name end)) }
{
    let mut page = Page::new(alloc);
    page.push(block)?;
    page.text(" ")?;
    push_job_end(&mut page, end)?;
    Ok(page.into_text())
}

// The name that a line tells, where it tells one.
fn add_name(alloc: Global, names: &mut Items<LaneName>, line: &Line) -> Result<(), NoMemory>
    ensures { OnOk result (names.new ≡ names.old ++ lane_name_in line.now) }
{
    if let Line::Job { number, block, end } = line {
        if *number <= 2000 {
            let name = name_of(alloc, block.value().as_slice(), *end)?;
            names.push(LaneName {
                lane: *number as u32,
                name,
            })?;
        }
    }
    Ok(())
}

/// The names of the jobs up to 2,000, each with how it ended.
pub fn names_of(alloc: Global, lines: &[Line]) -> Result<Items<LaneName>, NoMemory>
    ensures { IfOk result (λ names. names ≡ lane_names lines.now) }
{
    let mut names = Items::new(alloc);
    for line in lines {
        add_name(alloc, &mut names, line)?;
    }
    Ok(names)
}
