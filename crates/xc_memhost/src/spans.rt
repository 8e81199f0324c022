ghost use Rattle.std.specs.Prelude.{◌≡◌, ◌&&◌, ◌==◌, ℕ, IfOk};
ghost use Rattle.std.specs.List.{filter};
ghost use Rattle.xc_memhost.specs.Faults.{any_within};
ghost use Rattle.xc_memhost.specs.Spans.{is_at_place, IsRising, AreDisjoint};

use std::alloc::Global;
use std::marker::Model;
use xc_data::{FaultLine, NoMemory};
use xc_host::place_of;

/// Lines of one kind in the order of their numbers. None overlaps another.
#[derive(Drop)]
pub(crate) struct Spans {
    spans: Vec<FaultLine>,
}

impl Model for Spans {
    ghost use Rattle.std.specs.Prelude.{List};
    ghost use Rattle.xc_data.specs.declared.script.FaultLine.{FaultLine};
    ghost use Rattle.xc_memhost.specs.Spans.{AreDisjoint};

    ghost Value = { List FaultLine };

    ghost view = { λ a. a.spans.items };

    ghost invariant = { λ a. AreDisjoint a.spans.items };
}

// The lines whose kind has this place.
fn lines_at(alloc: Global, lines: &[FaultLine], place: usize) -> Result<Vec<FaultLine>, NoMemory>
    ensures { IfOk result (λ list. list.items ≡ filter (is_at_place place) lines.now) }
{
    let mut list = Vec::new(alloc);
    for line in lines {
        if place_of(line.kind) == place {
            list.push(*line)?;
        }
    }
    Ok(list)
}

fn sort(lines: &mut [FaultLine])
    ensures rising { IsRising lines.new }
    ensures same { (n : ℕ) → any_within n lines.new ≡ any_within n lines.old }
{
    lines.sort_unstable_by_key(|line| line.first);
}

// Lines that overlap become one.
fn merged(alloc: Global, lines: &[FaultLine]) -> Result<Vec<FaultLine>, NoMemory>
    requires { IsRising lines.now }
    ensures apart { IfOk result (λ list. AreDisjoint list.items) }
    ensures same { IfOk result (λ list. (n : ℕ) → any_within n list.items ≡ any_within n lines.now) }
{
    let mut list = Vec::new(alloc);
    let Some((first, rest)) = lines.split_first() else {
        return Ok(list);
    };
    let mut top = *first;
    for line in rest {
        if line.first <= top.last {
            top.last = top.last.max(line.last);
        } else {
            list.push(top)?;
            top = *line;
        }
    }
    list.push(top)?;
    Ok(list)
}

impl Spans {
    // Of the lines whose kind has this place.
    pub(crate) fn of(alloc: Global, lines: &[FaultLine], place: usize) -> Result<Spans, NoMemory>
        ensures { IfOk result (λ spans. (n : ℕ) → any_within n spans ≡ any_within n (filter (is_at_place place) lines.now)) }
    {
        let mut list = lines_at(alloc, lines, place)?;
        sort(&mut list);
        Ok(Spans {
            spans: merged(alloc, &list)?,
        })
    }

    /// Whether a line lists the number. Only the last that begins at or before it can.
    pub(crate) fn contains(&self, number: u64) -> bool
        ensures { result ≡ any_within number self.now }
    {
        let behind = self.spans.partition_point(|line| line.first <= number);
        behind > 0 && number <= self.spans[behind - 1].last
    }
}
