ghost use Rattle.std.specs.Prelude.{◌≡◌, ◌<◌, ◌≤◌, [], IfOk};
ghost use Rattle.std.specs.List.{list_any};
ghost use Rattle.xc_data.specs.Limits.{IsGrain};
ghost use Rattle.xc_memhost.specs.Faults.{is_line_of, lists, grained};
ghost use Rattle.xc_memhost.specs.Spans.{IsIndex};

use crate::spans::Spans;
use std::alloc::Global;
use std::marker::Model;
use xc_data::{FaultLine, FaultList, HostCallKind, Items, NoMemory};
use xc_host::{KINDS, place_of};

/// The lines of faults, and for each kind the numbers that they list. Whether a call is listed takes
/// a binary search, whatever the number of lines.
#[derive(Drop)]
pub(crate) struct Faults {
    lines: FaultList,
    // By the place of the kind.
    listed: Vec<Spans>,
}

impl Model for Faults {
    ghost use Rattle.std.specs.Prelude.{List};
    ghost use Rattle.xc_data.specs.declared.script.FaultLine.{FaultLine};
    ghost use Rattle.xc_memhost.specs.Spans.{IsIndex};

    ghost Value = { List FaultLine };

    ghost view = { λ a. a.lines };

    ghost invariant = { λ a. IsIndex a.lines a.listed.items };
}

// For each kind the numbers that the lines list.
fn index(alloc: Global, lines: &[FaultLine]) -> Result<Vec<Spans>, NoMemory>
    ensures { IfOk result (λ listed. IsIndex lines.now listed.items) }
{
    let mut listed = Vec::new(alloc);
    for place in 0..KINDS {
        listed.push(Spans::of(alloc, lines, place)?)?;
    }
    Ok(listed)
}

impl Faults {
    pub(crate) fn none(alloc: Global) -> Faults
        ensures { result ≡ [] }
    {
        Faults {
            lines: Items::new(alloc),
            listed: Vec::new(alloc),
        }
    }

    pub(crate) fn of(alloc: Global, lines: &[FaultLine]) -> Result<Faults, NoMemory>
        ensures { IfOk result (λ faults. faults ≡ lines.now) }
    {
        let mut list = Vec::new(alloc);
        list.extend_from_slice(lines)?;
        Ok(Faults {
            lines: Items::from_vec(list),
            listed: index(alloc, lines)?,
        })
    }

    // Whether a line of this kind lists the number.
    fn of_kind(&self, kind: HostCallKind, number: u64) -> bool
        ensures { result ≡ list_any (is_line_of kind number) self.now }
    {
        match self.listed.get(place_of(kind)) {
            Some(spans) => spans.contains(number),
            None => false,
        }
    }

    /// Whether a line lists call `number` of this kind, which is number `all` of all calls.
    pub(crate) fn lists(&self, kind: HostCallKind, number: u64, all: u64) -> bool
        ensures { result ≡ list_any (lists kind number all) self.now }
    {
        self.of_kind(kind, number) || self.of_kind(HostCallKind::Any, all)
    }
}

// The smaller of the grain and n.
pub(crate) fn grained(grain: Option<u32>, n: u32) -> u32
    requires { IsGrain grain }
    ensures value { result ≡ grained grain n }
    ensures bound { result ≤ n }
    ensures some { 0 < n → 0 < result }
{
    match grain {
        Some(grain) => n.min(grain),
        None => n,
    }
}
