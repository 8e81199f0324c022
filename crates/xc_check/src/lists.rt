ghost use Rattle.std.specs.List.{AllZip};
ghost use Rattle.std.specs.Prelude.{◌≡◌, ◌≤◌, ◌^◌, List, IfOk, length, map};
ghost use Rattle.xc_check.specs.Fronts.{begins_shown};
ghost use Rattle.xc_check.specs.Refusals.{AreFirstLines};
ghost use Rattle.xc_model.specs.Progress.{Following};
ghost use Rattle.xc_shown.specs.Shown.{shown_lines};
ghost use Rattle.xc_tail.specs.Tails.{IsToldOf};
ghost use Rattle.xc_turns.proofs.Laws.{script_job_in, standing_in};

use crate::judging::Judging;
use std::alloc::Global;
use xc_data::NoMemory;
use xc_shown::{Shown, line_count};
use xc_tail::JobLeft;
use xc_text::Script;

/// The first line of each entry, and of what is behind them.
pub(crate) fn first_lines(alloc: Global, entries: &[Shown]) -> Result<Vec<u32>, NoMemory>
    requires { length (shown_lines entries.now) ≤ 2 ^ 26 }
    ensures { IfOk result (λ lines. AreFirstLines entries.now lines.items) }
{
    let mut lines = Vec::new(alloc);
    let mut line = 1;
    for shown in entries {
        lines.push(line)?;
        line += line_count(shown) as u32;
    }
    lines.push(line)?;
    Ok(lines)
}

/// The numbers of entries, and where they began.
pub(crate) fn begins_of(alloc: Global, entries: &[Shown]) -> Result<Vec<(u32, u32)>, NoMemory>
    ensures { IfOk result (λ begins. begins.items ≡ begins_shown entries.now) }
{
    let mut begins = Vec::new(alloc);
    for shown in entries {
        begins.push((shown.entry.tx, shown.entry.began))?;
    }
    Ok(begins)
}

/// The place of each started job behind the last entry.
pub(crate) fn jobs_left(
    alloc: Global,
    script: &Script,
    judging: &Judging,
) -> Result<Vec<JobLeft>, NoMemory>
    requires { length judging.now.progress.jobs ≡ length judging.now.jobs }
    ensures { (told : List Following) → judging.now.progress.jobs ≡ map standing_in told → judging.now.jobs ≡ map script_job_in told
        → IfOk result (λ left. AllZip (IsToldOf script.now) told left.items) }
{
    let mut left = Vec::new(alloc);
    for (at, standing) in judging.progress.jobs().iter().enumerate() {
        left.push(JobLeft {
            block: standing.block(),
            is_client: script.clients,
            is_left: judging.jobs.has_next(script, at),
            failed: standing.failures(),
            is_starved: standing.is_starved(),
        })?;
    }
    Ok(left)
}
