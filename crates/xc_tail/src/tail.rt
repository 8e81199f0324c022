ghost use Rattle.std.specs.Bool.{Decides};
ghost use Rattle.std.specs.List.{AllZip};
ghost use Rattle.std.specs.Prelude.{◌≡◌, ◌≤◌, List, IfOk};
ghost use Rattle.xc_model.specs.Progress.{Following};
ghost use Rattle.xc_model.specs.Setting.{Setting};
ghost use Rattle.xc_sheet.specs.Ends.{line_of_totals};
ghost use Rattle.xc_tail.specs.Tails.{IsTail, IsToldOf};

use crate::JobLeft;
use crate::jobs::behind_jobs;
use crate::kept::are_kept;
use crate::words::behind_words;
use xc_data::NoMemory;
use xc_machine::World;
use xc_model::Rules;
use xc_print::Totals;
use xc_sheet::Line;

// The line shows these totals.
fn is_total(totals: Totals, line: &Line) -> bool
    ensures { Decides result (line.now ≡ line_of_totals totals) }
{
    let Line::Total {
        committed,
        aborted,
        faults,
        remains,
    } = line
    else {
        return false;
    };
    *committed == totals.committed as u64
        && *aborted == totals.aborted as u64
        && *faults as u128 == totals.faults
        && *remains as u128 == totals.remains
}

/// Whether these lines are those behind so many entries: those of the jobs, of the words, of kept data and of these totals. An `Err`
/// says nothing of the lines.
pub fn is_tail(
    rules: &Rules,
    entries: usize,
    jobs: &[JobLeft],
    world: World,
    totals: Totals,
    lines: &[Line],
) -> Result<bool, NoMemory>
    requires { 1 ≤ rules.now.attempts }
    ensures { (s : Setting) (told : List Following) → s.rules ≡ rules.now → AllZip (IsToldOf s.script) told jobs.now
        → IfOk result (λ yes.
        Decides yes (IsTail s (record { entries = entries; jobs = told; world = world; totals = totals }) lines.now)) }
{
    let Some(lines) = behind_jobs(rules, entries, jobs, lines) else {
        return Ok(false);
    };
    let Some(lines) = behind_words(world.words(), lines) else {
        return Ok(false);
    };
    let [kept @ .., last] = lines else {
        return Ok(false);
    };
    if !is_total(totals, last) {
        return Ok(false);
    }
    are_kept(world, kept)
}
