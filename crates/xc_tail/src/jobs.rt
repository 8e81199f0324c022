ghost use Rattle.std.specs.Option.{option_copied};
ghost use Rattle.std.specs.Prelude.{◌≡◌};
ghost use Rattle.xc_tail.specs.JobLines.{behind_jobs};

use crate::JobLeft;
use xc_model::Rules;
use xc_sheet::Line;

/// The lines behind those of all jobs. `None` where these don't come first.
pub(crate) fn behind_jobs<'a>(
    rules: &Rules,
    entries: usize,
    mut jobs: &[JobLeft],
    mut lines: &'a [Line],
) -> Option<&'a [Line]>
    ensures { option_copied result ≡ behind_jobs rules.now entries 1 jobs.entry.now lines.entry.now }
{
    let mut number = 1;
    while let [job, jobs_behind @ ..] = jobs {
        let [line, lines_behind @ ..] = lines else {
            return None;
        };
        if !job.is_line(rules, entries, number, line) {
            return None;
        }
        number += 1;
        jobs = jobs_behind;
        lines = lines_behind;
    }
    Some(lines)
}
