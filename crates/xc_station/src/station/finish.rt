ghost use Rattle.std.specs.Prelude.{◌≡◌, ◌<◌, ◌≤◌, ◌-◌, length, [], false};
ghost use Rattle.std.specs.Prelude.{All, sum_by};
ghost use Rattle.xc_buffers.specs.Items.{AreKept};
ghost use Rattle.xc_data.specs.Counts.{RisesBy};
ghost use Rattle.xc_data.specs.Faults.{entry_faults};
ghost use Rattle.xc_host.specs.Kept.{with_kept};
ghost use Rattle.xc_host.specs.Model.{plan_of};
ghost use Rattle.xc_model.specs.Ending.{IsTrueEnd};
ghost use Rattle.xc_model.specs.Handles.{AreCalled};
ghost use Rattle.xc_model.specs.Live.{IsScripted};
ghost use Rattle.xc_model.specs.Consistent.{AreLinesOf, IsLineOf};
ghost use Rattle.xc_model.specs.Setting.{setting};
ghost use Rattle.xc_station.specs.declared.job.Job.{Job as PlainJob};
ghost use Rattle.xc_station.specs.Jobs.{is_live, job_view, job_views};
ghost use Rattle.xc_station.specs.Stations.{NobodyLives};

use crate::Station;
use crate::calls::Shared;
use crate::job::{Activity, Job};
use crate::run_result::End;
use xc_data::{JobLine, JobList};
use xc_host::Host;
use xc_roomy::Roomy;

// An ended job's line.
fn line_of(job: &Job) -> JobLine
    requires { is_live (job_view job.now) ≡ false }
    ensures { IsLineOf result (job_view job.now) (job_view job.now).doing }
{
    match &job.activity {
        Activity::Ended(end) => JobLine {
            block: job.block,
            end: end.again(),
        },
        _ => unreachable!(),
    }
}

// The jobs' lines, into the room for them.
fn lines_of(jobs: &[Job], lines: Roomy<JobLine>) -> JobList
    requires ended { All (λ (job : PlainJob). is_live (job_view job) ≡ false) jobs.now }
    requires room { (length jobs.now ≤ lines.spare) × (lines.items ≡ []) }
    ensures { AreLinesOf (job_views jobs.now) result }
{
    let mut lines = lines;
    for job in jobs {
        lines.enter(line_of(job));
    }
    lines.into_items()
}

impl<H: Host> Station<H> {
    /// What the run leaves. It takes no memory.
    pub fn finish(self) -> End<H>
        requires { NobodyLives self.jobs }
        ensures opening { result.opening ≡ self.opening }
        ensures handed { (result.host ≡ self.host) × (result.kept ≡ self.kept) × (result.words ≡ self.words)
            × (result.journal.items ≡ self.journal) × AreLinesOf (job_views self.jobs) result.jobs }

        // Of the journal what was handed out is gone; of a script nothing is.
        ensures gone { result.journal.gone ≡ self.gone }
        ensures unparted { IsScripted self.opening.script → result.journal.gone ≡ 0 }
        ensures whole { IsTrueEnd (setting self.opening.script self.rules H.model.tells) result.journal.items
            (record { words = result.words; contents = with_kept (H.model.contents result.host) result.kept; lines = result.jobs }) }

        // Kept data stand in order: pipes by number, then pairs by number and side, and no item is empty but a message.
        ensures kept { AreKept result.kept }

        // The host's count rose by the faults that are recorded, and stayed where none is.
        ensures faults { RisesBy (sum_by entry_faults result.journal.items) self.opening.faults (H.model.fault_count result.host) }

        // Since its opening the host was called by the entries of a script, as often as they say, and by nothing else.
        ensures calls { IsScripted self.opening.script → AreCalled self.opening.script result.journal.items (H.model.calls result.host) }

        // It followed the script's own faults and grain to the end.
        ensures plan { H.model.plan result.host ≡ plan_of result.opening.script.outline.prologue }
    {
        let Station {
            opening,
            shared,
            journal,
            jobs,
            lines,
            ..
        } = self;
        let Shared {
            host,
            buffers,
            words,
            ..
        } = shared;
        End {
            host,
            opening,
            kept: buffers.into_items(),
            words: words.list(),
            journal,
            jobs: lines_of(jobs.as_slice(), lines),
        }
    }
}
