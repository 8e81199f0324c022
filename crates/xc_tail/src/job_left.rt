ghost use Rattle.std.specs.Prelude.{◌≡◌};
ghost use Rattle.xc_tail.specs.JobLines.{ends_so, goes_on, is_job_line};

use xc_data::Ident;
use xc_lines::JobShown;
use xc_model::Rules;
use xc_sheet::Line;

/// So long a journal is full.
const MOST_ENTRIES: usize = 10_000;

/// Where a started job stands behind the last entry: whether a client asks it, whether a transaction is left, how many attempts at it
/// failed, and whether memory ran out.
#[derive(Clone, Copy, Debug)]
pub struct JobLeft {
    pub block: Ident,
    pub is_client: bool,
    pub is_left: bool,
    pub failed: usize,
    pub is_starved: bool,
}

impl JobLeft {
    // The job goes on after its last entry.
    fn goes_on(&self) -> bool
        ensures { result ≡ goes_on self.now }
    {
        self.is_client || !self.is_starved
    }

    // The job may have ended so, behind so many entries.
    fn ends_so(&self, rules: &Rules, entries: usize, end: JobShown) -> bool
        ensures { result ≡ ends_so rules.now entries self.now end }
    {
        let has_attempt = self.failed < rules.attempts as usize;
        match end {
            JobShown::Done => self.goes_on() && (self.is_client || !self.is_left),
            JobShown::GaveUp => self.goes_on() && self.is_left && !has_attempt,
            JobShown::JournalFull => {
                self.goes_on() && self.is_left && has_attempt && entries >= MOST_ENTRIES
            }
            JobShown::NoMemory => !self.is_client && self.is_left,
        }
    }

    /// Whether a line is that of the job, which has this number.
    pub(crate) fn is_line(&self, rules: &Rules, entries: usize, number: u64, line: &Line) -> bool
        ensures { result ≡ is_job_line rules.now entries number self.now line.now }
    {
        match line {
            Line::Job {
                number: shown,
                block,
                end,
            } => {
                *shown == number
                    && *block.value() == self.block
                    && self.ends_so(rules, entries, *end)
            }
            // Any other line is not of a job.
            _ => false,
        }
    }
}
