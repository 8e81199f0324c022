ghost use Rattle.std.specs.Prelude.{◌≡◌, IfOk, IsErrOf, None, Some};
ghost use Rattle.std.specs.List.{list_all};
ghost use Rattle.xc_tokens.specs.Numbers.{is_digit};
ghost use Rattle.xc_settings.specs.Options.{number_in, job_numbers};

use crate::SettingsErr;
use std::alloc::Global;
use xc_data::JobNumbers;

// A number's digits, zeros in front too.
const MOST_DIGITS: usize = 20;

const MOST_TURNS: usize = 10_000;

const MOST_JOBS: u32 = 1000;

fn are_digits(bytes: &[u8]) -> bool
    ensures { result ≡ list_all is_digit bytes.now }
{
    bytes.iter().all(|b| b.is_ascii_digit())
}

/// The number that a text spells, where it is from 1 to `most`.
pub fn number(text: &str, most: u32) -> Option<u32>
    ensures { result ≡ number_in most text.now }
{
    if text.len() > MOST_DIGITS || !are_digits(text.as_bytes()) {
        return None;
    }
    let number = text.parse::<u32>().ok()?;
    if number == 0 || number > most {
        return None;
    }
    Some(number)
}

/// The numbers of jobs that a text lists.
pub fn jobs(alloc: Global, text: &str) -> Result<JobNumbers, SettingsErr>
    ensures ok { IfOk result (λ jobs. job_numbers text.now ≡ Some jobs) }
    ensures usage { IsErrOf result SettingsErr.Usage → job_numbers text.now ≡ None }
{
    let mut jobs = JobNumbers::new(alloc);
    for part in text.split(',') {
        let Some(job) = number(part, MOST_JOBS) else {
            return Err(SettingsErr::Usage);
        };
        if jobs.len() == MOST_TURNS {
            return Err(SettingsErr::Usage);
        }
        jobs.push(job)?;
    }
    Ok(jobs)
}
