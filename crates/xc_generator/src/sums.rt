ghost use Rattle.std.specs.Prelude.{◌≡◌, ◌++◌, ◌≤◌, IfOk, OnOk, length, string_bytes, sum};
ghost use Rattle.xc_generator.specs.Summary.{seed_text, totals_text, sum_text, summary_of};

use std::alloc::Global;
use xc_data::{Entry, NoMemory, Text};
use xc_print::Totals;

fn sum_of(words: &[u64]) -> u128
    ensures { result ≡ sum words.now }
{
    let mut total = 0;
    for word in words {
        total += *word as u128;
    }
    total
}

fn push_seed(out: &mut String, seed: u64) -> Result<(), NoMemory>
    ensures { OnOk result (string_bytes out.new ≡ string_bytes out.old ++ seed_text seed) }
{
    write!(out, "seed {seed}: ")?;
    Ok(())
}

fn push_totals(out: &mut String, totals: Totals) -> Result<(), NoMemory>
    ensures { OnOk result (string_bytes out.new ≡ string_bytes out.old ++ totals_text totals) }
{
    let Totals {
        committed,
        aborted,
        faults,
        remains,
    } = totals;
    write!(
        out,
        "{committed} committed, {aborted} aborted, {faults} faults, {remains} remains"
    )?;
    Ok(())
}

fn push_sum(out: &mut String, total: u128) -> Result<(), NoMemory>
    ensures { OnOk result (string_bytes out.new ≡ string_bytes out.old ++ sum_text total) }
{
    write!(out, ", words sum {total}\n")?;
    Ok(())
}

/// The line that sums up a run of the script of a seed: what its journal counts, and the sum of all its words.
pub fn summary(alloc: Global, journal: &[Entry], words: &[u64], seed: u64) -> Result<Text, NoMemory>
    requires few { length journal.now ≤ 10000 }
    ensures { IfOk result (λ text. text ≡ summary_of journal.now words.now seed) }
{
    let mut out = String::new(alloc);
    push_seed(&mut out, seed)?;
    push_totals(&mut out, Totals::of(journal))?;
    push_sum(&mut out, sum_of(words))?;
    Ok(Text::from_vec(out.into_bytes()))
}
