ghost use Rattle.std.specs.Prelude.{◌≡◌, ◌++◌, ◌*◌, codes, IfOk, OnOk, string_bytes};
ghost use Rattle.std.specs.Fmt.{decimal};
ghost use Rattle.xc_generator.specs.Draws.{state};
ghost use Rattle.xc_generator.specs.Generated.{generated_word_line, taking_lines, giving_lines, logging_lines, transfer_lines};
ghost use Rattle.xc_generator.specs.Generated.{texts, transaction, generated_job_lines, generated};

use crate::draws::Draws;
use crate::transfer::Transfer;
use std::alloc::Global;
use xc_data::{NoMemory, Text};

fn push_words(out: &mut String, count: u64) -> Result<(), NoMemory>
    ensures { OnOk result (string_bytes out.new ≡ string_bytes out.old ++ texts generated_word_line 0 count) }
{
    for index in 0..count {
        write!(out, "word {index} 1000\n")?;
    }
    Ok(())
}

fn push_taking(out: &mut String, transfer: Transfer) -> Result<(), NoMemory>
    ensures { OnOk result (string_bytes out.new ≡ string_bytes out.old ++ taking_lines transfer) }
{
    let Transfer { from, amount, .. } = transfer;
    write!(
        out,
        "tx\nload {from} -> x\nabort if x < {amount}\nstore {from} x - {amount}\n"
    )?;
    Ok(())
}

fn push_giving(out: &mut String, transfer: Transfer) -> Result<(), NoMemory>
    ensures { OnOk result (string_bytes out.new ≡ string_bytes out.old ++ giving_lines transfer) }
{
    let Transfer { to, amount, .. } = transfer;
    write!(out, "load {to} -> y\nstore {to} y + {amount}\n")?;
    Ok(())
}

fn push_logging(out: &mut String, transfer: Transfer) -> Result<(), NoMemory>
    ensures { OnOk result (string_bytes out.new ≡ string_bytes out.old ++ logging_lines transfer) }
{
    let amount = transfer.amount;
    write!(
        out,
        "x_open log -> f\nx_write_seq f \"{amount}\\n\"\nx_close f\ncommit\n"
    )?;
    Ok(())
}

fn push_transfer(out: &mut String, transfer: Transfer) -> Result<(), NoMemory>
    ensures { OnOk result (string_bytes out.new ≡ string_bytes out.old ++ transfer_lines transfer) }
{
    push_taking(out, transfer)?;
    push_giving(out, transfer)?;
    push_logging(out, transfer)
}

#[tactic(auto, using(crate::proofs::Runs::state_begins))]
fn push_transactions(out: &mut String, draws: &mut Draws, count: u64) -> Result<(), NoMemory>
    ensures text { OnOk result (string_bytes out.new ≡ string_bytes out.old ++ texts (transaction draws.old.state) 0 count) }
    ensures state { OnOk result (draws.new.state ≡ state draws.old.state (3 * count)) }
{
    for _ in 0..count {
        push_transfer(out, draws.transfer())?;
    }
    Ok(())
}

fn push_job(out: &mut String, draws: &mut Draws, number: u64) -> Result<(), NoMemory>
    ensures text { OnOk result (string_bytes out.new ≡ string_bytes out.old
        ++ (codes "job g" ++ decimal number ++ codes "\n" ++ texts (transaction draws.old.state) 0 25 ++ codes "end\n")) }
    ensures state { OnOk result (draws.new.state ≡ state draws.old.state (3 * 25)) }
{
    write!(out, "job g{number}\n")?;
    push_transactions(out, draws, 25)?;
    write!(out, "end\n")?;
    Ok(())
}

#[tactic(auto, using(crate::proofs::Runs::state_begins))]
fn push_jobs(out: &mut String, seed: u64, count: u64) -> Result<(), NoMemory>
    ensures { OnOk result (string_bytes out.new ≡ string_bytes out.old ++ texts (generated_job_lines seed) 1 count) }
{
    let mut draws = Draws { state: seed };
    for before in 0..count {
        push_job(out, &mut draws, before + 1)?;
    }
    Ok(())
}

/// The script of a seed. Each seed has one, and the same each time.
pub fn generate(alloc: Global, seed: u64) -> Result<Text, NoMemory>
    ensures { IfOk result (λ text. text ≡ generated seed) }
{
    let mut out = String::new(alloc);
    write!(out, "words 64\n")?;
    push_words(&mut out, 64)?;
    write!(out, "file log\n")?;
    push_jobs(&mut out, seed, 20)?;
    Ok(Text::from_vec(out.into_bytes()))
}
