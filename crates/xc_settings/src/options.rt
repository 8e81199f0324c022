ghost use Rattle.std.specs.Prelude.{◌≡◌, ◌≢◌, false, map, codes, string_bytes, [], IfOk, IfSome, OnOk, IsErrOf, None, Some};
ghost use Rattle.clap.specs.Words.{app_of, rule_of, fault_of, found_of, first_value, HasMatchesOf, IsUnsignedIn};
ghost use Rattle.xc_settings.specs.Matches.{HasNumbers};
ghost use Rattle.xc_settings.specs.Options.{number_rule, text_rule, command, number_or, schedule_in, seed_in, settings_of};
ghost use Rattle.xc_settings.specs.Options.{IsBetween, KeepsBounds};

use crate::values::jobs;
use crate::{Chosen, SettingsErr};
use clap::builder::ValueParser;
use clap::error::ErrorKind;
use clap::{Arg, ArgAction, ArgMatches, Command};
use std::alloc::{AllocError, Global};
use xc_data::JobNumbers;
use xc_model::Rules;

const DEFAULT_WORKERS: u32 = 4;

const MOST_WORKERS: u32 = 64;

const MOST_ATTEMPTS: u32 = 1000;

const MOST_PATIENCE: u32 = 1_000_000;

const MOST_UNDO_TRIES: u32 = 16;

// The rules where no word sets another.
const DEFAULT_RULES: Rules = Rules {
    attempts: 100,
    patience: 10_000,
    undo_tries: 3,
};

// An option that takes a number from `least` to `most`.
fn number_option<'a>(alloc: Global, id: &'a str, least: u64, most: u64) -> Arg<'a>
    ensures rule { rule_of result ≡ number_rule id.entry.now least most }
    ensures local { result.global ≡ false }
{
    Arg::new(alloc, id)
        .long(id)
        .action(ArgAction::Set)
        .value_parser(ValueParser::Unsigned(least, most))
}

// An option that takes a text.
fn text_option<'a>(alloc: Global, id: &'a str) -> Arg<'a>
    ensures rule { rule_of result ≡ text_rule id.entry.now }
    ensures local { result.global ≡ false }
{
    Arg::new(alloc, id).long(id).action(ArgAction::Set)
}

// The command that reads the words.
fn command<'a>(alloc: Global) -> Result<Command<'a>, AllocError>
    ensures { IfOk result (λ made. app_of made ≡ command) }
{
    let workers = number_option(alloc, "workers", 1, u64::from(MOST_WORKERS));
    let schedule = text_option(alloc, "schedule");
    let attempts = number_option(alloc, "attempts", 1, u64::from(MOST_ATTEMPTS));
    let patience = number_option(alloc, "patience", 0, u64::from(MOST_PATIENCE));
    let undo_tries = number_option(alloc, "undo-tries", 1, u64::from(MOST_UNDO_TRIES));
    let seed = number_option(alloc, "seed", 0, u64::MAX);
    Command::new(alloc, "xcalls")
        .no_binary_name(true)
        .disable_help_flag(true)
        .disable_version_flag(true)
        .arg(workers)?
        .arg(schedule)?
        .arg(attempts)?
        .arg(patience)?
        .arg(undo_tries)?
        .arg(seed)
}

// What the words give each option.
fn matches<'a>(alloc: Global, words: &'a [String]) -> Result<ArgMatches<'a>, SettingsErr>
    ensures ok { OnOk result (fault_of command (map string_bytes words.entry.now) ≡ []) }
    ensures usage { IsErrOf result SettingsErr.Usage → fault_of command (map string_bytes words.entry.now) ≢ [] }
    ensures matches { IfOk result (λ matches. HasMatchesOf command (map string_bytes words.entry.now) matches) }
    ensures numbers { IfOk result (λ matches. HasNumbers (found_of matches)) }
{
    let Ok(command) = command(alloc) else {
        return Err(SettingsErr::NoMemory);
    };
    match command.try_get_matches_from(words) {
        Ok(matches) => Ok(matches),
        Err(error) if error.kind() == ErrorKind::OutOfMemory => Err(SettingsErr::NoMemory),
        Err(_) => Err(SettingsErr::Usage),
    }
}

// The number from `least` to `most` that an option is given, or its default.
fn number(matches: &ArgMatches<'_>, id: &str, default: u32, least: u32, most: u32) -> u32
    requires text { IfSome (first_value (found_of matches.now) id.now) (IsUnsignedIn least most) }
    requires default { IsBetween least most default }
    ensures value { result ≡ number_or default (first_value (found_of matches.now) id.now) }
    ensures bounds { IsBetween least most result }
{
    match matches.get_str(id) {
        Some(text) => text.parse::<u32>().unwrap_or(default),
        None => default,
    }
}

// The number that the option `--seed` is given, if it is.
fn seed(matches: &ArgMatches<'_>) -> Option<u64>
    requires { IfSome (first_value (found_of matches.now) (codes "seed")) (IsUnsignedIn 0 18446744073709551615) }
    ensures { result ≡ seed_in (first_value (found_of matches.now) (codes "seed")) }
{
    match matches.get_str("seed") {
        Some(text) => Some(text.parse::<u64>().unwrap_or(0)),
        None => None,
    }
}

fn schedule(alloc: Global, matches: &ArgMatches<'_>) -> Result<Option<JobNumbers>, SettingsErr>
    ensures ok { IfOk result (λ schedule. schedule_in (first_value (found_of matches.now) (codes "schedule")) ≡ Some schedule) }
    ensures usage { IsErrOf result SettingsErr.Usage → schedule_in (first_value (found_of matches.now) (codes "schedule")) ≡ None }
{
    match matches.get_str("schedule") {
        Some(text) => Ok(Some(jobs(alloc, text)?)),
        None => Ok(None),
    }
}

/// What the words after the program's name choose.
pub fn settings(alloc: Global, words: &[String]) -> Result<Chosen, SettingsErr>
    ensures ok { IfOk result (λ chosen. settings_of (map string_bytes words.now) ≡ Some chosen) }
    ensures usage { IsErrOf result SettingsErr.Usage → settings_of (map string_bytes words.now) ≡ None }
    ensures bounds { IfOk result KeepsBounds }
{
    let matches = matches(alloc, words)?;
    let schedule = schedule(alloc, &matches)?;
    let attempts = number(
        &matches,
        "attempts",
        DEFAULT_RULES.attempts,
        1,
        MOST_ATTEMPTS,
    );
    let patience = number(
        &matches,
        "patience",
        DEFAULT_RULES.patience,
        0,
        MOST_PATIENCE,
    );
    let undo_tries = number(
        &matches,
        "undo-tries",
        DEFAULT_RULES.undo_tries,
        1,
        MOST_UNDO_TRIES,
    );
    Ok(Chosen {
        workers: number(&matches, "workers", DEFAULT_WORKERS, 1, MOST_WORKERS),
        schedule,
        rules: Rules {
            attempts,
            patience,
            undo_tries,
        },
        seed: seed(&matches),
    })
}
