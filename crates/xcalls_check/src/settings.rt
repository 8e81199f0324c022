//! The words of a command line, and what they choose.

ghost use Rattle.std.specs.Prelude.{◌≡◌, ◌≤◌, codes, false, None, Some, map, string_bytes, IfOk, IfSome, IsErrOf};
ghost use Rattle.clap.specs.Words.{app_of, first_value, found_of, rule_of, with_rule};
ghost use Rattle.xc_settings.specs.Options.{AreRules};
ghost use Rattle.xc_options.specs.Options.{number_given};
ghost use Rattle.xcalls_check.specs.Settings.{basis_chosen, check_command, check_settings_of, flag_rule, is_flag_given};
ghost use Rattle.xcalls_check.specs.Settings.{clients_rules_chosen, rules_chosen, script_rules_chosen};

use clap::{Arg, ArgAction, ArgMatches, Command};
use std::alloc::{AllocError, Global};
use xc_check::Basis;
use xc_model::Rules;
use xc_options::{
    DEFAULT_RULES, MOST_UNDO_TRIES, SettingsErr, attempts, bare_command, number, read_words,
    undo_tries, with_text_option,
};

// The rules of clients where no word sets another: those of a desk in C, which sets no bound on attempts.
const CLIENTS_RULES: Rules = Rules {
    attempts: u32::MAX,
    patience: 1_000_000,
    undo_tries: 16,
};

// An option without a text.
fn flag_option<'a>(alloc: Global, id: &'a str) -> Arg<'a>
    ensures rule { rule_of result ≡ flag_rule id.entry.now }
    ensures local { result.global ≡ false }
{
    Arg::new(alloc, id).long(id).action(ArgAction::SetTrue)
}

// The command with one option more, `--id`.
fn with_flag<'a>(
    alloc: Global,
    command: Command<'a>,
    id: &'a str,
) -> Result<Command<'a>, AllocError>
    ensures { IfOk result (λ made. app_of made ≡ with_rule (app_of command.entry) (flag_rule id.entry.now)) }
{
    command.arg(flag_option(alloc, id))
}

// The command that reads the words.
fn command<'a>(alloc: Global) -> Result<Command<'a>, AllocError>
    ensures { IfOk result (λ made. app_of made ≡ check_command) }
{
    let bare = bare_command(alloc, "xcalls_check");
    let command = with_text_option(alloc, bare, "attempts")?;
    let command = with_text_option(alloc, command, "undo-tries")?;
    with_flag(alloc, command, "prologue")
}

// Clients' texts are judged, by their prologue.
fn has_prologue(matches: &ArgMatches<'_>) -> bool
    ensures { result ≡ is_flag_given (first_value (found_of matches.now) (codes "prologue")) }
{
    match matches.get_str("prologue") {
        Some(text) => text == "true",
        None => false,
    }
}

// The rules of a script that the options choose. No option sets the patience, since nothing that is judged depends on it.
fn script_rules(matches: &ArgMatches<'_>) -> Option<Rules>
    ensures value { result ≡ script_rules_chosen (first_value (found_of matches.now)) }
    ensures bounds { IfSome result AreRules }
{
    let attempts = attempts(matches)?;
    let undo_tries = undo_tries(matches)?;
    Some(Rules {
        attempts,
        patience: DEFAULT_RULES.patience,
        undo_tries,
    })
}

// How often clients try one transaction, 1 to 4,294,967,295. None where the option's text is no such number.
fn clients_attempts(matches: &ArgMatches<'_>) -> Option<u32>
    ensures value { result ≡ number_given 4294967295 1 4294967295 (first_value (found_of matches.now) (codes "attempts")) }
    ensures bounds { IfSome result (λ attempts. 1 ≤ attempts) }
{
    number(matches, "attempts", CLIENTS_RULES.attempts, 1, u32::MAX)
}

// How often one compensation of clients is tried, 1 to 16. None where the option's text is no such number.
fn clients_undo_tries(matches: &ArgMatches<'_>) -> Option<u32>
    ensures { result ≡ number_given 16 1 16 (first_value (found_of matches.now) (codes "undo-tries")) }
{
    number(
        matches,
        "undo-tries",
        CLIENTS_RULES.undo_tries,
        1,
        MOST_UNDO_TRIES,
    )
}

// The rules of clients that the options choose.
fn clients_rules(matches: &ArgMatches<'_>) -> Option<Rules>
    ensures value { result ≡ clients_rules_chosen (first_value (found_of matches.now)) }
    ensures bounds { IfSome result (λ rules. 1 ≤ rules.attempts) }
{
    let attempts = clients_attempts(matches)?;
    let undo_tries = clients_undo_tries(matches)?;
    Some(Rules {
        attempts,
        patience: CLIENTS_RULES.patience,
        undo_tries,
    })
}

// The rules of clients, or of a script.
fn rules(matches: &ArgMatches<'_>, clients: bool) -> Option<Rules>
    ensures value { result ≡ rules_chosen clients (first_value (found_of matches.now)) }
    ensures bounds { IfSome result (λ rules. 1 ≤ rules.attempts) }
    ensures script { clients ≡ false → IfSome result AreRules }
{
    if clients {
        clients_rules(matches)
    } else {
        script_rules(matches)
    }
}

// What all options choose.
fn basis(matches: &ArgMatches<'_>) -> Option<Basis>
    ensures value { result ≡ basis_chosen (first_value (found_of matches.now)) }
    ensures bounds { IfSome result (λ basis. 1 ≤ basis.rules.attempts) }
    ensures script { IfSome result (λ basis. basis.clients ≡ false → AreRules basis.rules) }
{
    let clients = has_prologue(matches);
    let rules = rules(matches, clients)?;
    Some(Basis { rules, clients })
}

/// What the words after the program's name choose.
pub fn check_settings(alloc: Global, words: &[String]) -> Result<Basis, SettingsErr>
    ensures ok { IfOk result (λ basis. check_settings_of (map string_bytes words.now) ≡ Some basis) }
    ensures usage { IsErrOf result SettingsErr.Usage → check_settings_of (map string_bytes words.now) ≡ None }
    ensures bounds { IfOk result (λ basis. 1 ≤ basis.rules.attempts) }
    ensures script { IfOk result (λ basis. basis.clients ≡ false → AreRules basis.rules) }
{
    let Ok(command) = command(alloc) else {
        return Err(SettingsErr::NoMemory);
    };
    let matches = read_words(command, words)?;
    match basis(&matches) {
        Some(basis) => Ok(basis),
        None => Err(SettingsErr::Usage),
    }
}
