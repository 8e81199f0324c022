//! The rules of a run: each has an option, with its bounds and its default.

ghost use Rattle.std.specs.Prelude.{◌≡◌, ◌≤◌, IfSome};
ghost use Rattle.clap.specs.Words.{first_value, found_of};
ghost use Rattle.xc_settings.specs.Options.{AreRules, IsUpTo};
ghost use Rattle.xc_options.specs.Options.{attempts_given, patience_given, rules_given, undo_tries_given};

use crate::number;
use clap::ArgMatches;
use xc_model::Rules;

/// How often one transaction is tried at most.
pub const MOST_ATTEMPTS: u32 = 1000;

/// How often a job waits in one attempt at most.
pub const MOST_PATIENCE: u32 = 1_000_000;

/// How often one compensation is tried at most.
pub const MOST_UNDO_TRIES: u32 = 16;

/// The rules where no word sets another.
pub const DEFAULT_RULES: Rules = Rules {
    attempts: 100,
    patience: 10_000,
    undo_tries: 3,
};

/// What `--attempts` chooses: how often one transaction is tried, 1 to 1,000. None where its text is no such number.
pub fn attempts(matches: &ArgMatches<'_>) -> Option<u32>
    ensures value { result ≡ attempts_given (first_value (found_of matches.now)) }
    ensures bounds { IfSome result (IsUpTo 1000) }
{
    number(
        matches,
        "attempts",
        DEFAULT_RULES.attempts,
        1,
        MOST_ATTEMPTS,
    )
}

/// What `--patience` chooses: how often a job waits in one attempt, 0 to 1,000,000. None where its text is no such number.
pub fn patience(matches: &ArgMatches<'_>) -> Option<u32>
    ensures value { result ≡ patience_given (first_value (found_of matches.now)) }
    ensures bounds { IfSome result (λ patience. patience ≤ 1000000) }
{
    number(
        matches,
        "patience",
        DEFAULT_RULES.patience,
        0,
        MOST_PATIENCE,
    )
}

/// What `--undo-tries` chooses: how often one compensation is tried, 1 to 16. None where its text is no such number.
pub fn undo_tries(matches: &ArgMatches<'_>) -> Option<u32>
    ensures value { result ≡ undo_tries_given (first_value (found_of matches.now)) }
    ensures bounds { IfSome result (IsUpTo 16) }
{
    number(
        matches,
        "undo-tries",
        DEFAULT_RULES.undo_tries,
        1,
        MOST_UNDO_TRIES,
    )
}

/// The rules that the three options choose. None where one's text is no number of it.
pub fn rules(matches: &ArgMatches<'_>) -> Option<Rules>
    ensures value { result ≡ rules_given (first_value (found_of matches.now)) }
    ensures bounds { IfSome result AreRules }
{
    let attempts = attempts(matches)?;
    let patience = patience(matches)?;
    let undo_tries = undo_tries(matches)?;
    Some(Rules {
        attempts,
        patience,
        undo_tries,
    })
}
