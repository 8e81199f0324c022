//! The words of a command line: each option is a text, and a number is read from it.

ghost use Rattle.std.specs.Prelude.{◌≡◌, None, Some, map, string_bytes};
ghost use Rattle.std.specs.Prelude.{IfOk, IfSome, IsErrOf};
ghost use Rattle.clap.specs.Words.{app_of, first_value, found_of};
ghost use Rattle.xc_options.specs.Options.{given_by};
ghost use Rattle.xc_coop.specs.Options.{KeepsCoopBounds, coop_chosen_given, coop_command, coop_settings_of};

use crate::{CoopChosen, SettingsErr};
use clap::{ArgMatches, Command};
use std::alloc::{AllocError, Global};
use xc_options::{bare_command, number, read_words, rules, with_text_option};

const MOST_SHARE: u32 = 1000;

// The command that reads the words.
fn command<'a>(alloc: Global) -> Result<Command<'a>, AllocError>
    ensures { IfOk result (λ made. app_of made ≡ coop_command) }
{
    let bare = bare_command(alloc, "xcalls_coop");
    let one = with_text_option(alloc, bare, "share")?;
    let two = with_text_option(alloc, one, "attempts")?;
    let three = with_text_option(alloc, two, "patience")?;
    with_text_option(alloc, three, "undo-tries")
}

// What the words give each option.
fn matches<'a>(alloc: Global, words: &'a [String]) -> Result<ArgMatches<'a>, SettingsErr>
    ensures ok { IfOk result (λ matches.
        given_by coop_command (map string_bytes words.entry.now) ≡ Some (first_value (found_of matches))) }
    ensures usage { IsErrOf result SettingsErr.Usage → given_by coop_command (map string_bytes words.entry.now) ≡ None }
{
    match command(alloc) {
        Ok(command) => read_words(command, words),
        Err(_) => Err(SettingsErr::NoMemory),
    }
}

// What the options choose.
fn chosen(matches: &ArgMatches<'_>) -> Option<CoopChosen>
    ensures value { result ≡ coop_chosen_given (first_value (found_of matches.now)) }
    ensures bounds { IfSome result KeepsCoopBounds }
{
    let share = number(matches, "share", 1, 1, MOST_SHARE)?;
    let rules = rules(matches)?;
    Some(CoopChosen { share, rules })
}

/// What the words after the program's name choose for a cooperative run.
pub fn coop_settings(alloc: Global, words: &[String]) -> Result<CoopChosen, SettingsErr>
    ensures ok { IfOk result (λ chosen. coop_settings_of (map string_bytes words.now) ≡ Some chosen) }
    ensures usage { IsErrOf result SettingsErr.Usage → coop_settings_of (map string_bytes words.now) ≡ None }
    ensures bounds { IfOk result KeepsCoopBounds }
{
    let matches = matches(alloc, words)?;
    match chosen(&matches) {
        Some(chosen) => Ok(chosen),
        None => Err(SettingsErr::Usage),
    }
}
