//! Commands whose options take texts, and what words give these options.

ghost use Rattle.std.specs.Prelude.{◌≡◌, false, map, string_bytes, IfOk, IsErrOf, None, Some, true};
ghost use Rattle.clap.specs.Words.{app_of, first_value, found_of, is_simple_and_free, rule_of, with_rule};
ghost use Rattle.xc_settings.specs.Options.{text_rule};
ghost use Rattle.xc_options.specs.Options.{bare_app, given_by};

use crate::SettingsErr;
use clap::error::ErrorKind;
use clap::{Arg, ArgAction, ArgMatches, Command};
use std::alloc::{AllocError, Global};

/// A command without options, which is given the words after the program's name. It has neither a help nor a version flag.
pub fn bare_command<'a>(alloc: Global, name: &'a str) -> Command<'a>
    ensures { app_of result ≡ bare_app name.entry.now }
{
    Command::new(alloc, name)
        .no_binary_name(true)
        .disable_help_flag(true)
        .disable_version_flag(true)
}

// An option that takes a text.
fn text_option<'a>(alloc: Global, id: &'a str) -> Arg<'a>
    ensures rule { rule_of result ≡ text_rule id.entry.now }
    ensures local { result.global ≡ false }
{
    Arg::new(alloc, id).long(id).action(ArgAction::Set)
}

/// The command with one option more, `--id TEXT`.
pub fn with_text_option<'a>(
    alloc: Global,
    command: Command<'a>,
    id: &'a str,
) -> Result<Command<'a>, AllocError>
    ensures { IfOk result (λ made. app_of made ≡ with_rule (app_of command.entry) (text_rule id.entry.now)) }
{
    command.arg(text_option(alloc, id))
}

/// What the words give each option. Words that the command finds a fault in are refused with `Usage`.
pub fn read_words<'a>(
    command: Command<'a>,
    words: &'a [String],
) -> Result<ArgMatches<'a>, SettingsErr>
    requires simple { is_simple_and_free (app_of command) ≡ true }
    ensures ok { IfOk result (λ matches.
        given_by (app_of command.entry) (map string_bytes words.entry.now) ≡ Some (first_value (found_of matches))) }
    ensures usage { IsErrOf result SettingsErr.Usage → given_by (app_of command.entry) (map string_bytes words.entry.now) ≡ None }
{
    match command.try_get_matches_from(words) {
        Ok(matches) => Ok(matches),
        Err(error) if error.kind() == ErrorKind::OutOfMemory => Err(SettingsErr::NoMemory),
        Err(_) => Err(SettingsErr::Usage),
    }
}
