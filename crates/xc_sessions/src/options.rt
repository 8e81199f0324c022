//! The words of a command line: each option is a text, and a number is read from it.

ghost use Rattle.std.specs.Prelude.{◌≡◌, None, Some, map, string_bytes};
ghost use Rattle.std.specs.Prelude.{IfOk, IfSome, IsErrOf};
ghost use Rattle.clap.specs.Words.{app_of, first_value, found_of};
ghost use Rattle.xc_options.specs.Options.{given_by};
ghost use Rattle.xc_sessions.specs.Options.{KeepsServeBounds, serve_chosen_given, port_of, serve_command, serve_settings_of};

use crate::{ServeChosen, SettingsErr};
use clap::{ArgMatches, Command};
use std::alloc::{AllocError, Global};
use xc_data::NoMemory;
use xc_options::{bare_command, number, read_words, rules, with_text_option};

const MOST_SESSIONS: u32 = 64;

const DEFAULT_PORT: u16 = 7040;

// The command that reads the words.
fn command<'a>(alloc: Global) -> Result<Command<'a>, AllocError>
    ensures { IfOk result (λ made. app_of made ≡ serve_command) }
{
    let bare = bare_command(alloc, "xcalls_serve");
    let one = with_text_option(alloc, bare, "sessions")?;
    let two = with_text_option(alloc, one, "port")?;
    let three = with_text_option(alloc, two, "attempts")?;
    let four = with_text_option(alloc, three, "patience")?;
    with_text_option(alloc, four, "undo-tries")
}

// What the words give each option.
fn matches<'a>(alloc: Global, words: &'a [String]) -> Result<ArgMatches<'a>, SettingsErr>
    ensures ok { IfOk result (λ matches.
        given_by serve_command (map string_bytes words.entry.now) ≡ Some (first_value (found_of matches))) }
    ensures usage { IsErrOf result SettingsErr.Usage → given_by serve_command (map string_bytes words.entry.now) ≡ None }
{
    match command(alloc) {
        Ok(command) => read_words(command, words),
        Err(_) => Err(SettingsErr::NoMemory),
    }
}

// What the options choose.
fn chosen(matches: &ArgMatches<'_>) -> Option<ServeChosen>
    ensures value { result ≡ serve_chosen_given (first_value (found_of matches.now)) }
    ensures bounds { IfSome result KeepsServeBounds }
{
    let sessions = number(matches, "sessions", 1, 1, MOST_SESSIONS)?;
    let port = number(matches, "port", DEFAULT_PORT as u32, 1, u16::MAX as u32)?;
    let rules = rules(matches)?;
    Some(ServeChosen {
        sessions,
        port: port as u16,
        rules,
    })
}

/// What the words after the program's name choose for a run with sessions.
pub fn serve_settings(alloc: Global, words: &[String]) -> Result<ServeChosen, SettingsErr>
    ensures ok { IfOk result (λ chosen. serve_settings_of (map string_bytes words.now) ≡ Some chosen) }
    ensures usage { IsErrOf result SettingsErr.Usage → serve_settings_of (map string_bytes words.now) ≡ None }
    ensures bounds { IfOk result KeepsServeBounds }
{
    let matches = matches(alloc, words)?;
    match chosen(&matches) {
        Some(chosen) => Ok(chosen),
        None => Err(SettingsErr::Usage),
    }
}

/// The port on which links are awaited: that of the words, and 7040 where they are refused or have none.
pub fn serve_port(alloc: Global, words: &[String]) -> Result<u16, NoMemory>
    ensures { IfOk result (λ port. port ≡ port_of (serve_settings_of (map string_bytes words.now))) }
{
    match serve_settings(alloc, words) {
        Ok(chosen) => Ok(chosen.port),
        Err(SettingsErr::Usage) => Ok(DEFAULT_PORT),
        Err(SettingsErr::NoMemory) => Err(NoMemory),
    }
}
