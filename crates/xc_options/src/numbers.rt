//! The numbers that options are given.

ghost use Rattle.std.specs.Prelude.{◌≡◌, IfSome};
ghost use Rattle.clap.specs.Words.{first_value, found_of};
ghost use Rattle.xc_settings.specs.Options.{IsBetween};
ghost use Rattle.xc_options.specs.Options.{number_given, number_between};

use clap::ArgMatches;

/// The number that a text spells, where it is from `least` to `most`. A plus may lead its digits, and so may zeros.
pub fn number_of(text: &str, least: u32, most: u32) -> Option<u32>
    ensures value { result ≡ number_between least most text.now }
    ensures bounds { IfSome result (IsBetween least most) }
{
    let number = text.parse::<u32>().ok()?;
    if number < least || number > most {
        return None;
    }
    Some(number)
}

/// The number that an option is given, or its default; nothing where its text spells none from `least` to `most`.
pub fn number(
    matches: &ArgMatches<'_>,
    id: &str,
    default: u32,
    least: u32,
    most: u32,
) -> Option<u32>
    requires { IsBetween least most default }
    ensures value { result ≡ number_given default least most (first_value (found_of matches.now) id.now) }
    ensures bounds { IfSome result (IsBetween least most) }
{
    match matches.get_str(id) {
        Some(text) => number_of(text, least, most),
        None => Some(default),
    }
}
