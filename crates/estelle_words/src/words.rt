//! The words of the command line.

ghost use Rattle.std.specs.Prelude.{◌≡◌, IfOk};
ghost use Rattle.clap.specs.Words.{first_value, found_of};
ghost use Rattle.estelle_words.specs.Words.{meaning, texts, settings_by, number_or, number_if_any, greatest_seed};

use crate::command::{Command, Settings};
use crate::numbers::{number, seed};
use crate::parser::matched;
use crate::shape::are_options;
use clap::ArgMatches;
use std::alloc::{AllocError, Global};

/// The number of an option, and `default` where it is not given.
fn number_of(matches: &ArgMatches, name: &str, low: u32, high: u32, default: u32) -> Option<u32>
    ensures { result ≡ number_or low high default (first_value (found_of matches.now) name.now) }
{
    match matches.get_str(name) {
        Some(text) => number(text, low, high),
        None => Some(default),
    }
}

/// The seed, if one is given. None is there where its text is no number.
fn seed_of(matches: &ArgMatches, name: &str) -> Option<Option<u64>>
    ensures { result ≡ number_if_any 0 greatest_seed (first_value (found_of matches.now) name.now) }
{
    match matches.get_str(name) {
        Some(text) => match seed(text) {
            Some(number) => Some(Some(number)),
            None => None,
        },
        None => Some(None),
    }
}

/// The settings that the values of the options make.
fn settings_read(matches: &ArgMatches, command: Command) -> Option<Settings>
    ensures { result ≡ settings_by command (first_value (found_of matches.now)) }
{
    let turns = number_of(matches, "turns", 0, 1_000_000, 10_000)?;
    let seed = seed_of(matches, "seed")?;
    let workers = number_of(matches, "workers", 0, 64, 0)?;
    let budget = number_of(matches, "budget", 1, 100_000_000, 1_000_000)?;
    let stations = number_of(matches, "stations", 2, 200, 2)?;
    Some(Settings {
        command,
        turns,
        seed,
        workers,
        budget,
        stations,
    })
}

/// The meaning of the words that stand behind the program's name, and none where they have no meaning.
///
/// The first word is the command. Each later word is `--name=value`, or `--name` followed by a word that does not begin with
/// `-`. Options come in any order, each at most once. A value is 1 to 20 decimal digits, leading zeros included, whose number
/// lies in the option's range. No word is abbreviated, and there are no help words.
pub fn settings(alloc: Global, words: &[&str]) -> Result<Option<Settings>, AllocError>
    ensures { IfOk result (λ found. found ≡ meaning (texts words.entry.now)) }
{
    let [first, options @ ..] = words else {
        return Ok(None);
    };
    let Some(command) = Command::named(first) else {
        return Ok(None);
    };
    if !are_options(options) {
        return Ok(None);
    }
    let Some(matches) = matched(alloc, command, words)? else {
        return Ok(None);
    };
    Ok(settings_read(&matches, command))
}
