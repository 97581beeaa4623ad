//! The parser of a command's options.

ghost use Rattle.std.specs.Prelude.{◌≡◌, IfOk, List, Some, false, map, drop};
ghost use Rattle.clap.specs.Words.{app_of, rule_of};
ghost use Rattle.estelle_words.specs.Words.{Pair, texts, word_of, pairs_of, options_of};
ghost use Rattle.estelle_words.specs.Parser.{app_with, option_rule, GivesValues};

use crate::command::Command;
use clap::error::ErrorKind;
use clap::{Arg, ArgAction, ArgMatches};
use std::alloc::{AllocError, Global};

/// The option of this name, which takes one value.
fn option_named<'a>(alloc: Global, name: &'a str) -> Arg<'a>
    ensures rule { rule_of result ≡ option_rule name.entry.now }
    ensures local { result.global ≡ false }
{
    Arg::new(alloc, name)
        .long(name)
        .action(ArgAction::Set)
        .required(name == "stations")
}

/// A parser of the command's options alone. The command word stands where `clap` drops the program's name.
fn parser_for<'a>(alloc: Global, command: Command) -> Result<clap::Command<'a>, AllocError>
    ensures { IfOk result (λ r. app_of r ≡ app_with (options_of command)) }
{
    let mut parser = clap::Command::new(alloc, "estelle").disable_help_flag(true);
    for name in command.options() {
        parser = parser.arg(option_named(alloc, name))?;
    }
    Ok(parser)
}

/// The values of the command's options in the words after the first, and none where the words do
/// not give them.
pub fn matched<'a>(
    alloc: Global,
    command: Command,
    words: &'a [&'a str],
) -> Result<Option<ArgMatches<'a>>, AllocError>
    ensures { IfOk result (λ found. (ps : List Pair) → pairs_of (map word_of (drop 1 (texts words.entry.now))) ≡ Some ps
        → GivesValues (options_of command) ps found) }
{
    let parser = parser_for(alloc, command)?;
    match parser.try_get_matches_from(words) {
        Ok(matches) => Ok(Some(matches)),
        Err(error) => {
            match error.kind() {
                ErrorKind::OutOfMemory => Err(AllocError),
                _ => Ok(None),
            }
        }
    }
}
