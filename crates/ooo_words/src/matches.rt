ghost use Rattle.std.specs.Prelude.{◌≡◌, [], None, map, drop, IfOk, IfErr};
ghost use Rattle.std.specs.String.{string_bytes};
ghost use Rattle.clap.specs.Simple.{app_of};
ghost use Rattle.ooo_words.specs.Parser.{HasValuesOf, parser_of};
ghost use Rattle.ooo_words.specs.Reading.{first_breach, settings_of};

use crate::options::CommandName;
use crate::refused::WordsError;
use clap::error::ErrorKind;
use clap::{Arg, ArgMatches, Command as Parser};
use std::alloc::{AllocError, Global};

/// What `clap` finds in the words of a command, of which the first names the command, where the settings after it
/// have no breach.
pub fn matches(
    alloc: Global,
    command: CommandName,
    words: &[String],
) -> Result<ArgMatches<'_>, WordsError>
    requires { first_breach command [] (settings_of (drop 1 (map string_bytes words.now))) ≡ None }
    ensures ok { IfOk result (HasValuesOf (settings_of (drop 1 (map string_bytes words.now)))) }
    ensures err { IfErr result (λ e. e ≡ WordsError.OutOfMemory) }
{
    let parser = parser(alloc, command)?;
    match parser.try_get_matches_from(words) {
        Ok(matches) => Ok(matches),
        Err(error) => match error.kind() {
            ErrorKind::OutOfMemory => Err(WordsError::OutOfMemory),
            _ => unreachable!(),
        },
    }
}

/// The parser of a command: each of its options takes one value.
fn parser<'a>(alloc: Global, command: CommandName) -> Result<Parser<'a>, AllocError>
    ensures { IfOk result (λ parser. app_of parser ≡ parser_of command) }
{
    let name: &'a str = command.text();
    let mut parser = Parser::new(alloc, name).disable_help_flag(true);
    for option in command.options() {
        let name: &'a str = option.text();
        parser = parser.arg(Arg::new(alloc, name).long(name))?;
    }
    Ok(parser)
}
