ghost use Rattle.std.specs.Prelude.{◌≡◌, [], List, map, Some, None, OnOk, IfOk, IfErr};
ghost use Rattle.std.specs.String.{string_bytes};
ghost use Rattle.ooo_words.specs.Options.{option_word};
ghost use Rattle.ooo_words.specs.Reading.{breach_of, first_breach, is_met, refused_with, settings_of};
ghost use Rattle.ooo_words.specs.Written.{IsBreach, setting_of};

use crate::options::{CommandName, OptionName};
use crate::refused::{WordsBreach, WordsError};
use crate::setting::{Written, first_setting};
use ooo_value::Name;
use std::alloc::{AllocError, Global};

/// The first breach of the words after the command, or Ok where there is none.
pub fn check_settings(
    alloc: Global,
    command: CommandName,
    words: &[String],
) -> Result<(), WordsError>
    ensures ok { OnOk result
        (first_breach command [] (settings_of (map string_bytes words.now)) ≡ None) }
    ensures err { IfErr result
        (IsBreach (first_breach command [] (settings_of (map string_bytes words.now)))) }
{
    let mut met = Vec::new(alloc);
    let mut rest = words;
    while let Some((setting, after)) = first_setting(rest) {
        met.push(option_set(alloc, command, &met, &setting)?)?;
        rest = after;
    }
    Ok(())
}

/// The option that a setting is of, where the setting has no breach after those of the options met so far.
fn option_set(
    alloc: Global,
    command: CommandName,
    met: &[OptionName],
    setting: &Written<'_>,
) -> Result<OptionName, WordsError>
    ensures named { IfOk result (λ option. option_word option ≡ setting.now.option.now) }
    ensures ok { OnOk result
        (breach_of command (map option_word met.now) (setting_of setting.now) ≡ None) }
    ensures err { IfErr result
        (IsBreach (breach_of command (map option_word met.now) (setting_of setting.now))) }
{
    let word = setting.option;
    let Some(option) = command.option_named(word) else {
        return Err(refused(alloc, WordsBreach::UnknownOption, word)?);
    };
    if is_among(met, option) {
        return Err(refused(alloc, WordsBreach::Twice, word)?);
    }
    let Some(value) = setting.value else {
        return Err(refused(alloc, WordsBreach::NoValue, word)?);
    };
    if !option.takes(value) {
        return Err(refused(alloc, WordsBreach::BadValue, word)?);
    }
    Ok(option)
}

/// The error of a breach that is told with a word.
fn refused(alloc: Global, breach: WordsBreach, word: &str) -> Result<WordsError, AllocError>
    ensures { IfOk result (λ e. e ≡ refused_with breach word.now) }
{
    Ok(WordsError::Refused(breach, Some(Name::new(alloc, word)?)))
}

/// Whether an option is among those met.
fn is_among(met: &[OptionName], option: OptionName) -> bool
    ensures { result ≡ is_met (option_word option) (map option_word met.now) }
{
    met.iter().any(|other| other.word() == option.word())
}
