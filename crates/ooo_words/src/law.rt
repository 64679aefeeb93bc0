//! What holds of all words: functions that do nothing, whose clauses are laws of the definitions.

ghost use Rattle.ooo_words.specs.Laws.{IsReadOneWay, IsReadInAnyOrder};

/// `--name VALUE` and `--name=VALUE` are one: words that write the same settings in the same order are read alike,
/// also where they are refused.
pub fn one_writing()
    ensures { IsReadOneWay }
{}

/// The order of the options doesn't matter: words that ask for a command ask for it in any order of their settings.
pub fn any_order()
    ensures { IsReadInAnyOrder }
{}
