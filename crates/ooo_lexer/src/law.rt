//! What holds of every source: functions that do nothing, whose clauses are laws of the definitions.

ghost use Rattle.ooo_lexer.specs.Laws.{IsCutOneWay, HasOneTokenList, HasOneBreach, HasNoCutting, IsCutOrBroken, IsNumberFound, IsOneNumber, SpansAreWithin, SpansAreInOrder, SpansAreLexemes, HasValueOfParts};

/// A source is cut into pieces in one way at most, and so has one list of tokens at most (ISO/IEC 14882, [lex.pptoken]).
pub fn one_cutting()
    ensures pieces { IsCutOneWay }
    ensures tokens { HasOneTokenList }
{}

/// A source is cut or has a breach, not both, and has one breach at most: nothing is left undecided.
pub fn one_breach()
    ensures breach { HasOneBreach }
    ensures uncut { HasNoCutting }
    ensures either { IsCutOrBroken }
{}

/// The bytes of a number are one number at most: they have one value and one kind (ISO/IEC 14882, [lex.icon]).
pub fn one_number()
    ensures { IsOneNumber }
{}

/// `number_of` finds the number that bytes are, exactly.
pub fn number_found()
    ensures { IsNumberFound }
{}

/// The spans of a source's tokens: where they lie, and that their bytes are the lexemes.
pub fn spans()
    ensures within { SpansAreWithin }
    ensures in_order { SpansAreInOrder }
    ensures lexemes { SpansAreLexemes }
{}

/// A text's value is the joined values of its parts: one byte for each (ISO/IEC 14882, [lex.string] and [lex.ccon]).
pub fn text_value()
    ensures { HasValueOfParts }
{}
