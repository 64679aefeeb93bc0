//! What holds of the definitions: functions that do nothing, whose clauses are laws.

ghost use Rattle.ooo_parser.specs.Anywhere.{IsRefusedAnywhere, IsTreeAnywhere};
ghost use Rattle.ooo_parser.specs.Laws.{OneAnswer};
ghost use Rattle.ooo_parser.specs.SymbolLaws.{BeginningsStay, NumbersHaveTheirValues, SymbolsStandAtTokens, WordsAreWords};

use ooo_grammar::law::{beginnings, beginnings_within, readers, refused_token, types};

/// Symbols have one tree, or one breach at one place.
pub fn one_answer()
    ensures { OneAnswer }
{
    readers();
    beginnings();
    beginnings_within();
    refused_token();
    types();
}

/// The tree of symbols, and what they are refused as and where, are the same wherever their bytes stand in memory.
pub fn anywhere()
    ensures tree { IsTreeAnywhere }
    ensures refused { IsRefusedAnywhere }
{
    ooo_grammar::law::anywhere();
}

/// A single symbol is a word exactly where its token is one, and a number has the value that its bytes mean (ISO/IEC
/// 14882, [lex.icon]).
pub fn single_symbols()
    ensures words { WordsAreWords }
    ensures numbers { NumbersHaveTheirValues }
{
    ooo_lexer::law::number_found();
}

/// What follows a beginning that leaves no pair open changes none of its symbols.
pub fn beginnings_stay()
    ensures { BeginningsStay }
{}

/// Each symbol stands, and begins, where some token of the source stands.
pub fn places()
    ensures { SymbolsStandAtTokens }
{}
