//! Laws of the grammar. Each function does nothing, and its contract is the law.

ghost use Rattle.ooo_grammar.specs.Laws.{AreApart, BeginsWithin, Decided, DecidesTypes, FrontsAreBeginnings, HasNoTree, HasOneTree, IsAnywhere, IsRefusedOnce, RefusesFirst, TypesStay};
ghost use Rattle.ooo_grammar.specs.LexisLines.{LexisLines};
ghost use Rattle.ooo_grammar.specs.ExpressionsLines.{ExpressionsLines};
ghost use Rattle.ooo_grammar.specs.TimesLines.{TimesLines};
ghost use Rattle.ooo_grammar.specs.StatementsLines.{StatementsLines};
ghost use Rattle.ooo_grammar.specs.MembersLines.{MembersLines};
ghost use Rattle.ooo_grammar.specs.UnitsLines.{UnitsLines};

/// No list of tokens has two trees.
pub fn one_tree()
    ensures { HasOneTree }
{}

/// What begins a form by its three cases is what some text of the form begins with.
pub fn beginnings()
    ensures { FrontsAreBeginnings }
{}

/// The refused token is the first after which no text of the form goes on, or the end where one has to. Tokens have
/// one at most, and then no tree.
pub fn refused_token()
    ensures first { RefusesFirst }
    ensures once { IsRefusedOnce }
    ensures no_tree { HasNoTree }
{}

/// A reader of a form that keeps to limits finds the tree that is spelled within them, and no other; what it refuses
/// is the refused token, and what it finds too deep is the first token that goes beyond the limits.
pub fn readers()
    ensures { Decided }
{}

/// What is spelled within limits is spelled, and begins within them. What begins within limits is a beginning, and so
/// is, within them, each beginning of its own.
pub fn beginnings_within()
    ensures { BeginsWithin }
{}

/// Tokens have one first token that is too deep at most. Tokens that have one are not spelled within the limits, and no
/// token before it or at it is refused.
pub fn outcomes_apart()
    ensures { AreApart }
{}

/// A text's tree, what is spelled within limits and what begins it don't depend on where its bytes stand in memory.
pub fn anywhere()
    ensures texts { IsAnywhere }
    ensures types { TypesStay }
{}

/// A reader of types finds the type that symbols spell, and no other.
pub fn types()
    ensures { DecidesTypes }
{}

/// Each production prints as its line of EBNF.
pub fn lines()
    ensures words { LexisLines }
    ensures expressions { ExpressionsLines }
    ensures times { TimesLines }
    ensures statements { StatementsLines }
    ensures modules { MembersLines }
    ensures units { UnitsLines }
{}
