//! Laws of what checked trees are without their additions. Each function does nothing, and its contract is the law.

ghost use Rattle.ooo_erasure.specs.Laws.{CoversTexts, ErasesExprs, ErasesSimples, ErasesStats};

/// An expression is what it is checked to be, without additions: in any scope, inside another expression or by itself,
/// and as the right side of an assignment.
pub fn exprs()
    ensures { ErasesExprs }
{}

/// So are times, events, what is waited for, and simple statements.
pub fn simples()
    ensures { ErasesSimples }
{}

/// So are statements and bodies, in any context.
pub fn stats()
    ensures { ErasesStats }
{}

/// Each text is what some checked text is without additions, so no form of it is missed or taken for another.
pub fn texts()
    ensures { CoversTexts }
{}
