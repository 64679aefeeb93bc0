//! Laws of checked texts. Each function does nothing, and its contract is the law.

ghost use Rattle.ooo_types.specs.Erasing.{ErasesTexts};
ghost use Rattle.ooo_types.specs.Told.{HasOneBreach, IsEither, IsNotBoth};

/// A text is what it is checked to be, without additions: its names may be unknown and its types wrong, and no part of it
/// is lost, added or moved.
pub fn texts()
    ensures { ErasesTexts }
{
    ooo_erasure::law::exprs();
    ooo_erasure::law::simples();
    ooo_erasure::law::stats();
}

/// A text has one breach that is told, or none at all, not both.
pub fn one_breach()
    ensures breach { HasOneBreach }
    ensures not_both { IsNotBoth }
    ensures either { IsEither }
{}
