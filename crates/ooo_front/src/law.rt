//! What holds of the definitions: functions that do nothing, whose clauses are laws.

ghost use Rattle.ooo_front.specs.Laws.{HasAnswer, HasOneAnswer};

/// A text is accepted as one model, or one layer refuses it for one reason.
pub fn one_answer()
    ensures one { HasOneAnswer }
    ensures some { HasAnswer }
{
    ooo_lexer::law::one_cutting();
    ooo_lexer::law::one_breach();
    ooo_parser::law::one_answer();
    ooo_types::law::one_breach();
}
