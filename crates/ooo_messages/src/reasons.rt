ghost use Rattle.std.specs.Prelude.{◌≡◌};
ghost use Rattle.ooo_messages.specs.Reasons.{code_reason, elab_reason, lexer_reason, parser_reason};
ghost use Rattle.ooo_messages.specs.Reasons.{segments_reason, stop_reason, types_reason, words_reason};

use ooo_checked::TypeBreach;
use ooo_lexer::LexBreach;
use ooo_syntax::ParseBreach;
use ooo_walk::ElabBreach;
use ooo_words::WordsBreach;

/// What is wrong with words.
pub fn words_reason(breach: WordsBreach) -> &'static str
    ensures { result.now ≡ words_reason breach }
{
    match breach {
        WordsBreach::NoCommand => "there is no command",
        WordsBreach::UnknownCommand => "there is no such command",
        WordsBreach::UnknownOption => "the command has no such option",
        WordsBreach::NoValue => "the option has no value",
        WordsBreach::BadValue => "the option's value is out of form or range",
        WordsBreach::Twice => "the option is given twice",
    }
}

/// What is wrong with words that ask for the run of a text, where neither of them stops it.
pub fn stop_reason() -> &'static str
    ensures { result.now ≡ stop_reason }
{
    "neither --stop nor the text's sc_start says when the run ends"
}

/// What is wrong with a text that can't be cut into tokens.
pub fn lexer_reason(breach: LexBreach) -> &'static str
    ensures { result.now ≡ lexer_reason breach }
{
    match breach {
        LexBreach::BadByte => "this byte begins no token and no escape",
        LexBreach::NumberTooWide => "this number is too great for each of its kinds",
        LexBreach::TextNotClosed => "this text isn't closed on its line",
        LexBreach::CommentNotClosed => "this comment isn't closed",
        LexBreach::Directive => "this line includes none of the headers that may be included",
        LexBreach::BadNumber => "this is no number",
    }
}

/// What is wrong with a text that is cut into tokens and that the grammar refuses.
pub fn parser_reason(breach: ParseBreach) -> &'static str
    ensures { result.now ≡ parser_reason breach }
{
    match breach {
        ParseBreach::Syntax => "the grammar doesn't go on with this",
        ParseBreach::TooDeep => "this stands too deep, or is one operator too many",
        ParseBreach::NotInProfile =>
            "C++ or SystemC has this here, but the simulator doesn't take it",
    }
}

/// What is wrong with the names and types of a text that the grammar spells.
pub fn types_reason(breach: TypeBreach) -> &'static str
    ensures { result.now ≡ types_reason breach }
{
    match breach {
        TypeBreach::UnknownName => "nothing of this name is known here",
        TypeBreach::DeclaredTwice => "this is declared, or registered, a second time",
        TypeBreach::WrongKind => "what this names, or says, can't stand here",
        TypeBreach::WaitInMethod => "a function that SC_METHOD registers can't wait",
        TypeBreach::WaitInFunction =>
            "a function that is called, or that is no process, can't wait",
        TypeBreach::RecursiveCall => "by this call a function may call itself",
        TypeBreach::NotAPort => "the instance's module has no port of this name",
        TypeBreach::WrongCount =>
            "there are too many arguments, too few, or arguments of another form",
        TypeBreach::EffectInside =>
            "this call can't stand inside an expression: give its value to a local first",
        TypeBreach::NotConstant => "this has to be known before the simulation, and isn't",
    }
}

/// Why a text whose names and types are right can't be elaborated.
pub fn elab_reason(breach: ElabBreach) -> &'static str
    ensures { result.now ≡ elab_reason breach }
{
    match breach {
        ElabBreach::PortNotBound => "nothing is bound to this port",
        ElabBreach::PortBoundTwice => "this port is bound already",
        ElabBreach::PortKind => "a port of this sort can't be bound to this",
        ElabBreach::TwoWriters => "two processes write to this",
        ElabBreach::TwoReaders => "two processes read from this",
        ElabBreach::TooManyProcesses => "this process is one too many",
        ElabBreach::TooManyObjects => "this instance, channel, event or variable is one too many",
        ElabBreach::TooManyCells => "the variables have too many elements with this one",
        ElabBreach::FifoSize => "a fifo holds 1 to 65536 values",
        ElabBreach::TimeTooLarge => "this time is too great",
        ElabBreach::OddClock => "a clock's period has to be a positive even number of picoseconds",
        ElabBreach::BadConstant => "this has no value, or none that may stand here",
    }
}

/// Why the model of a text can't be lowered.
pub fn code_reason() -> &'static str
    ensures { result.now ≡ code_reason }
{
    "the code of its processes is too large, where that of each function counts anew for each call"
}

/// Why the design of a text's model can't be used.
pub fn segments_reason() -> &'static str
    ensures { result.now ≡ segments_reason }
{
    "its processes have more than 1024 segments: one from each start, and one from each wait on"
}
