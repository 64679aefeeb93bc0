/// What a token is to the grammar: a word of one's own, a number, a text, or one of its words and signs.
#[derive(Clone, Copy)]
pub enum Terminal {
    /// A word that is none of the others.
    Word,
    /// A number.
    Number,
    /// A text.
    Text,
    /// A word of C++ or SystemC that no text of the grammar holds.
    Outside,
    /// `using`
    Using,
    /// `namespace`
    Namespace,
    /// `sc_core`
    ScCore,
    /// `sc_dt`
    ScDt,
    /// `std`
    Std,
    /// `true`
    True,
    /// `false`
    False,
    /// `notify`
    Notify,
    /// `cancel`
    Cancel,
    /// `bind`
    Bind,
    /// `bool`
    Bool,
    /// `int`
    Int,
    /// `unsigned`
    Unsigned,
    /// `long`
    Long,
    /// `void`
    Void,
    /// `char`
    Char,
    /// `static`
    Static,
    /// `const`
    Const,
    /// `if`
    If,
    /// `else`
    Else,
    /// `while`
    While,
    /// `do`
    Do,
    /// `for`
    For,
    /// `break`
    Break,
    /// `continue`
    Continue,
    /// `return`
    Return,
    /// `public`
    Public,
    /// `SC_MODULE`
    ScModule,
    /// `SC_HAS_PROCESS`
    ScHasProcess,
    /// `SC_CTOR`
    ScCtor,
    /// `SC_THREAD`
    ScThread,
    /// `SC_METHOD`
    ScMethod,
    /// `sc_module_name`
    ScModuleName,
    /// `sc_main`
    ScMain,
    /// `sc_start`
    ScStart,
    /// `sc_clock`
    ScClock,
    /// `sc_in`
    ScIn,
    /// `sc_out`
    ScOut,
    /// `sc_inout`
    ScInout,
    /// `sc_fifo_in`
    ScFifoIn,
    /// `sc_fifo_out`
    ScFifoOut,
    /// `sc_in_clk`
    ScInClk,
    /// `sc_signal`
    ScSignal,
    /// `sc_fifo`
    ScFifo,
    /// `sc_event`
    ScEvent,
    /// `sensitive`
    Sensitive,
    /// `dont_initialize`
    DontInitialize,
    /// `wait`
    Wait,
    /// `next_trigger`
    NextTrigger,
    /// `sc_stop`
    ScStop,
    /// `cout`
    Cout,
    /// `endl`
    Endl,
    /// `sc_time_stamp`
    ScTimeStamp,
    /// `sc_time`
    ScTime,
    /// `SC_ZERO_TIME`
    ScZeroTime,
    /// `SC_PS`
    ScPs,
    /// `SC_NS`
    ScNs,
    /// `SC_US`
    ScUs,
    /// `SC_MS`
    ScMs,
    /// `SC_SEC`
    ScSec,
    /// `<<=`
    ShiftLeftAssign,
    /// `>>=`
    ShiftRightAssign,
    /// `<<`
    ShiftLeft,
    /// `>>`
    ShiftRight,
    /// `<=`
    LessEqual,
    /// `>=`
    GreaterEqual,
    /// `==`
    EqualEqual,
    /// `!=`
    NotEqual,
    /// `&&`
    AndAnd,
    /// `||`
    OrOr,
    /// `++`
    PlusPlus,
    /// `--`
    MinusMinus,
    /// `+=`
    PlusAssign,
    /// `-=`
    MinusAssign,
    /// `*=`
    TimesAssign,
    /// `/=`
    DivideAssign,
    /// `%=`
    RemainderAssign,
    /// `&=`
    AndAssign,
    /// `|=`
    OrAssign,
    /// `^=`
    XorAssign,
    /// `::`
    Scope,
    /// `+`
    Plus,
    /// `-`
    Minus,
    /// `*`
    Star,
    /// `/`
    Slash,
    /// `%`
    Percent,
    /// `<`
    Less,
    /// `>`
    Greater,
    /// `=`
    Assign,
    /// `!`
    Not,
    /// `&`
    And,
    /// `|`
    Or,
    /// `^`
    Xor,
    /// `~`
    Tilde,
    /// `?`
    Question,
    /// `:`
    Colon,
    /// `;`
    Semicolon,
    /// `,`
    Comma,
    /// `.`
    Dot,
    /// `(`
    Open,
    /// `)`
    Close,
    /// `{`
    OpenBrace,
    /// `}`
    CloseBrace,
    /// `[`
    OpenBracket,
    /// `]`
    CloseBracket,
}
