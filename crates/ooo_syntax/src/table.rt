use crate::terminal::Terminal;

/// A word or a sign of the grammar, and what it is.
#[derive(Clone, Copy)]
pub(crate) struct Row {
    pub(crate) bytes: &'static [u8],
    pub(crate) terminal: Terminal,
}

/// The words of the grammar and those outside it of at most five letters, by their length.
pub(crate) const SHORT_WORDS: [&[Row]; 6] = [
    &[],
    &[],
    &[
        Row {
            bytes: b"do",
            terminal: Terminal::Do,
        },
        Row {
            bytes: b"if",
            terminal: Terminal::If,
        },
    ],
    &[
        Row {
            bytes: b"for",
            terminal: Terminal::For,
        },
        Row {
            bytes: b"int",
            terminal: Terminal::Int,
        },
        Row {
            bytes: b"new",
            terminal: Terminal::Outside,
        },
        Row {
            bytes: b"std",
            terminal: Terminal::Std,
        },
        Row {
            bytes: b"try",
            terminal: Terminal::Outside,
        },
    ],
    &[
        Row {
            bytes: b"auto",
            terminal: Terminal::Outside,
        },
        Row {
            bytes: b"bind",
            terminal: Terminal::Bind,
        },
        Row {
            bytes: b"bool",
            terminal: Terminal::Bool,
        },
        Row {
            bytes: b"case",
            terminal: Terminal::Outside,
        },
        Row {
            bytes: b"char",
            terminal: Terminal::Char,
        },
        Row {
            bytes: b"cout",
            terminal: Terminal::Cout,
        },
        Row {
            bytes: b"else",
            terminal: Terminal::Else,
        },
        Row {
            bytes: b"endl",
            terminal: Terminal::Endl,
        },
        Row {
            bytes: b"enum",
            terminal: Terminal::Outside,
        },
        Row {
            bytes: b"goto",
            terminal: Terminal::Outside,
        },
        Row {
            bytes: b"long",
            terminal: Terminal::Long,
        },
        Row {
            bytes: b"this",
            terminal: Terminal::Outside,
        },
        Row {
            bytes: b"true",
            terminal: Terminal::True,
        },
        Row {
            bytes: b"void",
            terminal: Terminal::Void,
        },
        Row {
            bytes: b"wait",
            terminal: Terminal::Wait,
        },
    ],
    &[
        Row {
            bytes: b"SC_FS",
            terminal: Terminal::Outside,
        },
        Row {
            bytes: b"SC_MS",
            terminal: Terminal::ScMs,
        },
        Row {
            bytes: b"SC_NS",
            terminal: Terminal::ScNs,
        },
        Row {
            bytes: b"SC_PS",
            terminal: Terminal::ScPs,
        },
        Row {
            bytes: b"SC_US",
            terminal: Terminal::ScUs,
        },
        Row {
            bytes: b"break",
            terminal: Terminal::Break,
        },
        Row {
            bytes: b"class",
            terminal: Terminal::Outside,
        },
        Row {
            bytes: b"const",
            terminal: Terminal::Const,
        },
        Row {
            bytes: b"false",
            terminal: Terminal::False,
        },
        Row {
            bytes: b"float",
            terminal: Terminal::Outside,
        },
        Row {
            bytes: b"sc_bv",
            terminal: Terminal::Outside,
        },
        Row {
            bytes: b"sc_dt",
            terminal: Terminal::ScDt,
        },
        Row {
            bytes: b"sc_in",
            terminal: Terminal::ScIn,
        },
        Row {
            bytes: b"sc_lv",
            terminal: Terminal::Outside,
        },
        Row {
            bytes: b"short",
            terminal: Terminal::Outside,
        },
        Row {
            bytes: b"throw",
            terminal: Terminal::Outside,
        },
        Row {
            bytes: b"union",
            terminal: Terminal::Outside,
        },
        Row {
            bytes: b"using",
            terminal: Terminal::Using,
        },
        Row {
            bytes: b"while",
            terminal: Terminal::While,
        },
    ],
];

/// Those of six to eight.
pub(crate) const MIDDLE_WORDS: [&[Row]; 3] = [
    &[
        Row {
            bytes: b"SC_SEC",
            terminal: Terminal::ScSec,
        },
        Row {
            bytes: b"cancel",
            terminal: Terminal::Cancel,
        },
        Row {
            bytes: b"delete",
            terminal: Terminal::Outside,
        },
        Row {
            bytes: b"double",
            terminal: Terminal::Outside,
        },
        Row {
            bytes: b"friend",
            terminal: Terminal::Outside,
        },
        Row {
            bytes: b"notify",
            terminal: Terminal::Notify,
        },
        Row {
            bytes: b"public",
            terminal: Terminal::Public,
        },
        Row {
            bytes: b"return",
            terminal: Terminal::Return,
        },
        Row {
            bytes: b"sc_bit",
            terminal: Terminal::Outside,
        },
        Row {
            bytes: b"sc_int",
            terminal: Terminal::Outside,
        },
        Row {
            bytes: b"sc_out",
            terminal: Terminal::ScOut,
        },
        Row {
            bytes: b"signed",
            terminal: Terminal::Outside,
        },
        Row {
            bytes: b"sizeof",
            terminal: Terminal::Outside,
        },
        Row {
            bytes: b"static",
            terminal: Terminal::Static,
        },
        Row {
            bytes: b"struct",
            terminal: Terminal::Outside,
        },
        Row {
            bytes: b"switch",
            terminal: Terminal::Outside,
        },
    ],
    &[
        Row {
            bytes: b"SC_CTOR",
            terminal: Terminal::ScCtor,
        },
        Row {
            bytes: b"default",
            terminal: Terminal::Outside,
        },
        Row {
            bytes: b"private",
            terminal: Terminal::Outside,
        },
        Row {
            bytes: b"sc_core",
            terminal: Terminal::ScCore,
        },
        Row {
            bytes: b"sc_fifo",
            terminal: Terminal::ScFifo,
        },
        Row {
            bytes: b"sc_main",
            terminal: Terminal::ScMain,
        },
        Row {
            bytes: b"sc_port",
            terminal: Terminal::Outside,
        },
        Row {
            bytes: b"sc_stop",
            terminal: Terminal::ScStop,
        },
        Row {
            bytes: b"sc_time",
            terminal: Terminal::ScTime,
        },
        Row {
            bytes: b"sc_uint",
            terminal: Terminal::Outside,
        },
        Row {
            bytes: b"typedef",
            terminal: Terminal::Outside,
        },
        Row {
            bytes: b"virtual",
            terminal: Terminal::Outside,
        },
    ],
    &[
        Row {
            bytes: b"continue",
            terminal: Terminal::Continue,
        },
        Row {
            bytes: b"explicit",
            terminal: Terminal::Outside,
        },
        Row {
            bytes: b"operator",
            terminal: Terminal::Outside,
        },
        Row {
            bytes: b"sc_clock",
            terminal: Terminal::ScClock,
        },
        Row {
            bytes: b"sc_event",
            terminal: Terminal::ScEvent,
        },
        Row {
            bytes: b"sc_fixed",
            terminal: Terminal::Outside,
        },
        Row {
            bytes: b"sc_inout",
            terminal: Terminal::ScInout,
        },
        Row {
            bytes: b"sc_logic",
            terminal: Terminal::Outside,
        },
        Row {
            bytes: b"sc_mutex",
            terminal: Terminal::Outside,
        },
        Row {
            bytes: b"sc_spawn",
            terminal: Terminal::Outside,
        },
        Row {
            bytes: b"sc_start",
            terminal: Terminal::ScStart,
        },
        Row {
            bytes: b"sc_trace",
            terminal: Terminal::Outside,
        },
        Row {
            bytes: b"template",
            terminal: Terminal::Outside,
        },
        Row {
            bytes: b"unsigned",
            terminal: Terminal::Unsigned,
        },
        Row {
            bytes: b"volatile",
            terminal: Terminal::Outside,
        },
    ],
];

/// Those of nine or more.
pub(crate) const LONG_WORDS: [&[Row]; 14] = [
    &[
        Row {
            bytes: b"SC_METHOD",
            terminal: Terminal::ScMethod,
        },
        Row {
            bytes: b"SC_MODULE",
            terminal: Terminal::ScModule,
        },
        Row {
            bytes: b"SC_THREAD",
            terminal: Terminal::ScThread,
        },
        Row {
            bytes: b"namespace",
            terminal: Terminal::Namespace,
        },
        Row {
            bytes: b"protected",
            terminal: Terminal::Outside,
        },
        Row {
            bytes: b"sc_bigint",
            terminal: Terminal::Outside,
        },
        Row {
            bytes: b"sc_export",
            terminal: Terminal::Outside,
        },
        Row {
            bytes: b"sc_in_clk",
            terminal: Terminal::ScInClk,
        },
        Row {
            bytes: b"sc_signal",
            terminal: Terminal::ScSignal,
        },
        Row {
            bytes: b"sc_ufixed",
            terminal: Terminal::Outside,
        },
        Row {
            bytes: b"sc_vector",
            terminal: Terminal::Outside,
        },
        Row {
            bytes: b"sensitive",
            terminal: Terminal::Sensitive,
        },
    ],
    &[
        Row {
            bytes: b"SC_CTHREAD",
            terminal: Terminal::Outside,
        },
        Row {
            bytes: b"sc_biguint",
            terminal: Terminal::Outside,
        },
        Row {
            bytes: b"sc_fifo_in",
            terminal: Terminal::ScFifoIn,
        },
    ],
    &[
        Row {
            bytes: b"sc_fifo_out",
            terminal: Terminal::ScFifoOut,
        },
        Row {
            bytes: b"static_cast",
            terminal: Terminal::Outside,
        },
    ],
    &[
        Row {
            bytes: b"SC_ZERO_TIME",
            terminal: Terminal::ScZeroTime,
        },
        Row {
            bytes: b"next_trigger",
            terminal: Terminal::NextTrigger,
        },
        Row {
            bytes: b"sc_interface",
            terminal: Terminal::Outside,
        },
        Row {
            bytes: b"sc_semaphore",
            terminal: Terminal::Outside,
        },
    ],
    &[Row {
        bytes: b"sc_time_stamp",
        terminal: Terminal::ScTimeStamp,
    }],
    &[
        Row {
            bytes: b"SC_HAS_PROCESS",
            terminal: Terminal::ScHasProcess,
        },
        Row {
            bytes: b"sc_event_queue",
            terminal: Terminal::Outside,
        },
        Row {
            bytes: b"sc_module_name",
            terminal: Terminal::ScModuleName,
        },
    ],
    &[
        Row {
            bytes: b"SC_MANY_WRITERS",
            terminal: Terminal::Outside,
        },
        Row {
            bytes: b"dont_initialize",
            terminal: Terminal::DontInitialize,
        },
    ],
    &[],
    &[],
    &[],
    &[],
    &[Row {
        bytes: b"SC_UNCHECKED_WRITERS",
        terminal: Terminal::Outside,
    }],
    &[],
    &[Row {
        bytes: b"sc_set_time_resolution",
        terminal: Terminal::Outside,
    }],
];

/// The signs, by their length.
pub(crate) const SIGNS: [&[Row]; 4] = [
    &[],
    &[
        Row {
            bytes: b";",
            terminal: Terminal::Semicolon,
        },
        Row {
            bytes: b"(",
            terminal: Terminal::Open,
        },
        Row {
            bytes: b")",
            terminal: Terminal::Close,
        },
        Row {
            bytes: b"{",
            terminal: Terminal::OpenBrace,
        },
        Row {
            bytes: b"}",
            terminal: Terminal::CloseBrace,
        },
        Row {
            bytes: b",",
            terminal: Terminal::Comma,
        },
        Row {
            bytes: b"=",
            terminal: Terminal::Assign,
        },
        Row {
            bytes: b".",
            terminal: Terminal::Dot,
        },
        Row {
            bytes: b"<",
            terminal: Terminal::Less,
        },
        Row {
            bytes: b"+",
            terminal: Terminal::Plus,
        },
        Row {
            bytes: b"-",
            terminal: Terminal::Minus,
        },
        Row {
            bytes: b"*",
            terminal: Terminal::Star,
        },
        Row {
            bytes: b"[",
            terminal: Terminal::OpenBracket,
        },
        Row {
            bytes: b"]",
            terminal: Terminal::CloseBracket,
        },
        Row {
            bytes: b"&",
            terminal: Terminal::And,
        },
        Row {
            bytes: b">",
            terminal: Terminal::Greater,
        },
        Row {
            bytes: b":",
            terminal: Terminal::Colon,
        },
        Row {
            bytes: b"!",
            terminal: Terminal::Not,
        },
        Row {
            bytes: b"/",
            terminal: Terminal::Slash,
        },
        Row {
            bytes: b"%",
            terminal: Terminal::Percent,
        },
        Row {
            bytes: b"|",
            terminal: Terminal::Or,
        },
        Row {
            bytes: b"^",
            terminal: Terminal::Xor,
        },
        Row {
            bytes: b"?",
            terminal: Terminal::Question,
        },
        Row {
            bytes: b"~",
            terminal: Terminal::Tilde,
        },
    ],
    &[
        Row {
            bytes: b"!=",
            terminal: Terminal::NotEqual,
        },
        Row {
            bytes: b"%=",
            terminal: Terminal::RemainderAssign,
        },
        Row {
            bytes: b"&&",
            terminal: Terminal::AndAnd,
        },
        Row {
            bytes: b"&=",
            terminal: Terminal::AndAssign,
        },
        Row {
            bytes: b"*=",
            terminal: Terminal::TimesAssign,
        },
        Row {
            bytes: b"++",
            terminal: Terminal::PlusPlus,
        },
        Row {
            bytes: b"+=",
            terminal: Terminal::PlusAssign,
        },
        Row {
            bytes: b"--",
            terminal: Terminal::MinusMinus,
        },
        Row {
            bytes: b"-=",
            terminal: Terminal::MinusAssign,
        },
        Row {
            bytes: b"/=",
            terminal: Terminal::DivideAssign,
        },
        Row {
            bytes: b"::",
            terminal: Terminal::Scope,
        },
        Row {
            bytes: b"<<",
            terminal: Terminal::ShiftLeft,
        },
        Row {
            bytes: b"<=",
            terminal: Terminal::LessEqual,
        },
        Row {
            bytes: b"==",
            terminal: Terminal::EqualEqual,
        },
        Row {
            bytes: b">=",
            terminal: Terminal::GreaterEqual,
        },
        Row {
            bytes: b">>",
            terminal: Terminal::ShiftRight,
        },
        Row {
            bytes: b"^=",
            terminal: Terminal::XorAssign,
        },
        Row {
            bytes: b"|=",
            terminal: Terminal::OrAssign,
        },
        Row {
            bytes: b"||",
            terminal: Terminal::OrOr,
        },
    ],
    &[
        Row {
            bytes: b"<<=",
            terminal: Terminal::ShiftLeftAssign,
        },
        Row {
            bytes: b">>=",
            terminal: Terminal::ShiftRightAssign,
        },
    ],
];
