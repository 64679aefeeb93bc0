//! Tokens and what they are to the grammar, and the words that no name may be.

use ooo_lexer::TokenKind;
use ooo_syntax::{Terminal, is_reserved, terminal_of};

#[test]
fn a_token_is_what_its_bytes_are(rt: HostRuntime) {
    let rows: [(TokenKind, &[u8], Terminal); 12] = [
        (TokenKind::Word, b"if", Terminal::If),
        (TokenKind::Word, b"If", Terminal::Word),
        (TokenKind::Word, b"ifs", Terminal::Word),
        (TokenKind::Word, b"sc_fifo_in", Terminal::ScFifoIn),
        (TokenKind::Word, b"SC_UNCHECKED_WRITERS", Terminal::Outside),
        (
            TokenKind::Word,
            b"sc_set_time_resolution",
            Terminal::Outside,
        ),
        (
            TokenKind::Word,
            b"a_word_longer_than_any_of_the_grammar",
            Terminal::Word,
        ),
        (TokenKind::Word, b"char", Terminal::Char),
        (TokenKind::Number, b"1", Terminal::Number),
        (TokenKind::Text, b"\"if\"", Terminal::Text),
        (TokenKind::Sign, b"<<=", Terminal::ShiftLeftAssign),
        (TokenKind::Sign, b"<", Terminal::Less),
    ];
    for (kind, bytes, terminal) in rows {
        assert!(rt; terminal_of(kind, bytes) == terminal);
    }
}

#[test]
fn words_of_the_grammar_are_reserved_but_after_a_dot(rt: HostRuntime) {
    let reserved: [&[u8]; 8] = [
        b"while",
        b"std",
        b"true",
        b"SC_ZERO_TIME",
        b"virtual",
        b"sc_lv",
        b"namespace",
        b"cout",
    ];
    for word in reserved {
        assert!(rt; is_reserved(word));
    }
    let free: [&[u8]; 7] = [b"notify", b"cancel", b"bind", b"main", b"read", b"", b"x"];
    for word in free {
        assert!(rt; !is_reserved(word));
    }
}
