use crate::excerpt::line_of;
use ooo_lexer::{LexBreach, Position};

/// What to write instead of what begins at this place of a source, which can't be cut into tokens.
pub fn lexer_hint(breach: LexBreach, source: &[u8], at: Position) -> Option<&'static str> {
    let line = line_of(source, at.line)?;
    let column = (at.column as usize).checked_sub(1)?;
    let rest = line.get(column..)?;
    match breach {
        LexBreach::BadByte => byte_hint(line.get(..column)?, rest),
        LexBreach::NumberTooWide => Some(
            "the greatest number is 18446744073709551615u; without 'u' it is 9223372036854775807",
        ),
        LexBreach::TextNotClosed => Some(
            "close the text on its line by '\"', and write '\\n' for a new line in it",
        ),
        LexBreach::CommentNotClosed => Some("close the comment by '*/'"),
        LexBreach::Directive => directive_hint(rest),
        LexBreach::BadNumber => number_hint(rest),
    }
}

// What stands in place of a byte that begins no token.
fn byte_hint(before: &[u8], rest: &[u8]) -> Option<&'static str> {
    match rest {
        [b'\'', ..] if matches!(before, [.., b'0'..=b'9']) => Some(
            "a number is written without separators: 1000",
        ),
        [b'\'', b'\\', b'n', ..] => Some(
            "there are no characters: write 'endl', or a text: \"\\n\"",
        ),
        [b'\'', ..] => Some("there are no characters: write a text, as \"a\", or a number"),
        [b'\\', ..] => Some("the escapes of a text are \\n, \\t, \\\\ and \\\""),
        [byte, ..] if !byte.is_ascii() => Some(
            "letters outside ASCII stand in comments and texts alone",
        ),
        _ => Some("take it away: it may stand in comments and texts alone"),
    }
}

// What stands in place of a directive.
fn directive_hint(rest: &[u8]) -> Option<&'static str> {
    let directive = rest.get(1..)?.trim_ascii_start();
    if directive.starts_with(b"include") {
        Some(
            "the headers are <systemc.h>, <systemc> and <iostream>: leave others out, and write modules of other files into this one",
        )
    } else if directive.starts_with(b"define") {
        Some("write 'const int LIMIT = 8;' in place of '#define LIMIT 8'")
    } else if directive.starts_with(b"if") {
        Some(
            "there are no conditional parts: keep the text that is to be simulated, and take the directives away",
        )
    } else {
        Some("only '#include <systemc.h>' and its like may begin with '#': take it away")
    }
}

fn number_hint(rest: &[u8]) -> Option<&'static str> {
    match rest {
        [b'0', b'b' | b'B', ..] => Some(
            "there are no binary numbers: write it in hexadecimal, as 0x10",
        ),
        [b'0', b'x' | b'X', ..] => Some(
            "behind 0x stand hexadecimal digits, and then one of u, ll, ull or none",
        ),
        [b'0', ..] => Some(
            "there are no octal numbers: write it in decimal, without a leading zero",
        ),
        _ => Some(
            "behind its digits a number has one of u, ll, ull or none, and a name doesn't begin with a digit",
        ),
    }
}
