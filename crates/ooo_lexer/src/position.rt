ghost use Rattle.std.specs.Prelude.{◌≡◌, ◌≤◌, length};
ghost use Rattle.ooo_lexer.specs.Positions.{position_of_end};

use crate::cursor::Cursor;

/// The most bytes that a source may have.
pub const MOST_BYTES: usize = 1_048_576;

/// A line and a column in a source, as refusals write them.
#[derive(Clone, Copy, Debug, PartialEq, Eq)]
pub struct Position {
    /// Its line, from 1.
    pub line: u32,
    /// Its column in bytes, from 1.
    pub column: u32,
}

/// The position of a source's end: one column past its last byte, and so on the line of that byte
/// where it is a line feed.
pub fn position_of_end(source: &[u8]) -> Position
    requires { length source.now ≤ MOST_BYTES }
    ensures { result ≡ position_of_end source.now }
{
    if source.is_empty() {
        return Cursor::FIRST.position();
    }
    let last = Cursor::FIRST.after(&source[..source.len() - 1]);
    Position {
        line: last.line,
        column: last.column + 1,
    }
}
