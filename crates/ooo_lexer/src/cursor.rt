ghost use Rattle.std.specs.Prelude.{◌≡◌, ◌+◌, ◌<◌, ◌^◌, length};
ghost use Rattle.ooo_lexer.specs.Steps.{cursor_after_byte, cursor_after, position_of};

use crate::position::Position;

/// How far a source has been read: a position, and the bytes before it.
#[derive(Clone, Copy)]
pub(crate) struct Cursor {
    /// How many bytes stand before it.
    pub(crate) start: u32,
    /// Its line, from 1.
    pub(crate) line: u32,
    /// Its column in bytes, from 1.
    pub(crate) column: u32,
}

impl Cursor {
    /// Where a source begins.
    pub(crate) const FIRST: Cursor = Cursor {
        start: 0,
        line: 1,
        column: 1,
    };

    pub(crate) fn position(self) -> Position
        ensures { result ≡ position_of self }
    {
        Position {
            line: self.line,
            column: self.column,
        }
    }

    /// The cursor after these bytes.
    pub(crate) fn after(self, bytes: &[u8]) -> Cursor
        requires start_fits { self.start + length bytes.now < 2 ^ 32 }
        requires line_fits { self.line + length bytes.now < 2 ^ 32 }
        requires column_fits { self.column + length bytes.now < 2 ^ 32 }
        ensures { result ≡ cursor_after self bytes.now }
    {
        let mut cursor = self;
        for byte in bytes {
            cursor = cursor.after_byte(*byte);
        }
        cursor
    }

    fn after_byte(self, byte: u8) -> Cursor
        requires start_fits { self.start + 1 < 2 ^ 32 }
        requires line_fits { self.line + 1 < 2 ^ 32 }
        requires column_fits { self.column + 1 < 2 ^ 32 }
        ensures { result ≡ cursor_after_byte self byte }
    {
        let start = self.start + 1;
        if byte == b'\n' {
            Cursor {
                start,
                line: self.line + 1,
                column: 1,
            }
        } else {
            Cursor {
                start,
                line: self.line,
                column: self.column + 1,
            }
        }
    }
}
