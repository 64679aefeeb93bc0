ghost use Rattle.std.specs.Prelude.{◌≡◌, ◌≤◌, length, slice_range};

/// What a token is (ISO/IEC 14882, [lex.token]).
#[derive(Clone, Copy, PartialEq, Eq)]
pub enum TokenKind {
    /// A letter or `_`, and then letters, digits and `_`.
    Word,
    /// Decimal digits without a leading zero, or `0x` and hexadecimal digits, and then a suffix or none.
    Number,
    /// Bytes between two double quotes, with the quotes.
    Text,
    /// An operator or a bracket.
    Sign,
}

/// A token of a source, by its span.
#[derive(Clone, Copy, PartialEq, Eq)]
pub struct Token {
    /// What it is.
    pub kind: TokenKind,
    /// How many bytes of the source stand before it.
    pub start: u32,
    /// How many bytes of the source stand before what follows it.
    pub end: u32,
    /// Its line, from 1.
    pub line: u32,
    /// Its column in bytes, from 1.
    pub column: u32,
}

impl Token {
    /// The token's bytes in the source that it was cut from, a text's with its quotes.
    pub fn text<'a>(&self, source: &'a [u8]) -> &'a [u8]
        requires ordered { self.now.start ≤ self.now.end }
        requires within { self.now.end ≤ length source.now }
        ensures { result.now ≡ slice_range source.now self.now.start self.now.end }
    {
        &source[self.start as usize..self.end as usize]
    }
}
