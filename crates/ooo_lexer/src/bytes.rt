ghost use Rattle.std.specs.Prelude.{◌≡◌, ◌≤◌, length};
ghost use Rattle.std.specs.List.{prefix_len, take_while};
ghost use Rattle.ooo_lexer.specs.Bytes.{is_space, is_blank, is_digit, begins_word, is_word_byte, is_hex_digit};
ghost use Rattle.ooo_lexer.specs.Runs.{has, after_run};

/// A tab, a line feed, a carriage return or a blank.
pub(crate) fn is_space(byte: u8) -> bool
    ensures { result ≡ is_space byte }
{
    byte == b'\t' || byte == b'\n' || byte == b'\r' || byte == b' '
}

fn is_blank(byte: u8) -> bool
    ensures { result ≡ is_blank byte }
{
    byte == b'\t' || byte == b'\r' || byte == b' '
}

pub(crate) fn is_digit(byte: u8) -> bool
    ensures { result ≡ is_digit byte }
{
    byte.is_ascii_digit()
}

/// A letter or `_`.
pub(crate) fn begins_word(byte: u8) -> bool
    ensures { result ≡ begins_word byte }
{
    byte.is_ascii_lowercase() || byte.is_ascii_uppercase() || byte == b'_'
}

/// A letter, a digit or `_`.
fn is_word_byte(byte: u8) -> bool
    ensures { result ≡ is_word_byte byte }
{
    begins_word(byte) || is_digit(byte)
}

fn is_hex_digit(byte: u8) -> bool
    ensures { result ≡ is_hex_digit byte }
{
    byte.is_ascii_hexdigit()
}

/// A class of bytes that stand in a row.
#[derive(Clone, Copy)]
pub(crate) enum Class {
    /// What a word or a number takes.
    Word,
    /// What a decimal number is made of.
    Digit,
    /// What a hexadecimal number is made of.
    HexDigit,
    /// What stands on a line.
    Line,
    /// What may stand between the parts of a directive.
    Blank,
}

impl Class {
    fn has(self, byte: u8) -> bool
        ensures { result ≡ has self byte }
    {
        match self {
            Class::Word => is_word_byte(byte),
            Class::Digit => is_digit(byte),
            Class::HexDigit => is_hex_digit(byte),
            Class::Line => byte != b'\n',
            Class::Blank => is_blank(byte),
        }
    }

    /// How many bytes at the front are of the class.
    fn run_length(self, bytes: &[u8]) -> usize
        ensures within { result ≤ length bytes.now }
        ensures run { result ≡ prefix_len (has self) bytes.now }
    {
        for (i, byte) in bytes.iter().enumerate() {
            if !self.has(*byte) {
                return i;
            }
        }
        bytes.len()
    }

    /// The longest front of bytes of the class, and the bytes after it.
    pub(crate) fn split(self, bytes: &[u8]) -> (&[u8], &[u8])
        ensures front { result.0.now ≡ take_while (has self) bytes.now }
        ensures back { result.1.now ≡ after_run self bytes.now }
    {
        bytes.split_at(self.run_length(bytes))
    }
}
