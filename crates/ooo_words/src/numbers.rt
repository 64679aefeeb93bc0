ghost use Rattle.std.specs.Prelude.{◌≡◌, ◌≤◌, true, length, take_while};
ghost use Rattle.std.specs.Char.{is_ascii_digit};
ghost use Rattle.std.specs.List.{list_all};
ghost use Rattle.std.specs.Str.Parse.{digits_value};
ghost use Rattle.ooo_words.specs.Limits.{time_digits};
ghost use Rattle.ooo_words.specs.Numbers.{is_numeral, number_within, numeral_value, time_of, unit_named};

use ooo_time::{Scale, Time, from_amount};

/// The most digits of a number.
const NUMBER_DIGITS: usize = 10;

/// The most digits of a time's number.
const TIME_DIGITS: usize = 19;

/// The number that 1 to `most` decimal digits write, with no leading zero but in `0` itself.
pub fn numeral(text: &[u8], most: usize) -> Option<u64>
    requires { most ≤ time_digits }
    ensures { result ≡ numeral_value most text.now }
{
    if is_numeral(text, most) {
        Some(value(text))
    } else {
        None
    }
}

/// Whether a text is 1 to `most` decimal digits, with no leading zero but in `0` itself.
fn is_numeral(text: &[u8], most: usize) -> bool
    ensures { result ≡ is_numeral most text.now }
{
    !text.is_empty()
        && text.len() <= most
        && are_digits(text)
        && (text[0] != b'0' || text.len() == 1)
}

/// Whether each byte is a decimal digit.
fn are_digits(text: &[u8]) -> bool
    ensures { result ≡ list_all is_ascii_digit text.now }
{
    text.iter().all(|byte| byte.is_ascii_digit())
}

/// The number that decimal digits write.
fn value(digits: &[u8]) -> u64
    requires few { length digits.now ≤ time_digits }
    requires all_digits { list_all is_ascii_digit digits.now ≡ true }
    ensures { result ≡ digits_value 10 digits.now }
{
    let mut value = 0;
    for digit in digits {
        value = value * 10 + u64::from(*digit - b'0');
    }
    value
}

/// The number that a text writes, where it is in this range.
pub fn number(text: &[u8], least: u32, greatest: u32) -> Option<u32>
    ensures { result ≡ number_within least greatest text.now }
{
    let value = numeral(text, NUMBER_DIGITS)?;
    if u64::from(least) <= value && value <= u64::from(greatest) {
        Some(value as u32)
    } else {
        None
    }
}

/// The time that a text writes: a number, and then its unit.
pub fn time(text: &[u8]) -> Option<Time>
    ensures { result ≡ time_of text.now }
{
    let digits = digit_count(text);
    let count = numeral(&text[..digits], TIME_DIGITS)?;
    let unit = unit(&text[digits..])?;
    from_amount(count, unit).ok()
}

/// How many decimal digits a text begins with.
fn digit_count(text: &[u8]) -> usize
    ensures exact { result ≡ length (take_while is_ascii_digit text.now) }
    ensures within { result ≤ length text.now }
{
    text.iter().take_while(|byte| byte.is_ascii_digit()).count()
}

/// The unit of time that a text names.
fn unit(text: &[u8]) -> Option<Scale>
    ensures { result ≡ unit_named text.now }
{
    match text {
        b"ps" => Some(Scale::Ps),
        b"ns" => Some(Scale::Ns),
        b"us" => Some(Scale::Us),
        b"ms" => Some(Scale::Ms),
        b"s" => Some(Scale::Sec),
        _ => None,
    }
}
