use ooo_time::{Scale, Time};
use ooo_value::{Kind, Op, Value, append};
use std::alloc::{AllocError, Global};

/// A text that grows. Once memory has run out, nothing more is added to it, and who asks for it is told so: what prints a
/// part need not ask after each word.
#[derive(Drop)]
pub(crate) struct Paper {
    text: Vec<u8>,
    added: Result<(), AllocError>,
}

impl Paper {
    pub(crate) fn new(alloc: Global) -> Paper {
        Paper {
            text: Vec::new(alloc),
            added: Ok(()),
        }
    }

    /// The text, unless memory has run out.
    pub(crate) fn into_text(self) -> Result<Vec<u8>, AllocError> {
        let Paper { text, added } = self;
        match added {
            Ok(()) => Ok(text),
            Err(error) => Err(error),
        }
    }

    pub(crate) fn put(&mut self, text: &str) {
        self.bytes(text.as_bytes());
    }

    pub(crate) fn bytes(&mut self, bytes: &[u8]) {
        if self.added.is_ok() {
            self.added = self.text.extend_from_slice(bytes);
        }
    }

    pub(crate) fn number(&mut self, number: u32) {
        self.digits(Value::Uint(number));
    }

    /// A word and a number right behind it.
    pub(crate) fn named(&mut self, word: &str, number: u32) {
        self.put(word);
        self.number(number);
    }

    pub(crate) fn ticks(&mut self, time: Time) {
        self.put("=");
        self.digits(Value::Ulong(time.0));
    }

    /// A value and the letters of its kind.
    pub(crate) fn value(&mut self, value: Value) {
        self.digits(value);
        self.put(kind_letters(value.kind()));
    }

    // A value as it is printed.
    fn digits(&mut self, value: Value) {
        if self.added.is_ok() {
            self.added = append(&mut self.text, value);
        }
    }

    pub(crate) fn numbers(&mut self, all: &[u32]) {
        self.put("[");
        for (place, number) in all.iter().enumerate() {
            self.between(place, " ");
            self.number(*number);
        }
        self.put("]");
    }

    pub(crate) fn kinds(&mut self, all: &[Kind]) {
        self.put("[");
        for (place, kind) in all.iter().enumerate() {
            self.between(place, " ");
            self.put(kind_letters(*kind));
        }
        self.put("]");
    }

    /// A text in quotes, with `\n` for a new line.
    pub(crate) fn quoted(&mut self, text: &[u8]) {
        self.put("\"");
        for byte in text {
            match *byte {
                b'\n' => self.put("\\n"),
                other => self.bytes(&[other]),
            }
        }
        self.put("\"");
    }

    // What stands before the thing of this place in a list, unless it is the first.
    fn between(&mut self, place: usize, sign: &str) {
        if place > 0 {
            self.put(sign);
        }
    }
}

pub(crate) fn kind_letters(kind: Kind) -> &'static str {
    match kind {
        Kind::Bool => "b",
        Kind::Int => "i",
        Kind::Uint => "u",
        Kind::Long => "l",
        Kind::Ulong => "ul",
    }
}

pub(crate) fn operator_sign(op: Op) -> &'static str {
    match op {
        Op::Add => "+",
        Op::Subtract => "-",
        Op::Multiply => "*",
        Op::Divide => "/",
        Op::Remainder => "%",
        Op::BitAnd => "&",
        Op::BitOr => "|",
        Op::BitXor => "^",
        Op::ShiftLeft => "<<",
        Op::ShiftRight => ">>",
        Op::Equal => "==",
        Op::NotEqual => "!=",
        Op::Less => "<",
        Op::LessOrEqual => "<=",
        Op::Greater => ">",
        Op::GreaterOrEqual => ">=",
    }
}

pub(crate) fn unit_word(scale: Scale) -> &'static str {
    match scale {
        Scale::Ps => "ps",
        Scale::Ns => "ns",
        Scale::Us => "us",
        Scale::Ms => "ms",
        Scale::Sec => "s",
    }
}
