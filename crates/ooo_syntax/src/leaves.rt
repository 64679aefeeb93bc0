use ooo_lexer::Position;
use ooo_value::{Name, Value};

/// A word of the model's own.
#[derive(Drop)]
pub struct Word {
    pub name: Name,
    pub position: Position,
}

/// A number.
#[derive(Clone, Copy)]
pub struct Number {
    pub value: Value,
    pub position: Position,
}

/// A text, by the bytes that it stands for: its escapes are one byte each.
#[derive(Drop)]
pub struct Text {
    pub value: Name,
    pub position: Position,
}

/// How a type is written.
#[derive(Clone, Copy)]
pub enum TypeForm {
    /// `bool`
    Bool,
    /// `int`
    Int,
    /// `unsigned`
    Unsigned,
    /// `unsigned int`
    UnsignedInt,
    /// `long long`
    LongLong,
    /// `long long int`
    LongLongInt,
    /// `unsigned long long`
    UnsignedLongLong,
    /// `unsigned long long int`
    UnsignedLongLongInt,
}

/// A type, by its first word.
#[derive(Clone, Copy)]
pub struct TypeName {
    pub form: TypeForm,
    pub position: Position,
}
