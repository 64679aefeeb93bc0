//! What is made of a whole text.

use crate::printed::lines;
use ooo_bound::Bound;
use ooo_front::{Refused, front};
use ooo_lexer::{MOST_BYTES, Position};
use ooo_walk::Refusal;
use std::alloc::{AllocError, Global};
use std::process::Abort;

// What is made of a text: its model, or the line that refuses it.
#[derive(Drop)]
enum Made {
    Model(Bound),
    Refused(Vec<u8>),
}

// A layer's name, line and column.
fn at(alloc: Global, name: &str, at: Position) -> Result<Vec<u8>, AllocError> {
    let line = at.line;
    let column = at.column;
    let text = format!(in alloc; "{name} {line}:{column}")?;
    Vec::from_slice(alloc, text.as_bytes())
}

// A refusal of elaboration as a line: its name, line and column, and the names of what it is about.
fn refused(alloc: Global, refusal: &Refusal) -> Result<Vec<u8>, AllocError> {
    let mut all = at(alloc, refusal.what.name(), refusal.at)?;
    for e in refusal.names.as_slice() {
        all.push(b' ')?;
        all.extend_from_slice(e.as_bytes())?;
    }
    Ok(all)
}

// A refusal as a line.
fn refusal_line(alloc: Global, why: &Refused) -> Result<Vec<u8>, AllocError> {
    match why {
        Refused::Lexer(_, place) => at(alloc, "lexer", *place),
        Refused::Parser(_, place) => at(alloc, "parser", *place),
        Refused::Types(_, place) => at(alloc, "types", *place),
        Refused::Elaborate(refusal) => refused(alloc, refusal),
        Refused::CodeTooLarge => Vec::from_slice(alloc, b"CodeTooLarge"),
        Refused::TooManySegments => Vec::from_slice(alloc, b"TooManySegments"),
        Refused::OutOfMemory => Err(AllocError),
    }
}

// What is made of a text.
fn make(rt: &impl Abort, alloc: Global, source: &[u8]) -> Result<Made, AllocError> {
    assert!(rt; source.len() <= MOST_BYTES);
    match front(alloc, source) {
        Ok(accepted) => Ok(Made::Model(accepted.bound)),
        Err(why) => Ok(Made::Refused(refusal_line(alloc, &why)?)),
    }
}

/// `ok`, or why a text is refused.
pub fn outcome(rt: &impl Abort, alloc: Global, source: &[u8]) -> Result<Vec<u8>, AllocError> {
    match make(rt, alloc, source)? {
        Made::Model(_) => Vec::from_slice(alloc, b"ok"),
        Made::Refused(line) => Ok(line),
    }
}

/// The lines of a text's bound model, or why it is refused.
pub fn written(rt: &impl Abort, alloc: Global, source: &[u8]) -> Result<Vec<u8>, AllocError> {
    match make(rt, alloc, source)? {
        Made::Model(model) => lines(alloc, &model),
        Made::Refused(line) => Ok(line),
    }
}
