use crate::excerpt::line_of;
use crate::message::Message;
use ooo_lexer::Position;
use std::alloc::{AllocError, Global};

/// When in a run something was: the time, and the delta cycle, as the report writes them.
#[derive(Clone, Copy)]
struct When<'a> {
    amount: &'a str,
    unit: &'a str,
    delta: &'a str,
}

/// What ended a run before its time, by the last line of its report: a run fault, or a limit. Nothing is said of
/// another ending.
pub fn explain_ending(
    alloc: Global,
    source: &[u8],
    line: &str,
) -> Result<Option<String>, AllocError> {
    let words: Vec<&str> = line.split(' ').collect(alloc)?;
    match words.as_slice() {
        ["fault", name, amount, unit, delta, process, number] => {
            let when = When {
                amount,
                unit,
                delta,
            };
            explain_fault(alloc, source, name, when, process, number)
        }
        ["statements", amount, unit, delta, process, number] => {
            let when = When {
                amount,
                unit,
                delta,
            };
            explain_statements(alloc, source, when, process, number)
        }
        ["deltas", amount, unit, delta] => {
            let when = When {
                amount,
                unit,
                delta,
            };
            explain_deltas(alloc, source, when)
        }
        _ => Ok(None),
    }
}

// A run fault of this name in a process, at the line of this number.
fn explain_fault(
    alloc: Global,
    source: &[u8],
    name: &str,
    when: When<'_>,
    process: &str,
    number: &str,
) -> Result<Option<String>, AllocError> {
    let at = begin_of_line(source, number);
    let mut message = Message::new(alloc, source);
    message.begin_error(at);
    message.all_words(&[name, " in process ", process, " at "]);
    add_when(&mut message, when);
    message.all_words(&[": ", fault_reason(name)]);
    message.end_shown(at);
    message.hint(fault_hint(name));
    message.into_text().map(Some)
}

// More statements of a process without a wait than are allowed, the last one at the line of this number.
fn explain_statements(
    alloc: Global,
    source: &[u8],
    when: When<'_>,
    process: &str,
    number: &str,
) -> Result<Option<String>, AllocError> {
    let at = begin_of_line(source, number);
    let mut message = Message::new(alloc, source);
    message.begin_error(at);
    message.all_words(&["process ", process]);
    message.words(" has run as many statements without a wait as are allowed, at ");
    add_when(&mut message, when);
    message.end_shown(at);
    message.hint(
        "an endless loop of a thread has a 'wait' in it; '--statements N' allows more than 1000000",
    );
    message.into_text().map(Some)
}

// More delta cycles at one time than are allowed.
fn explain_deltas(
    alloc: Global,
    source: &[u8],
    when: When<'_>,
) -> Result<Option<String>, AllocError> {
    let mut message = Message::new(alloc, source);
    message.begin_error_anywhere();
    message.all_words(&["at ", when.amount, " ", when.unit]);
    message.all_words(&[
        " there are as many delta cycles as are allowed, ",
        when.delta,
    ]);
    message.end();
    message.hint(
        "processes may wake each other without end while no time goes by: let one of them wait for a time; \
        '--deltas N' allows more than 10000",
    );
    message.into_text().map(Some)
}

// Says when something was.
fn add_when(message: &mut Message<'_>, when: When<'_>) {
    message.all_words(&[when.amount, " ", when.unit, ", delta cycle ", when.delta]);
}

// The place where the line of this number begins, behind blanks.
fn begin_of_line(source: &[u8], number: &str) -> Position {
    let line = number.parse().unwrap_or(0);
    let blanks = match line_of(source, line) {
        Some(bytes) => bytes
            .iter()
            .take_while(|byte| byte.is_ascii_whitespace())
            .count(),
        None => 0,
    };
    Position {
        line,
        column: u32::try_from(blanks).unwrap_or(0).saturating_add(1),
    }
}

// What a run fault of this name is.
fn fault_reason(name: &str) -> &'static str {
    match name {
        "Overflow" => "a value doesn't fit its type",
        "DivideByZero" => "a division or a remainder by zero",
        "ShiftRange" => "a shift by a negative count, or by one that is too great for the type",
        "IndexRange" => "an index is negative, or not below the array's length",
        _ => "a time is negative, or too great",
    }
}

fn fault_hint(name: &str) -> &'static str {
    match name {
        "Overflow" =>
            "compute in 'long long', as '(long long)a * b', or in 'unsigned', which wraps round",
        "DivideByZero" => "test the divisor first: 'if (d != 0) { .. }'",
        "ShiftRange" =>
            "an 'int' or 'unsigned' is shifted by 0 to 31, a 'long long' by 0 to 63: write '(unsigned long long)x << n'",
        "IndexRange" => "test the index first, or take it '% LENGTH'",
        _ => "a time has 0 to 4611686018427387903 ps: test the amount first",
    }
}
