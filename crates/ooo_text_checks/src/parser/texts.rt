//! Whole texts, by their bytes.

use super::table;
use crate::frames::{EXPRESSION, FILE, Frame, MAIN, MEMBER, SETUP, STATEMENT, framed};
use ooo_lexer::{MOST_BYTES, lex};
use ooo_parser::parse;
use ooo_syntax::ParseError;
use std::alloc::{AllocError, Global};
use std::process::Abort;
use std::test::Fail;

// `ok`, or the breach and its line and column.
fn outcome(rt: &impl Abort, alloc: Global, source: &[u8]) -> Result<Vec<u8>, AllocError> {
    assert!(rt; source.len() <= MOST_BYTES);
    let Ok(tokens) = lex(alloc, source) else {
        return Vec::from_slice(alloc, b"not cut");
    };
    match parse(alloc, source, &tokens) {
        Ok(_) => Vec::from_slice(alloc, b"ok"),
        Err(ParseError::Refused(breach, at)) => {
            let line = at.line;
            let column = at.column;
            let text = format!(in alloc; "{breach} {line}:{column}")?;
            Vec::from_slice(alloc, text.as_bytes())
        }
        Err(ParseError::OutOfMemory) => Err(AllocError),
    }
}

fn check_row(
    rt: &impl Abort,
    alloc: Global,
    frame: Frame,
    body: &str,
    wanted: &str,
) -> Result<(), AllocError> {
    let text = framed(alloc, frame, body)?;
    let found = outcome(rt, alloc, text.as_slice())?;
    assert!(rt; found.as_slice() == wanted.as_bytes(), "{body}: {wanted}");
    Ok(())
}

// Each line of a table is a body, ` => ` and what is wanted.
fn check(rt: &impl Abort, alloc: Global, frame: Frame, rows: &str) -> Result<(), AllocError> {
    for row in rows.lines() {
        if let Some((body, wanted)) = row.split_once(" => ") {
            check_row(rt, alloc, frame, body, wanted)?;
        }
    }
    Ok(())
}

#[test]
fn reads_files(rt: HostRuntime) -> Result<(), Fail> {
    check(&rt, rt.alloc(), FILE, table::FILES)?;
    check(&rt, rt.alloc(), FILE, table::PAIRED_FILES)?;
    Ok(())
}

#[test]
fn reads_members(rt: HostRuntime) -> Result<(), Fail> {
    check(&rt, rt.alloc(), MEMBER, table::TYPES)?;
    check(&rt, rt.alloc(), MEMBER, table::MEMBERS)?;
    check(&rt, rt.alloc(), MEMBER, table::FUNCTIONS)?;
    check(&rt, rt.alloc(), MEMBER, table::CONSTRUCTORS)?;
    Ok(())
}

#[test]
fn reads_constructors_and_sc_main(rt: HostRuntime) -> Result<(), Fail> {
    check(&rt, rt.alloc(), SETUP, table::SETUPS)?;
    check(&rt, rt.alloc(), MAIN, table::MAINS)?;
    Ok(())
}

#[test]
fn reads_statements(rt: HostRuntime) -> Result<(), Fail> {
    check(&rt, rt.alloc(), STATEMENT, table::STATEMENTS)?;
    check(&rt, rt.alloc(), STATEMENT, table::LOCALS)?;
    check(&rt, rt.alloc(), STATEMENT, table::SIMPLE)?;
    check(&rt, rt.alloc(), STATEMENT, table::WAITS)?;
    check(&rt, rt.alloc(), STATEMENT, table::PRINTS)?;
    Ok(())
}

#[test]
fn reads_expressions(rt: HostRuntime) -> Result<(), Fail> {
    check(&rt, rt.alloc(), EXPRESSION, table::OPERATORS)?;
    check(&rt, rt.alloc(), EXPRESSION, table::PRIMARIES)?;
    check(&rt, rt.alloc(), EXPRESSION, table::CASTS)?;
    check(&rt, rt.alloc(), EXPRESSION, table::PAIRS)?;
    Ok(())
}

#[test]
fn takes_no_word_from_outside(rt: HostRuntime) -> Result<(), Fail> {
    for word in table::OUTSIDE.lines() {
        if !word.is_empty() {
            check_row(&rt, rt.alloc(), MEMBER, word, "NotInProfile 2:1")?;
            check_row(&rt, rt.alloc(), EXPRESSION, word, "NotInProfile 2:1")?;
        }
    }
    Ok(())
}

// The part so many times.
fn repeated(alloc: Global, part: &str, count: usize) -> Result<String, AllocError> {
    let mut text = String::new(alloc);
    for _ in 0..count {
        text.push_str(part)?;
    }
    Ok(text)
}

// So many times the opening, what stands inside, and so many times the closing.
fn nested(
    alloc: Global,
    opening: &str,
    inside: &str,
    closing: &str,
    count: usize,
) -> Result<String, AllocError> {
    let mut text = repeated(alloc, opening, count)?;
    text.push_str(inside)?;
    text.push_str(repeated(alloc, closing, count)?.as_str())?;
    Ok(text)
}

// Each thing that a token may stand inside: at most so many times in a function's body, where `{` stands twice before.
#[test]
fn counts_what_a_token_stands_inside(rt: HostRuntime) -> Result<(), Fail> {
    let alloc = rt.alloc();
    let rows = [
        ("(", "1", ")", "TooDeep 2:64"),
        ("a[", "1", "]", "TooDeep 2:127"),
        ("- ", "1", "", "TooDeep 2:127"),
        ("(int) ", "1", "", "TooDeep 2:374"),
        ("1 ? ", "1", " : 2", "TooDeep 2:253"),
    ];
    for (opening, inside, closing, wanted) in rows {
        let fits = nested(alloc, opening, inside, closing, 62)?;
        check_row(&rt, alloc, EXPRESSION, fits.as_str(), "ok")?;
        let deeper = nested(alloc, opening, inside, closing, 63)?;
        check_row(&rt, alloc, EXPRESSION, deeper.as_str(), wanted)?;
    }
    Ok(())
}

#[test]
fn counts_statements(rt: HostRuntime) -> Result<(), Fail> {
    let alloc = rt.alloc();
    let rows = [
        ("{", ";", "}", "TooDeep 2:64"),
        ("while (a) ", ";", "", "TooDeep 2:618"),
        ("if (a) ; else ", ";", "", "TooDeep 2:859"),
        ("do ", ";", " while (a);", "TooDeep 2:190"),
    ];
    for (opening, inside, closing, wanted) in rows {
        let fits = nested(alloc, opening, inside, closing, 61)?;
        check_row(&rt, alloc, STATEMENT, fits.as_str(), "ok")?;
        let deeper = nested(alloc, opening, inside, closing, 63)?;
        check_row(&rt, alloc, STATEMENT, deeper.as_str(), wanted)?;
    }
    Ok(())
}

// A sum with so many operators, between two texts.
fn with_operators(
    alloc: Global,
    before: &str,
    operators: usize,
    after: &str,
) -> Result<String, AllocError> {
    let mut text = String::from_str(alloc, before)?;
    text.push_str("1")?;
    text.push_str(repeated(alloc, "+1", operators)?.as_str())?;
    text.push_str(after)?;
    Ok(text)
}

// 1,024 operators of one expression fit, and one more doesn't, wherever the expression stands.
#[test]
fn counts_operators(rt: HostRuntime) -> Result<(), Fail> {
    let alloc = rt.alloc();
    let rows = [
        ("x = ", ";", "TooDeep 2:2054"),
        ("cout << ", ";", "TooDeep 2:2058"),
        ("f(1, ", ");", "TooDeep 2:2055"),
        ("x[", "] = 1;", "TooDeep 2:2052"),
    ];
    for (before, after, wanted) in rows {
        let fits = with_operators(alloc, before, 1024, after)?;
        check_row(&rt, alloc, STATEMENT, fits.as_str(), "ok")?;
        drop(fits);
        let more = with_operators(alloc, before, 1025, after)?;
        check_row(&rt, alloc, STATEMENT, more.as_str(), wanted)?;
    }
    Ok(())
}
