//! A text of modules each of which holds an instance of the one before.

use crate::outcomes::outcome;
use std::alloc::{AllocError, Global};
use std::process::Abort;
use std::test::Fail;

// A text of so many modules, each but the first with an instance of the one before, and an instance of the last.
fn nested(alloc: Global, count: u32) -> Result<Vec<u8>, AllocError> {
    let mut text = Vec::from_slice(alloc, b"SC_MODULE(M0) {};\n")?;
    let mut below = 0;
    for number in 1..count {
        let piece = format!(in alloc; "SC_MODULE(M{number}) {{ M{below} c; }};\n")?;
        text.extend_from_slice(piece.as_bytes())?;
        below = number;
    }
    let main = format!(in alloc; "int sc_main(int, char*[]) {{ M{below} c(\"c\"); }}\n")?;
    text.extend_from_slice(main.as_bytes())?;
    Ok(text)
}

fn try_nested(rt: &impl Abort, alloc: Global, count: u32) -> Result<(), Fail> {
    let text = nested(alloc, count)?;
    let found = outcome(rt, alloc, text.as_slice())?;
    assert!(rt; found.as_slice() == b"ok".as_slice());
    Ok(())
}

#[test]
fn modules_stand_1000_deep(rt: HostRuntime) -> Result<(), Fail> {
    try_nested(&rt, rt.alloc(), 1000)
}
