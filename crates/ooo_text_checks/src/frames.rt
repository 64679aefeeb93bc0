//! What a row of a table stands in, to be a whole text.

use std::alloc::{AllocError, Global};

/// What stands before and after a row in its text.
#[derive(Clone, Copy)]
pub(crate) struct Frame {
    before: &'static str,
    after: &'static str,
}

pub(crate) const FILE: Frame = Frame {
    before: "",
    after: "",
};

pub(crate) const MEMBER: Frame = Frame {
    before: "SC_MODULE(M) {\n",
    after: "\n};\nint sc_main(int, char*[]) {}\n",
};

pub(crate) const SETUP: Frame = Frame {
    before: "SC_MODULE(M) { SC_CTOR(M) {\n",
    after: "\n} };\nint sc_main(int, char*[]) {}\n",
};

pub(crate) const MAIN: Frame = Frame {
    before: "int sc_main(int, char*[]) {\n",
    after: "\n}\n",
};

pub(crate) const STATEMENT: Frame = Frame {
    before: "SC_MODULE(M) { void f() {\n",
    after: "\n} };\nint sc_main(int, char*[]) {}\n",
};

pub(crate) const EXPRESSION: Frame = Frame {
    before: "SC_MODULE(M) { void f() { x =\n",
    after: "\n; } };\nint sc_main(int, char*[]) {}\n",
};

/// The text of a row.
pub(crate) fn framed(alloc: Global, frame: Frame, body: &str) -> Result<Vec<u8>, AllocError> {
    let mut text = Vec::from_slice(alloc, frame.before.as_bytes())?;
    text.extend_from_slice(body.as_bytes())?;
    text.extend_from_slice(frame.after.as_bytes())?;
    Ok(text)
}
