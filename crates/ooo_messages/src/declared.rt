use crate::site::{Site, is_one_of};
use ooo_lexer::Token;

/// What a name is declared as, as far as its declaration's first word tells.
#[derive(Clone, Copy, PartialEq, Eq)]
pub enum Sort {
    /// A port that is only read.
    In,
    /// A port that is written.
    Out,
    Signal,
    Clock,
    /// A port that reads a fifo.
    FifoIn,
    /// A port that writes a fifo.
    FifoOut,
    Fifo,
    Event,
    Variable,
    Array,
    Function,
}

/// A declaration of a name.
#[derive(Clone, Copy)]
pub struct Declared<'a> {
    /// What it is declared as.
    pub sort: Sort,
    /// The token that is declared.
    pub name: &'a Token,
}

/// How a name is declared among these tokens: by the last declaration that ends before the given token, or else by the
/// first one behind it.
pub fn declared_in<'a>(
    site: &Site<'_>,
    tokens: &'a [Token],
    name: &[u8],
    before: u32,
) -> Option<Declared<'a>> {
    let mut found: Option<Declared<'a>> = None;
    let mut first = tokens.first()?;
    for window in tokens.windows(3) {
        let [previous, token, next] = window else {
            continue;
        };
        if begins_anew(site.text(previous)) {
            first = token;
        }
        if site.text(token) != name || (found.is_some() && token.start >= before) {
            continue;
        }
        if let Some(sort) = sort_of(site, first, previous, next) {
            found = Some(Declared { sort, name: token });
        }
    }
    found
}

// Whether what comes behind this token may be a declaration.
fn begins_anew(text: &[u8]) -> bool {
    is_one_of(text, &[";", "{", "}", ":", "("])
}

// What a token is declared as that stands between these two, in what begins with that first one.
fn sort_of(site: &Site<'_>, first: &Token, previous: &Token, next: &Token) -> Option<Sort> {
    let is_behind = is_one_of(site.text(previous), &[">", ","]) || previous.start == first.start;
    let is_typed = is_behind || is_type(site.text(previous));
    let next = site.text(next);
    if !is_typed || !is_one_of(next, &[";", ",", "=", "(", "[", "{", ")"]) {
        return None;
    }
    let text = site.text(first);
    if is_type(text) {
        return Some(of_type(next));
    }
    OPENINGS
        .iter()
        .find(|(word, _)| word.as_bytes() == text)
        .map(|(_, sort)| *sort)
}

// The words that begin declarations, besides those of types, and what is declared behind them.
static OPENINGS: &[(&str, Sort)] = &[
    ("sc_in", Sort::In),
    ("sc_in_clk", Sort::In),
    ("sc_out", Sort::Out),
    ("sc_inout", Sort::Out),
    ("sc_signal", Sort::Signal),
    ("sc_clock", Sort::Clock),
    ("sc_fifo_in", Sort::FifoIn),
    ("sc_fifo_out", Sort::FifoOut),
    ("sc_fifo", Sort::Fifo),
    ("sc_event", Sort::Event),
];

fn of_type(next: &[u8]) -> Sort {
    match next {
        b"(" => Sort::Function,
        b"[" => Sort::Array,
        _ => Sort::Variable,
    }
}

/// Whether a word begins a type of values, or `void` or `const`.
pub fn is_type(text: &[u8]) -> bool {
    is_one_of(text, TYPES)
}

static TYPES: &[&str] = &["bool", "int", "unsigned", "long", "void", "const", "static"];
