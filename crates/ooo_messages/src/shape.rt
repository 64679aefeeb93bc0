use crate::declared::{Sort, is_type};
use crate::site::{Site, is_one_of};
use ooo_lexer::{Token, TokenKind};

/// Tokens around a refused one, and what to write instead.
#[derive(Clone, Copy)]
pub struct Shape {
    /// Parts with a blank between each two. `^` stands before the refused token; a word in angle brackets stands for
    /// each token of a kind, and any other part for itself.
    pub tokens: &'static str,
    /// What a text that meets it does wrong, or what to write instead.
    pub hint: &'static str,
}

const MARK: &str = "^";

impl Shape {
    /// Whether the tokens around the refused one are of this shape.
    pub fn fits(&self, site: &Site<'_>) -> bool {
        let lead = self
            .tokens
            .split(' ')
            .take_while(|part| *part != MARK)
            .count();
        match site.from(lead) {
            Some(tokens) => self.begins(site, tokens),
            None => false,
        }
    }

    // Whether tokens begin with those of the shape.
    fn begins(&self, site: &Site<'_>, tokens: &[Token]) -> bool {
        let mut rest = tokens;
        for part in self.tokens.split(' ') {
            if part == MARK {
                continue;
            }
            let Some((token, behind)) = rest.split_first() else {
                return part == "<end>";
            };
            if !is_like(site, part, token) {
                return false;
            }
            rest = behind;
        }
        true
    }
}

/// The hint of the first shape that fits, of tables one after the other.
pub fn first_hint(tables: &[&[Shape]], site: &Site<'_>) -> Option<&'static str> {
    tables.iter().find_map(|shapes| hint_of(shapes, site))
}

/// The hint of the first shape of a table that fits.
pub fn hint_of(shapes: &[Shape], site: &Site<'_>) -> Option<&'static str> {
    shapes
        .iter()
        .find(|shape| shape.fits(site))
        .map(|shape| shape.hint)
}

/// What a part of a shape stands for.
#[derive(Clone, Copy)]
enum Meaning {
    Any,
    Kind(TokenKind),
    Type,
    Port,
    Declared(&'static [Sort]),
    Itself,
}

// The parts of shapes that stand for more than themselves.
static PARTS: &[(&str, Meaning)] = &[
    ("<any>", Meaning::Any),
    ("<word>", Meaning::Kind(TokenKind::Word)),
    ("<number>", Meaning::Kind(TokenKind::Number)),
    ("<text>", Meaning::Kind(TokenKind::Text)),
    ("<type>", Meaning::Type),
    ("<port>", Meaning::Port),
    ("<in>", Meaning::Declared(&[Sort::In])),
    ("<out>", Meaning::Declared(&[Sort::Out])),
    (
        "<signal>",
        Meaning::Declared(&[Sort::In, Sort::Out, Sort::Signal, Sort::Clock]),
    ),
    (
        "<fifo>",
        Meaning::Declared(&[Sort::FifoIn, Sort::FifoOut, Sort::Fifo]),
    ),
    ("<fifo_in>", Meaning::Declared(&[Sort::FifoIn])),
    ("<fifo_out>", Meaning::Declared(&[Sort::FifoOut])),
    ("<event>", Meaning::Declared(&[Sort::Event])),
    ("<array>", Meaning::Declared(&[Sort::Array])),
    ("<variable>", Meaning::Declared(&[Sort::Variable])),
    ("<function>", Meaning::Declared(&[Sort::Function])),
];

static PORTS: &[&str] = &["sc_in", "sc_out", "sc_inout", "sc_fifo_in", "sc_fifo_out"];

fn meaning_of(part: &str) -> Meaning {
    PARTS
        .iter()
        .find(|(name, _)| *name == part)
        .map_or(Meaning::Itself, |(_, meaning)| *meaning)
}

// Whether a token is what a part of a shape stands for.
fn is_like(site: &Site<'_>, part: &str, token: &Token) -> bool {
    let text = site.text(token);
    match meaning_of(part) {
        Meaning::Any => true,
        Meaning::Kind(kind) => token.kind == kind,
        Meaning::Type => is_type(text),
        Meaning::Port => is_one_of(text, PORTS),
        Meaning::Declared(sorts) => is_declared(site, text, sorts),
        Meaning::Itself => part.as_bytes() == text,
    }
}

fn is_declared(site: &Site<'_>, name: &[u8], sorts: &[Sort]) -> bool {
    site.declared(name)
        .is_some_and(|declared| sorts.contains(&declared.sort))
}
