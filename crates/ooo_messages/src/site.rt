use crate::declared::{Declared, declared_in};
use ooo_lexer::{LexError, MOST_BYTES, Position, Token, TokenKind, lex};
use std::alloc::{AllocError, Global};

/// Where in a text a token stands.
#[derive(Clone, Copy)]
pub enum Place {
    /// Outside modules and `sc_main`.
    File,
    /// Among the members of a module.
    Members,
    /// In the body of a constructor.
    Constructor,
    /// In the body of a function of a module.
    Body,
    /// In `sc_main`, or in its head.
    Main,
}

/// A text's tokens, with the one that a refusal is about.
#[derive(Drop)]
pub struct Site<'a> {
    source: &'a [u8],
    tokens: Vec<Token>,
    at: usize,
}

impl<'a> Site<'a> {
    /// The tokens of a source, with the one at this position; the end where there is none, as in a source that
    /// can't be cut into tokens.
    pub fn find(alloc: Global, source: &'a [u8], at: Position) -> Result<Site<'a>, AllocError> {
        let tokens = tokens_of(alloc, source)?;
        let at = tokens
            .iter()
            .position(|token| token.line == at.line && token.column == at.column)
            .unwrap_or(tokens.len());
        Ok(Site { source, tokens, at })
    }

    /// The source.
    pub fn source(&self) -> &'a [u8] {
        self.source
    }

    /// The bytes of a token.
    pub fn text(&self, token: &Token) -> &'a [u8] {
        text_of(self.source, token)
    }

    /// The token that the refusal is about, and those behind it.
    pub fn behind(&self) -> &[Token] {
        self.tokens.get(self.at..).unwrap_or(&[])
    }

    /// The tokens before the one that the refusal is about.
    pub fn before(&self) -> &[Token] {
        self.tokens.get(..self.at).unwrap_or(&[])
    }

    /// The tokens from this many before the refused one on, where there are so many.
    pub fn from(&self, lead: usize) -> Option<&[Token]> {
        self.tokens.get(self.at.checked_sub(lead)?..)
    }

    /// The tokens of the module around the refused one, or those of `sc_main`, or those before the first module.
    pub fn around(&self) -> &[Token] {
        let start = self
            .before()
            .iter()
            .rposition(|token| self.begins_part(token))
            .unwrap_or(0);
        self.part_from(start)
    }

    /// The tokens of the module of an instance that is declared around the refused token.
    pub fn module_of(&self, instance: &[u8]) -> Option<&[Token]> {
        let declaration = self.around().windows(2).find(|pair| match pair {
            [module, name] => self.text(name) == instance && module.kind == TokenKind::Word,
            _ => false,
        })?;
        let module = self.text(declaration.first()?);
        let start = self.tokens.windows(3).position(|window| match window {
            [word, _, name] => self.text(word) == b"SC_MODULE".as_slice()
                && self.text(name) == module,
            _ => false,
        })?;
        Some(self.part_from(start))
    }

    // The tokens from one that begins a module, or `sc_main`, up to the next such one.
    fn part_from(&self, start: usize) -> &[Token] {
        let tokens = self.tokens.get(start..).unwrap_or(&[]);
        let end = tokens
            .iter()
            .skip(1)
            .position(|token| self.begins_part(token));
        match end {
            Some(end) => &tokens[..end.saturating_add(1).min(tokens.len())],
            None => tokens,
        }
    }

    fn begins_part(&self, token: &Token) -> bool {
        is_one_of(self.text(token), &["SC_MODULE", "sc_main"])
    }

    /// How a name is declared in the module around the refused token, or in `sc_main`.
    pub fn declared(&self, name: &[u8]) -> Option<Declared<'_>> {
        let before = self.here().map_or(u32::MAX, |token| token.start);
        declared_in(self, self.around(), name, before)
    }

    /// The token that the refusal is about; none at the end.
    pub fn here(&self) -> Option<&Token> {
        self.behind().first()
    }

    /// Where that token stands.
    pub fn place(&self) -> Place {
        self.before()
            .iter()
            .fold(Walk::START, |walk, token| walk.past(self.text(token)))
            .place()
    }
}

// The tokens of a source; none where it can't be cut.
fn tokens_of(alloc: Global, source: &[u8]) -> Result<Vec<Token>, AllocError> {
    if source.len() > MOST_BYTES {
        return Ok(Vec::new(alloc));
    }
    match lex(alloc, source) {
        Ok(tokens) => Ok(tokens),
        Err(LexError::Refused(_, _)) => Ok(Vec::new(alloc)),
        Err(LexError::OutOfMemory) => Err(AllocError),
    }
}

/// Where a source has this word first.
pub fn place_of_word(
    alloc: Global,
    source: &[u8],
    word: &[u8],
) -> Result<Option<Position>, AllocError> {
    for token in tokens_of(alloc, source)? {
        if text_of(source, &token) == word {
            return Ok(Some(Position {
                line: token.line,
                column: token.column,
            }));
        }
    }
    Ok(None)
}

// The bytes of a token.
fn text_of<'a>(source: &'a [u8], token: &Token) -> &'a [u8] {
    source
        .get(token.start as usize..token.end as usize)
        .unwrap_or(b"")
}

// What stands around the tokens that come next: whose braces, and how many are open.
#[derive(Clone, Copy)]
struct Walk {
    owner: Owner,
    depth: u32,
}

#[derive(Clone, Copy)]
enum Owner {
    File,
    Module,
    Constructor,
    Main,
}

impl Walk {
    const START: Walk = Walk {
        owner: Owner::File,
        depth: 0,
    };

    fn past(self, text: &[u8]) -> Walk {
        match text {
            b"{" => Walk {
                depth: self.depth.saturating_add(1),
                ..self
            },
            b"}" => self.closed(self.depth.saturating_sub(1)),
            _ => Walk {
                owner: owner_begun(text).unwrap_or(self.owner),
                ..self
            },
        }
    }

    fn closed(self, depth: u32) -> Walk {
        let owner = match self.owner {
            Owner::Module | Owner::Constructor if depth == 0 => Owner::File,
            Owner::Constructor if depth == 1 => Owner::Module,
            owner => owner,
        };
        Walk { owner, depth }
    }

    fn place(self) -> Place {
        match self.owner {
            Owner::File => Place::File,
            Owner::Main => Place::Main,
            Owner::Module if self.depth > 1 => Place::Body,
            Owner::Constructor if self.depth > 1 => Place::Constructor,
            Owner::Module | Owner::Constructor => Place::Members,
        }
    }
}

// Whose braces come behind this word, where it tells.
fn owner_begun(text: &[u8]) -> Option<Owner> {
    if is_one_of(text, &["sc_main"]) {
        Some(Owner::Main)
    } else if is_one_of(text, &["SC_MODULE"]) {
        Some(Owner::Module)
    } else if is_one_of(text, &["SC_CTOR", "sc_module_name"]) {
        Some(Owner::Constructor)
    } else {
        None
    }
}

/// Whether a text is one of these words.
pub fn is_one_of(text: &[u8], words: &[&str]) -> bool {
    words.iter().any(|word| word.as_bytes() == text)
}

/// Whether a token is a word.
pub fn is_word(token: &Token) -> bool {
    token.kind == TokenKind::Word
}
